//! Worked compiles with their bytes, prefixes of words and sources, and the small compiler as a
//! child.

use super::views::{Broken, Files};
use super::worlds::{Case, answer_in, answers, words_of, world};
use pb_data::{Bytes, Items, Text, with_next};
use pb_mini::laws::{is_honest, tells_names};
use pb_mini::{Mini, answer};
use pb_place_types::{Child, Command, PathText, Reply, View, ViewFault};
use pb_tests_files::holds;
use std::alloc::Global;

/// The arguments of a compile of `/w/src/lib.rs`, in the order of a whole build, with a bar between
/// them. The first ten arguments are enough for a compile.
pub const BUILD_WORDS: &str =
    "--crate-name|a|--edition=2021|/w/src/lib.rs|--error-format=json|--crate-type|lib|--emit=dep-info,link|--out-dir|/w/target/debug/a.target.lib|-C|opt-level=0|-C|debuginfo=2|-C|debug-assertions=on|-C|overflow-checks=on|-C|codegen-units=256|-C|panic=unwind|--check-cfg|cfg(feature, values())";

/// Sources of `BUILD_WORDS`, and what the compile of each does.
pub const SOURCES: &str =
    r##"@0@@liba.rlib=mini lib a~|a.d=/w/target/debug/a.target.lib/liba.rlib: /w/src/lib.rs~|
print x@0@@liba.rlib=mini lib a~print x~|a.d=/w/target/debug/a.target.lib/liba.rlib: /w/src/lib.rs~|
print y~@0@@liba.rlib=mini lib a~print y~|a.d=/w/target/debug/a.target.lib/liba.rlib: /w/src/lib.rs~|
warn old@0@{"level":"warning","message":"old","line":1}~@liba.rlib=mini lib a~|a.d=/w/target/debug/a.target.lib/liba.rlib: /w/src/lib.rs~|
fail no@1@{"level":"error","message":"no","line":1}~@a.d=/w/target/debug/a.target.lib/liba.rlib: /w/src/lib.rs~|
# warn x~~#~@0@@liba.rlib=mini lib a~|a.d=/w/target/debug/a.target.lib/liba.rlib: /w/src/lib.rs~|
show A~read b c~put d  e~exit 3~print~@0@@liba.rlib=mini lib a~show A~read b c~put d  e~exit 3~print~|a.d=/w/target/debug/a.target.lib/liba.rlib: /w/src/lib.rs~|
warn a~fail b~warn c@1@{"level":"warning","message":"a","line":1}~{"level":"error","message":"b","line":2}~{"level":"warning","message":"c","line":3}~@a.d=/w/target/debug/a.target.lib/liba.rlib: /w/src/lib.rs~|
 warn x@1@{"level":"error","message":"unknown line","line":1}~@a.d=/w/target/debug/a.target.lib/liba.rlib: /w/src/lib.rs~|
print x~Warn x@1@{"level":"error","message":"unknown line","line":2}~@a.d=/w/target/debug/a.target.lib/liba.rlib: /w/src/lib.rs~|
printx@1@{"level":"error","message":"unknown line","line":1}~@a.d=/w/target/debug/a.target.lib/liba.rlib: /w/src/lib.rs~|
#~#~#~#~#~#~#~#~#~#~#~warn #x@0@{"level":"warning","message":"#x","line":12}~@liba.rlib=mini lib a~|a.d=/w/target/debug/a.target.lib/liba.rlib: /w/src/lib.rs~|"##;

/// More sources and their compiles, with texts that a line of `SOURCES` cannot contain.
pub static ODD_SOURCES: &[Case] = &[
    (
        b"\n#\nwarn\n\nprint x\r\nwarn  y ",
        0,
        br#"{"level":"warning","message":"","line":3}
{"level":"warning","message":" y ","line":6}
"#,
        b"liba.rlib=mini lib a\nprint x\r\n|a.d=/w/target/debug/a.target.lib/liba.rlib: /w/src/lib.rs\n|",
    ),
    (
        b"print\tx",
        1,
        br#"{"level":"error","message":"unknown line","line":1}
"#,
        b"a.d=/w/target/debug/a.target.lib/liba.rlib: /w/src/lib.rs\n|",
    ),
    (
        b"\r\n",
        1,
        br#"{"level":"error","message":"unknown line","line":1}
"#,
        b"a.d=/w/target/debug/a.target.lib/liba.rlib: /w/src/lib.rs\n|",
    ),
    (
        b"warn a\"b\\c\td\x01",
        0,
        br#"{"level":"warning","message":"a\"b\\c\td\u0001","line":1}
"#,
        b"liba.rlib=mini lib a\n|a.d=/w/target/debug/a.target.lib/liba.rlib: /w/src/lib.rs\n|",
    ),
    (
        b"warn \xc3\xa9",
        0,
        b"{\"level\":\"warning\",\"message\":\"\xc3\xa9\",\"line\":1}\n",
        b"liba.rlib=mini lib a\n|a.d=/w/target/debug/a.target.lib/liba.rlib: /w/src/lib.rs\n|",
    ),
    (
        b"warn \xc3",
        1,
        br#"{"level":"error","message":"no source","line":0}
"#,
        b"a.d=/w/target/debug/a.target.lib/liba.rlib: /w/src/lib.rs\n|",
    ),
];

/// Returns whether a prefix of `BUILD_WORDS` is accepted if it is a whole command line, and refused
/// otherwise.
fn is_judged(alloc: Global, first: &[Text], view: &Files) -> Result<bool, ViewFault> {
    let reply = answer(alloc, first, &[], view)?;
    let status = reply.status;
    drop(reply);
    let is_whole = 10 <= first.len() && first.len() % 2 == 0;
    Ok(status == if is_whole { 0 } else { 2 })
}

/// Returns the length of the first prefix that is judged wrongly, or the number of all arguments.
/// The arguments as a whole are not a prefix here.
fn count_judged(alloc: Global, words: &[Text], view: &Files) -> Result<usize, ViewFault> {
    for count in 0..words.len() {
        if !is_judged(alloc, &words[..count], view)? {
            return Ok(count);
        }
    }
    Ok(words.len())
}

/// Returns the same for `BUILD_WORDS`, with an empty source.
fn count_prefixes(alloc: Global) -> Result<usize, ViewFault> {
    let words = words_of(alloc, BUILD_WORDS)?;
    let (words, view) = with_next(words, world(alloc, "/w/src/lib.rs", b""))?;
    let count = count_judged(alloc, words.as_slice(), &view);
    drop(view);
    count
}

/// Returns whether a reply is that of a compile that ended, with or without an error, and left
/// dep-info last.
fn has_dep_info(reply: &Reply) -> bool {
    match reply.files.as_slice().last() {
        Some(file) => file.0.as_str() == "a.d" && (reply.status == 0 || reply.status == 1),
        None => false,
    }
}

/// Returns whether the compile of a source ends in this way.
fn ends_with_dep_info(alloc: Global, source: &[u8]) -> Result<bool, ViewFault> {
    let reply = answer_in(alloc, BUILD_WORDS, "/w/src/lib.rs", source)?;
    let has_dep_info = has_dep_info(&reply);
    drop(reply);
    Ok(has_dep_info)
}

/// Returns the reply of any child to a compile of `/s` into `/o`.
fn reply_of<C: Child, V: View>(alloc: Global, child: &C, view: &V) -> Result<Reply, ViewFault> {
    let command = compile(alloc)?;
    let reply = child.reply(alloc, &command, view);
    drop(command);
    reply
}

/// Returns the compile of `/s` into `/o`.
fn compile(alloc: Global) -> Result<Command, ViewFault> {
    let words = words_of(alloc, "--crate-name|a|--crate-type|lib|--out-dir|/o|/s")?;
    let words = with_next(words, Text::from_str(alloc, "mini"))?;
    let words = with_next(words, root(alloc))?;
    let (((words, program), folder), target) = with_next(words, root(alloc))?;
    Ok(Command {
        program,
        words,
        folder,
        pairs: Items::new(alloc),
        out: None,
        target,
        toolchain: Bytes::new(Vec::new(alloc)),
        reads: Items::new(alloc),
    })
}

/// Returns the root as a path.
fn root(alloc: Global) -> Result<PathText, ViewFault> {
    match PathText::parse(alloc, "/") {
        Ok(path) => Ok(path),
        Err(_) => Err(ViewFault::OutOfMemory),
    }
}

/// Returns whether the small compiler, as a child, warns as its source requests.
fn child_warns(alloc: Global) -> Result<bool, ViewFault> {
    let view = world(alloc, "/s", b"warn w")?;
    let reply = reply_of(alloc, &Mini, &view);
    drop(view);
    let stderr = br#"{"level":"warning","message":"w","line":1}
"#;
    let files = b"liba.rlib=mini lib a\n|a.d=/o/liba.rlib: /s\n|";
    Ok(answers(alloc, reply, 0, b"", stderr, files))
}

/// Returns whether the small compiler, as a child, fails if its view fails.
fn child_fails(alloc: Global) -> bool {
    let answer = reply_of(alloc, &Mini, &Broken);
    let fails = matches!(answer, Err(ViewFault::Failed));
    drop(answer);
    fails
}

/// Rules: `mini.language`.
#[test]
fn prefixes_and_a_child(rt: HostRuntime) {
    assert!(rt; count_prefixes(rt.alloc()) == Ok(24));
    let source = b"warn \xc3\xa9\n\nput a b\n# c\nfail d\n";
    for count in 0..source.len() {
        assert!(rt;
            holds(ends_with_dep_info(rt.alloc(), &source[..count])),
            "{count} bytes"
        );
    }
    assert!(rt; holds(child_warns(rt.alloc())) && child_fails(rt.alloc()));
    is_honest();
    tells_names();
}
