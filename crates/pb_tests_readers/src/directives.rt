//! What the readers answer, against worked examples.

use crate::texts::of_bytes;
use crate::wording::reads;
use pb_data::{Text, TryCopy};
use pb_directive::{
    DepInfo, Directive, Directives, LineFault, laws, read_dep_info, read_directives,
};
use pb_tests_files::{Shown, holds};
use std::alloc::{AllocError, Global};
use std::process::Abort;
use std::test::Fail;

fn put_directive(out: &mut Shown, directive: &Directive) {
    match directive {
        Directive::RerunIfChanged(path) => out.put_call("changed", path.as_str(), ""),
        Directive::RerunIfEnvChanged(name) => out.put_call("env-changed", name.as_str(), ""),
        Directive::LinkArg(flag) => out.put_call("arg", flag.as_str(), ""),
        Directive::LinkArgBins(flag) => out.put_call("arg-bins", flag.as_str(), ""),
        Directive::LinkArgCdylib(flag) => out.put_call("arg-cdylib", flag.as_str(), ""),
        Directive::LinkArgTests(flag) => out.put_call("arg-tests", flag.as_str(), ""),
        Directive::LinkArgExamples(flag) => out.put_call("arg-examples", flag.as_str(), ""),
        Directive::LinkArgBenches(flag) => out.put_call("arg-benches", flag.as_str(), ""),
        Directive::LinkArgBin(name, flag) => out.put_call("arg-bin", name.as_str(), flag.as_str()),
        Directive::LinkLib(name) => out.put_call("lib", name.as_str(), ""),
        Directive::LinkSearch(folder) => out.put_call("search", folder.as_str(), ""),
        Directive::Cfg(condition) => out.put_call("cfg", condition.as_str(), ""),
        Directive::CheckCfg(condition) => out.put_call("check-cfg", condition.as_str(), ""),
        Directive::Env(name, value) => out.put_call("env", name.as_str(), value.as_str()),
        Directive::Metadata(key, value) => out.put_call("metadata", key.as_str(), value.as_str()),
        Directive::Warning(text) => out.put_call("warning", text.as_str(), ""),
        Directive::Error(text) => out.put_call("error", text.as_str(), ""),
    }
}

fn put_fault(out: &mut Shown, fault: LineFault) {
    let (name, line) = match fault {
        LineFault::NotText(line) => ("NotText ", line),
        LineFault::UnknownKey(line) => ("UnknownKey ", line),
        LineFault::BadValue(line) => ("BadValue ", line),
        LineFault::BadFlag(line) => ("BadFlag ", line),
        LineFault::OutOfMemory => ("OutOfMemory ", 0),
    };
    out.put(&[name]);
    out.put_number(line);
}

fn put_directives(out: &mut Shown, directives: &Directives) {
    for directive in directives.as_slice() {
        put_directive(out, directive);
        out.put(&[";"]);
    }
}

/// Puts a copy of directives.
fn put_copy(alloc: Global, out: &mut Shown, directives: &Directives) {
    match directives.copy(alloc) {
        Ok(copy) => {
            put_directives(out, &copy);
            drop(copy);
        }
        Err(_) => put_fault(out, LineFault::OutOfMemory),
    }
}

fn put_names(out: &mut Shown, info: &DepInfo) {
    out.put_each("", info.words.as_slice(), ";");
    out.put(&[" "]);
    out.put_each("", info.variables.as_slice(), ";");
}

/// Returns whether this text shows a copy of the directives in a script's output, or the fault if
/// there are no directives.
fn says(alloc: Global, output: &[u8], wanted: &str) -> bool {
    let mut shown = Shown::new(alloc);
    match read_directives(alloc, output) {
        Ok(directives) => {
            put_copy(alloc, &mut shown, &directives);
            drop(directives);
        }
        Err(fault) => put_fault(&mut shown, fault),
    }
    shown.says(wanted)
}

/// Asserts what each of these outputs means.
fn assert_outputs(rt: &impl Abort, alloc: Global, cases: &[(&[u8], &str)]) {
    for (place, case) in cases.iter().enumerate() {
        let (output, wanted) = *case;
        assert!(rt; says(alloc, output, wanted), "case {place}: {wanted}");
    }
}

/// Asserts what each of these lines means as an output.
fn assert_lines(rt: &impl Abort, alloc: Global, cases: &str) {
    for line in cases.lines() {
        let (output, wanted) = line.split_once(" -> ").unwrap_or((line, ""));
        assert!(rt; says(alloc, output.as_bytes(), wanted), "{line}");
    }
}

/// Outputs of scripts, and what they mean: lines and prefixes.
static LINES: &[(&[u8], &str)] = &[
    (b"cargo:root=/x", "metadata<root></x>;"),
    (b"cargo::root=/x", "UnknownKey 1"),
    (b"", ""),
    (b"hello\n\n", ""),
    (b"xcargo::a=b\n cargo :a=b", ""),
    (
        b"cargo::rustc-cfg=a\ncargo:rustc-cfg=b\n",
        "cfg<a><>;cfg<b><>;",
    ),
    (b" \t cargo::warning= w \t\r\r\n", "warning< w><>;"),
    (b"\xffcargo::x=y\ncargo::rustc-cfg=a", "cfg<a><>;"),
    (b"\xc3\ncargo::rustc-cfg=\xc3\xa9\n", "cfg<\u{e9}><>;"),
    (b"cargo::warning", "BadValue 1"),
    (b"cargo:warning\ncargo:", ""),
    (b"cargo::", "BadValue 1"),
    (b"cargo::=x", "UnknownKey 1"),
    (b"cargo:=x", "BadValue 1"),
    (
        b"\ncargo::rustc-cfg=\ncargo::x=y\ncargo::rustc-flags=x\n",
        "BadValue 2",
    ),
    (b"cargo::error=e\ncargo::error=", "error<e><>;error<><>;"),
    (b"cargo::error", "BadValue 1"),
    (
        b"cargo:error=e\ncargo:metadata=a=b",
        "metadata<error><e>;metadata<metadata><a=b>;",
    ),
];

/// Outputs of scripts, and what they mean: keys and values.
const KEYS: &str = "cargo::rerun-if-changed=build.rs -> changed<build.rs><>;\n\
     cargo::rerun-if-changed= -> BadValue 1\n\
     cargo::rerun-if-changed=a\0 -> BadValue 1\n\
     cargo:rerun-if-env-changed=CC -> env-changed<CC><>;\n\
     cargo::rerun-if-env-changed=A=B -> BadValue 1\n\
     cargo::rerun-if-env-changed= -> BadValue 1\n\
     cargo::rustc-link-arg= -> arg<><>;\n\
     cargo::rustc-link-arg=\0 -> BadValue 1\n\
     cargo::rustc-link-arg-bins=-s -> arg-bins<-s><>;\n\
     cargo::rustc-link-arg-cdylib=-s -> arg-cdylib<-s><>;\n\
     cargo::rustc-link-arg-tests=-s -> arg-tests<-s><>;\n\
     cargo::rustc-link-arg-examples=-s -> arg-examples<-s><>;\n\
     cargo::rustc-link-arg-benches=-s -> arg-benches<-s><>;\n\
     cargo::rustc-link-arg-bin=a=-s=t -> arg-bin<a><-s=t>;\n\
     cargo::rustc-link-arg-bin==x -> arg-bin<><x>;\n\
     cargo::rustc-link-arg-bin=x -> BadValue 1\n\
     cargo::rustc-link-lib=static=a -> lib<static=a><>;\n\
     cargo::rustc-link-search= -> BadValue 1\n\
     cargo::rustc-link-search=native=/l -> search<native=/l><>;\n\
     cargo::rustc-check-cfg=cfg(a) -> check-cfg<cfg(a)><>;\n\
     cargo::rustc-flags=-l a  -Lb -lc -L d  -> lib<a><>;search<b><>;lib<c><>;search<d><>;\n\
     cargo::rustc-flags=-l -L -> lib<-L><>;\n\
     cargo::rustc-flags= -> \n\
     cargo::rustc-flags=-l a -l -> BadFlag 1\n\
     cargo::rustc-flags=-la\t-x b -> BadFlag 1\n\
     cargo::rustc-flags=x\0 -> BadValue 1\n\
     cargo::rustc-env=A=b=c -> env<A><b=c>;\n\
     cargo::rustc-env==b -> BadValue 1\n\
     cargo::rustc-env=A -> BadValue 1\n\
     cargo::metadata=root=/r -> metadata<root></r>;\n\
     cargo::metadata=root -> BadValue 1\n\
     cargo:a\0=b -> BadValue 1\n\
     cargo:a=b\0 -> BadValue 1\n\
     cargo::warning= -> warning<><>;";

/// Lines with a value that their key may not have, and lines that differ little from these.
const VALUES: &str = "cargo:rerun-if-changed= -> BadValue 1\n\
     cargo::rerun-if-env-changed=A\0 -> BadValue 1\n\
     cargo::rerun-if-env-changed== -> BadValue 1\n\
     cargo::rustc-link-arg-bins=\0 -> BadValue 1\n\
     cargo::rustc-link-arg-cdylib=\0 -> BadValue 1\n\
     cargo::rustc-link-arg-tests=\0 -> BadValue 1\n\
     cargo::rustc-link-arg-examples=\0 -> BadValue 1\n\
     cargo::rustc-link-arg-benches=\0 -> BadValue 1\n\
     cargo::rustc-link-arg-bin=a=\0 -> BadValue 1\n\
     cargo::rustc-link-arg-bin=\0=a -> BadValue 1\n\
     cargo::rustc-link-lib= -> BadValue 1\n\
     cargo::rustc-link-lib=a\0 -> BadValue 1\n\
     cargo::rustc-link-search=a\0 -> BadValue 1\n\
     cargo::rustc-cfg=a\0 -> BadValue 1\n\
     cargo::rustc-check-cfg= -> BadValue 1\n\
     cargo::rustc-check-cfg=a\0 -> BadValue 1\n\
     cargo::rustc-flags=-la\0 -> BadValue 1\n\
     cargo::rustc-env=A=\0 -> BadValue 1\n\
     cargo::rustc-env=\0=a -> BadValue 1\n\
     cargo::metadata==a -> BadValue 1\n\
     cargo::metadata=a=\0 -> BadValue 1\n\
     cargo::metadata=\0=a -> BadValue 1\n\
     cargo::metadata -> BadValue 1\n\
     cargo::unknown -> BadValue 1\n\
     cargo::rustc-flags=-L -> BadFlag 1\n\
     cargo::rustc-flags=-l -> BadFlag 1\n\
     cargo::rustc-flags=-L a -L -> BadFlag 1\n\
     cargo:rustc-flags=a -> BadFlag 1\n\
     cargo::rustc-link-arg-bin=a= -> arg-bin<a><>;\n\
     cargo::rustc-env=A= -> env<A><>;\n\
     cargo::metadata=a= -> metadata<a><>;\n\
     cargo:a= -> metadata<a><>;\n\
     cargo::warning=\0 -> warning<\0><>;\n\
     cargo:warning=w -> warning<w><>;";

/// Returns what the first `end` bytes of the line `cargo::rustc-cfg=ab` mean. The whole line is not
/// among these prefixes.
fn said_by_prefix(end: usize) -> &'static str {
    if end < 7 {
        ""
    } else if end < 18 {
        "BadValue 1"
    } else {
        "cfg<a><>;"
    }
}

/// Dep-info, and what it names.
static RULES: &[(&[u8], &str)] = &[
    (
        b"o: /w/a\\ b.rs /w/c.rs\n# env-dep:V\n",
        "/w/a b.rs;/w/c.rs; V;",
    ),
    (b"", " "),
    (b"\n\r\n", " "),
    (b"o p: a\r\n", "a; "),
    (b"o:", " "),
    (b"o: ", " "),
    (b"o:a b", "BadValue 1"),
    (b"o", "BadValue 1"),
    (b"C:/o: x", "x; "),
    (b"o: a: b", "a:;b; "),
    (b"o:  a   b  ", "a;b; "),
    (b"o: a\\b \\ c\\\\ d", "a\\b; c\\ d; "),
    (b"o: a\\", "a\\; "),
    (b"o: a\\ ", "a ; "),
    (b"o: a\tb", "a\tb; "),
    (b"o: b a b\no: a c b\n", "b;a;c; "),
    (b"# env-dep:B\n# env-dep:A=x=y\n# env-dep:B=z", " B;A;"),
    (b"# env-dep:", "BadValue 1"),
    (b"# env-dep:=x", "BadValue 1"),
    (b"# env-dep:A\0", "BadValue 1"),
    (b"# env-dep:A=\0", " A;"),
    (b"#env-dep:A\n# env-dep\n#", " "),
    (b"o: a\0", "BadValue 1"),
    (b"o\0: a", "a; "),
    (b"\xff", "NotText 1"),
    (b"o: a\n# \xff\nx", "NotText 2"),
    (b"o: a\nx\n\xff", "BadValue 2"),
    (b"o: \xc3\xa9", "\u{e9}; "),
    (b"\r", " "),
    (b"o:a: b", "b; "),
    (b"o:\ta", "BadValue 1"),
    (b" o : a", "a; "),
    (b"o: a\r\r\n", "a\r; "),
    (b"# env-dep: A", "  A;"),
    (b" # env-dep:A", "BadValue 1"),
];

/// Returns whether dep-info names this.
pub fn is_modelled(alloc: Global, dep_info: &[u8], wanted: &str) -> bool {
    let mut shown = Shown::new(alloc);
    match read_dep_info(alloc, dep_info) {
        Ok(info) => {
            put_names(&mut shown, &info);
            drop(info);
        }
        Err(fault) => put_fault(&mut shown, fault),
    }
    shown.says(wanted)
}

/// Rules: `directives.line`, `directives.values`, `directives.unknown`, `directives.first`, `directives.no-effect`, `dep-info.lines`, `dep-info.faults`.
#[test]
fn outputs_and_dep_info(rt: HostRuntime) {
    assert_outputs(&rt, rt.alloc(), LINES);
    assert_lines(&rt, rt.alloc(), KEYS);
    assert_lines(&rt, rt.alloc(), VALUES);
    let line = b"cargo::rustc-cfg=ab";
    for end in 0..line.len() {
        let wanted = said_by_prefix(end);
        assert!(rt; says(rt.alloc(), &line[..end], wanted), "{end} bytes");
    }
    for (place, case) in RULES.iter().enumerate() {
        let (dep_info, wanted) = *case;
        assert!(rt;
            is_modelled(rt.alloc(), dep_info, wanted),
            "case {place}: {wanted}"
        );
    }
}

/// Returns whether a line of this number of bytes, which is not a directive, means nothing as
/// output and is refused as dep-info.
fn plain_line_is_read(alloc: Global, length: usize) -> Result<bool, AllocError> {
    let plain = of_bytes(alloc, b"", b'a', length)?;
    Ok(says(alloc, plain.as_slice(), "") && is_modelled(alloc, plain.as_slice(), "BadValue 1"))
}

/// Returns whether directives are one warning, of this length.
fn are_warning(directives: &[Directive], length: usize) -> bool {
    match directives {
        [Directive::Warning(text)] => text.as_str().len() == length,
        _ => false,
    }
}

/// Returns whether a warning of this length is read.
fn warns_at_length(alloc: Global, length: usize) -> Result<bool, Fail> {
    let output = of_bytes(alloc, b"cargo::warning=", b'w', length)?;
    let read = read_directives(alloc, output.as_slice());
    drop(output);
    let directives = read?;
    let is_warning = are_warning(directives.as_slice(), length);
    drop(directives);
    Ok(is_warning)
}

/// Returns whether texts are one, of this length.
fn are_one_text(texts: &[Text], length: usize) -> bool {
    match texts {
        [text] => text.as_str().len() == length,
        _ => false,
    }
}

/// Returns whether dep-info that names one path of this length is read.
fn names_at_length(alloc: Global, length: usize) -> Result<bool, Fail> {
    let dep_info = of_bytes(alloc, b"o: ", b'w', length)?;
    let read = read_dep_info(alloc, dep_info.as_slice());
    drop(dep_info);
    let info = read?;
    let is_one = are_one_text(info.words.as_slice(), length);
    drop(info);
    Ok(is_one)
}

/// Returns whether a name is among the words of dep-info, and not among its variables.
fn is_word_alone(info: &DepInfo, name: &Text) -> bool {
    info.words.contains(name) && !info.variables.contains(name)
}

/// Returns the same for a name that is written here.
fn has_word_alone(alloc: Global, info: &DepInfo, name: &str) -> Result<bool, AllocError> {
    let name = Text::from_str(alloc, name)?;
    Ok(is_word_alone(info, &name))
}

/// Returns how many words dep-info has.
fn count_words(alloc: Global, info: DepInfo) -> Result<usize, AllocError> {
    let words = info.words.into_items(alloc)?;
    Ok(words.len())
}

/// Returns whether dep-info has this number of words, and whether this word is one of them.
fn names_word(alloc: Global, dep_info: &[u8], name: &str, count: usize) -> Result<bool, Fail> {
    let info = read_dep_info(alloc, dep_info)?;
    let is_word = has_word_alone(alloc, &info, name);
    let counted = count_words(alloc, info);
    Ok(counted? == count && is_word?)
}

/// Faults of a line, and what they are in words.
static FAULTS_IN_WORDS: &[(LineFault, &str)] = &[
    (LineFault::NotText(1), "line 1 is not UTF-8"),
    (LineFault::UnknownKey(23), "line 23 has an unknown key"),
    (LineFault::BadValue(4), "line 4 has a bad value"),
    (LineFault::BadFlag(5), "line 5 has a bad flag"),
    (LineFault::OutOfMemory, "out of memory"),
];

/// Calls each law once.
fn laws_are_named() {
    laws::directives_concatenate();
    laws::names_concatenate();
    laws::other_lines_say_nothing();
    laws::words_stand_once();
    laws::variables_stand_once();
    laws::last_metadata_counts();
    laws::passed_names_stand_once();
    laws::lines_say();
    laws::infos_say();
    pb_data::table::table_names::<Text>();
    pb_data::table::table_values::<Text>();
    pb_data::table::table_joins::<Text>();
}

/// Rules: `directives.line`.
#[test]
fn long_lines_words_and_laws(rt: HostRuntime) -> Result<(), Fail> {
    assert!(rt; holds(plain_line_is_read(rt.alloc(), 4_194_304)));
    assert!(rt; warns_at_length(rt.alloc(), 4_194_289)?);
    assert!(rt; names_at_length(rt.alloc(), 4_194_301)?);
    assert!(rt; names_word(rt.alloc(), b"o: b a b", "a", 2)?);
    for case in FAULTS_IN_WORDS {
        let (fault, wanted) = *case;
        assert!(rt; reads(rt.alloc(), &fault, wanted), "{wanted}");
    }
    laws_are_named();
    Ok(())
}
