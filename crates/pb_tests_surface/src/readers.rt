//! What scripts and compilers print, records, message lines, and the small compiler.

use crate::world::words_of;
use pb_data::{Bytes, Text};
use pb_directive::{LineFault, dep_pairs, read_dep_info, read_directives};
use pb_manifest::Edition;
use pb_message::{Level, Message, SinkFault, Subject, Target, diagnostics, line_of, write_lines};
use pb_mini::answer;
use pb_place::{Out, Over, PathText, View, ViewFault};
use pb_record::{read_record, write_record};
use std::alloc::{AllocError, Global};
use std::fmt::Write;
use std::test::Fail;

/// Returns the variables that a script of `z-y` passes on.
fn passed_on(alloc: Global, printed: &[u8]) -> Result<String, Fail> {
    let directives = read_directives(alloc, printed)?;
    let pairs = dep_pairs(alloc, "z-y", &directives);
    drop(directives);
    let mut out = String::new(alloc);
    for (name, value) in pairs?.iter() {
        write!(out, "{}={};", name.as_str(), value.as_str())?;
    }
    Ok(out)
}

/// Returns the words and the variables that dep-info names.
fn named_by(alloc: Global, info: &[u8]) -> Result<String, Fail> {
    let info = read_dep_info(alloc, info)?;
    let mut out = String::new(alloc);
    for word in info.words.as_slice() {
        write!(out, "{};", word.as_str())?;
    }
    for name in info.variables.as_slice() {
        write!(out, "${};", name.as_str())?;
    }
    Ok(out)
}

/// Rules: `directives.metadata`, `directives.unknown`, `dep-info.lines`.
#[test]
fn what_is_printed_is_read(rt: HostRuntime) -> Result<(), Fail> {
    let printed = b"cargo::metadata=k-1=v\nx\ncargo:a=b\n";
    let pairs = passed_on(rt.alloc(), printed)?;
    assert_eq!(rt; pairs.as_str(), "DEP_Z_Y_K_1=v;DEP_Z_Y_A=b;");
    let refused = read_directives(rt.alloc(), b"\ncargo::no=1\n").err();
    assert_eq!(rt; refused, Some(LineFault::UnknownKey(2)));
    let names = named_by(rt.alloc(), b"o: a b\\ c a\n# env-dep:V=1\n")?;
    assert_eq!(rt; names.as_str(), "a;b c;$V;");
    Ok(())
}

/// A record of format 2.
const RECORD: &str =
    "record 2\n7\n12\na.target.lib\n5\nrustc\n1\n2\n-C\n2\n/w\n1\n1\nA\n1\n1\n21\n/t/debug/a.target.lib\n2\n/t\n3\nx\ny\n0\n1\nv\n1\nV\n0\n0\n3\nout\n3\nerr\nend\n";

/// Returns whether a text is a record that is written as the same text.
fn is_record(alloc: Global, text: &str) -> Result<bool, AllocError> {
    match read_record(alloc, text.as_bytes())? {
        Some(record) => {
            let written = write_record(alloc, &record);
            drop(record);
            Ok(written?.as_slice() == text.as_bytes())
        }
        None => Ok(false),
    }
}

/// Rules: `records.text`.
#[test]
fn records_are_read_and_written(rt: HostRuntime) -> Result<(), Fail> {
    assert!(rt; is_record(rt.alloc(), RECORD)?);
    assert!(rt; !is_record(rt.alloc(), "record 2\n7\n")?);
    Ok(())
}

/// Returns the library `a` in `/w`, which message lines are about.
fn subject(alloc: Global) -> Result<Subject, Fail> {
    let folder = PathText::parse(alloc, "/w")?;
    let manifest = folder.join(alloc, "Cargo.toml")?;
    let source = folder.join(alloc, "src/lib.rs")?;
    let name = Text::from_str(alloc, "a")?;
    let target = Target::library(alloc, &[], name, source, Edition::E2021)?;
    let name = Text::from_str(alloc, "a")?;
    let version = Text::from_str(alloc, "0.1.0")?;
    Ok(Subject {
        name,
        version,
        folder,
        manifest,
        target,
    })
}

/// The line of a warning of the script.
const LINE: &str =
    r#"{"reason":"build-script-note","package_id":"path+file:///w#a@0.1.0","level":"warning","text":"take \"care\""}
"#;

/// Returns the line of a warning of the script.
fn line_with(alloc: Global, warning: &str) -> Result<Text, Fail> {
    let warning = Text::from_str(alloc, warning)?;
    let subject = subject(alloc)?;
    let message = Message::BuildScriptNote(Level::Warning, warning);
    let line = line_of(alloc, &subject, false, &message);
    drop(subject);
    drop(message);
    Ok(line?)
}

/// Rules: `messages.lines`, `messages.diagnostics`, `sinks.take`.
#[test]
fn lines_are_made_and_written(rt: HostRuntime) -> Result<(), Fail> {
    let line = line_with(rt.alloc(), "take \"care\"")?;
    assert_eq!(rt; line.as_str(), LINE);
    let printed = b"warning: plain\n {\"level\":\"warning\"}\n[1]\n";
    let found = diagnostics(rt.alloc(), printed)?;
    assert!(rt; matches!(found.as_slice(), [it] if it.as_str() == "{\"level\":\"warning\"}"));
    let mut room = [0; 8];
    let mut sink = Over::new(&mut room[..]);
    assert_eq!(rt; write_lines(&mut sink, "12345678"), Ok(()));
    assert_eq!(rt; write_lines(&mut sink, "9"), Err(SinkFault));
    assert_eq!(rt; sink.failures(), 1);
    Ok(())
}

/// A view without files, in which no variable is set.
#[derive(Clone, Copy)]
struct Nothing;

impl View for Nothing {
    ghost use Rattle.std.specs.Prelude.{false};
    ghost use Rattle.std.specs.FinMap as finite;

    ghost is_modelled = { false };

    ghost shown = { λ _. record { files = finite.empty; variables = finite.empty } };

    ghost fails = { λ _. ⊥ };

    fn file(&self, _: Global, _: &PathText) -> Result<Option<Bytes>, ViewFault> {
        Ok(None)
    }

    fn variable(&self, _: Global, _: &str) -> Result<Option<Text>, ViewFault> {
        Ok(None)
    }
}

/// Returns what the small compiler replies: its status and its streams.
fn reply_to(alloc: Global, words: &str) -> Result<String, Fail> {
    let words = words_of(alloc, words)?;
    let reply = answer(alloc, words.as_slice(), &[], &Nothing)?;
    let stdout = str::from_utf8(reply.stdout.as_slice()).unwrap_or("");
    let stderr = str::from_utf8(reply.stderr.as_slice()).unwrap_or("");
    let text = format!(in alloc; "{}|{stdout}|{stderr}", reply.status);
    drop(reply);
    Ok(text?)
}

/// Rules: `mini.language`.
#[test]
fn the_small_compiler_replies(rt: HostRuntime) -> Result<(), Fail> {
    let reply = reply_to(rt.alloc(), "-vV")?;
    assert_eq!(rt; reply.as_str(), "0|mini 0.1.0\nhost: mini-unknown-none\n|");
    let reply = reply_to(rt.alloc(), "--run /x")?;
    assert_eq!(rt; reply.as_str(), "2||mini: no image\n");
    Ok(())
}
