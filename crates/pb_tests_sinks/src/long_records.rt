//! The note on the record of a script, if the record is long.

ghost use Rattle.std.specs.Prelude.{◌≡◌, [], IfOk};

use pb_mini::Mini;
use pb_place::Memory;
use pb_place_types::{Over, PathText, Place};
use pb_tool_program::Spoken;
use std::alloc::{AllocError, Global};
use std::test::Fail;

/// The greatest number of bytes of a record that gets no note.
const LONGEST: usize = 16_777_216;

/// Adds a block to a record: its length and itself.
fn push_block(alloc: Global, record: &mut Vec<u8>, block: &[u8]) -> Result<(), AllocError> {
    let length = block.len();
    record.extend_from_slice(format!(in alloc; "{length}\n")?.as_bytes())?;
    record.extend_from_slice(block)?;
    record.push(b'\n')?;
    Ok(())
}

/// Adds blocks to a record.
fn push_blocks(alloc: Global, record: &mut Vec<u8>, blocks: &[&str]) -> Result<(), AllocError> {
    for block in blocks {
        push_block(alloc, record, block.as_bytes())?;
    }
    Ok(())
}

/// Returns a record with this key. Its child was started in the folder `/w` and printed this text.
/// The only input is the folder `/w`, with files of these lengths.
fn record_of(
    alloc: Global,
    key: &str,
    files: &[(&str, usize)],
    stdout: &str,
) -> Result<Vec<u8>, AllocError> {
    let mut record = Vec::from_slice(alloc, b"record 2\n1\n")?;
    push_blocks(alloc, &mut record, &[key, "/w/target/debug/script"])?;
    record.extend_from_slice(b"0\n")?;
    push_blocks(alloc, &mut record, &["/w"])?;
    record.extend_from_slice(b"0\n")?;
    push_blocks(
        alloc,
        &mut record,
        &["/w/target/debug/run", "/w/target", "version"],
    )?;
    record.extend_from_slice(b"0\n1\nt\n")?;
    push_blocks(alloc, &mut record, &["/w"])?;
    let count = files.len();
    record.extend_from_slice(format!(in alloc; "{count}\n")?.as_bytes())?;
    for (name, length) in files {
        let mut bytes = Vec::new(alloc);
        bytes.resize(*length, b'x')?;
        push_block(alloc, &mut record, name.as_bytes())?;
        push_block(alloc, &mut record, bytes.as_slice())?;
    }
    record.extend_from_slice(b"0\n")?;
    push_blocks(alloc, &mut record, &[stdout, ""])?;
    record.extend_from_slice(b"end\n")?;
    Ok(record)
}

/// Returns what a place writes to its sink when a file is written.
fn said_of(alloc: Global, name: &str, bytes: &[u8]) -> Result<Vec<u8>, Fail> {
    let path = PathText::parse(alloc, name)?;
    let mut said = Vec::new(alloc);
    let mut place = Spoken::new(Memory::new(alloc, Mini), Over::new(&mut said));
    let answer = place.write(alloc, &path, bytes);
    drop(place);
    answer?;
    Ok(said)
}

/// A record's file name, its key, the lengths of its files, its standard output, and the note on
/// the record.
type Case<'a> = (&'a str, &'a str, &'a [(&'a str, usize)], &'a str, &'a str);

static CASES: &[Case] = &[
    (
        "/w/target/debug/a.target.run.record",
        "a.target.run",
        &[("b", 3), ("c", LONGEST), ("d", 20), ("e", 1)],
        "cargo::warning=rerun-if-changed\n",
        "note: the record of a.target.run has 16777441 bytes: its script names no input, so all files of its package are inputs. The largest: /w/c (16777216 bytes), /w/d (20 bytes), /w/b (3 bytes). A script names its inputs with lines cargo::rerun-if-changed=PATH\n",
    ),
    (
        "/w/target/debug/a.target.run.record",
        "a.target.run",
        &[("c", LONGEST)],
        "x\ncargo::rerun-if-changed=.\n",
        "",
    ),
    (
        "/w/target/debug/a.target.run.record",
        "a.target.run",
        &[("c", LONGEST)],
        "cargo:rerun-if-env-changed=A\n",
        "",
    ),
    (
        "/w/target/debug/a.target.run.record",
        "a.target.run",
        &[("c", 1000)],
        "",
        "",
    ),
    (
        "/w/target/debug/a.target.lib.record",
        "a.target.lib",
        &[("c", LONGEST)],
        "",
        "",
    ),
];

/// Tries a case.
fn try_case(alloc: Global, case: &Case) -> Result<(), Fail> {
    let (name, key, files, stdout, wanted) = *case;
    let record = record_of(alloc, key, files, stdout)?;
    let said = said_of(alloc, name, record.as_slice())?;
    if said.as_slice() != wanted.as_bytes() {
        let said = str::from_utf8(said.as_slice()).unwrap_or("no text");
        return Err(Fail::new(format_args!("{name}: {said}")));
    }
    Ok(())
}

/// Rules: `tool.notes`.
#[test]
fn records_of_scripts(rt: HostRuntime) -> Result<(), Fail> {
    for case in CASES {
        try_case(rt.alloc(), case)?;
    }
    Ok(())
}
