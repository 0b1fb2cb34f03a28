//! Records as text: worked examples, texts that are not records, and texts made at random.

use crate::dice::Dice;
use pb_place_types::join_pieces;
use pb_record::{Needed, Record, read_record, write_record, write_record_pieces};
use pb_tests_files::{Shown, holds};
use std::alloc::{AllocError, Global};

/// Returns whether a record is written as this text, whole and in pieces.
fn is_written(alloc: Global, kept: Record, text: &[u8]) -> Result<Option<bool>, AllocError> {
    let again = write_record(alloc, &kept)?;
    let pieces = write_record_pieces(alloc, kept)?;
    let joined = join_pieces(alloc, pieces.as_slice())?;
    Ok(Some(again.as_slice() == text && joined.as_slice() == text))
}

/// Returns whether the record in a text is written as the same text, or none if the text is not a
/// record.
fn again(alloc: Global, text: &[u8]) -> Result<Option<bool>, AllocError> {
    match read_record(alloc, text)? {
        Some(kept) => is_written(alloc, kept, text),
        None => Ok(None),
    }
}

/// Returns whether a text is a record that is written as the same text.
fn is_record(alloc: Global, text: &[u8]) -> bool {
    matches!(again(alloc, text), Ok(Some(true)))
}

/// Returns whether a text is not a record.
fn is_none(alloc: Global, text: &[u8]) -> bool {
    matches!(again(alloc, text), Ok(None))
}

/// Returns whether a text is not a record, or is a record that is written as the same text.
fn is_none_or_record(alloc: Global, text: &[u8]) -> bool {
    matches!(again(alloc, text), Ok(None) | Ok(Some(true)))
}

/// A record of format 2 with the largest run number, with nothing in its lists.
const LARGEST: &str =
    "record 2\n18446744073709551615\n12\nz.target.lib\n1\nm\n0\n1\n/\n0\n2\n/z\n2\n/t\n0\n\n0\n0\n0\n0\n\n0\n\nend\n";

/// Records of format 2, and then of format 1.
static RECORDS: &[&str] = &[
    LARGEST,
    "record 2\n7\n12\na.target.lib\n5\nrustc\n2\n2\n-C\n0\n\n2\n/w\n2\n1\nA\n1\n1\n2\nAB\n0\n\n4\n/w/t\n2\n/t\n3\nx\ny\n1\n2\n/r\n3\nf\n4\n/w/a\n2\nok\nt\n2\n/w\n1\n3\nb/c\n1\n\n\nv\n1\nV\n1\n0\n\n2\n1\nb\n3\n1\nc\n6\n3\nout\n3\nerr\nend\n",
    "record 2\n0\n0\n\n0\n\n0\n1\n/\n0\n1\n/\n1\n/\n0\n\n0\n1\nv\n2\n\u{e9}\n0\n0\n0\n\n0\n\nend\n",
    "record 1\n12\nz.target.lib\n1\nm\n0\n1\n/\n0\n2\n/z\n2\n/t\n0\n\n0\n0\n0\n0\n\n0\n\nend\n",
    "record 1\n1\na\n1\nm\n1\n1\nw\n2\n/w\n0\n2\n/z\n2\n/t\n1\nx\n0\n0\n2\n1\nb\n2\n1\nf\n1\n1\n3\ng/h\n0\n\n1\nc\n0\n1\no\n1\ne\nend\n",
    "record 1\n1\na\n1\nm\n0\n1\n/\n1\n1\nN\n1\nv\n2\n/z\n2\n/t\n0\n\n1\n2\n/t\n1\nv\n1\nX\n0\n1\n1\nb\n1\n1\nf\n3\n1\n2\n0\n\n0\n\nend\n",
];

/// Returns whether a record has the run number of the largest one, and no needed units.
fn is_largest(kept: &Record) -> bool {
    match &kept.needed {
        Needed::Numbers(own, needs) => *own == u64::MAX && needs.is_empty(),
        Needed::Copies(_) => false,
    }
}

/// Returns whether a record has the parts that are written in the largest record.
fn has_its_parts(kept: &Record) -> bool {
    kept.key.as_str() == "z.target.lib"
        && kept.asked.program.as_str() == "m"
        && kept.asked.out.as_str() == "/z"
        && is_largest(kept)
}

/// Returns whether the largest record is read with its parts.
fn says_its_parts(alloc: Global) -> Result<bool, AllocError> {
    match read_record(alloc, LARGEST.as_bytes())? {
        Some(kept) => {
            let has_its_parts = has_its_parts(&kept);
            drop(kept);
            Ok(has_its_parts)
        }
        None => Ok(false),
    }
}

/// Returns whether no proper prefix of a text is a record.
fn is_torn_anywhere(alloc: Global, text: &[u8]) -> bool {
    for end in 0..text.len() {
        if !is_none(alloc, &text[..end]) {
            return false;
        }
    }
    true
}

/// Returns whether a text with one more byte is not a record.
fn is_none_longer(alloc: Global, text: &[u8]) -> Result<bool, AllocError> {
    let mut longer = text.to_vec(alloc)?;
    longer.push(b'\n')?;
    Ok(is_none(alloc, longer.as_slice()))
}

/// Returns whether a text with this byte at an index is not a record, or is a record that is
/// written as the same text.
fn stands_with(alloc: Global, text: &[u8], at: usize, byte: u8) -> Result<bool, AllocError> {
    let mut changed = text.to_vec(alloc)?;
    if at < changed.len() {
        changed[at] = byte;
    }
    Ok(is_none_or_record(alloc, changed.as_slice()))
}

/// Returns the same for each of some bytes at each index of a text.
fn stands_changed(alloc: Global, text: &[u8]) -> Result<bool, AllocError> {
    for at in 0..text.len() {
        for byte in b"\0\n019af/\xff" {
            if !stands_with(alloc, text, at, *byte)? {
                return Ok(false);
            }
        }
    }
    Ok(true)
}

/// Returns what is wrong with the text of a record as it is, torn, with one more byte, or with a
/// changed byte. Returns an empty text if nothing is wrong.
fn wrong_with(alloc: Global, text: &[u8]) -> &'static str {
    if !is_record(alloc, text) {
        return "as it is";
    }
    if !is_torn_anywhere(alloc, text) {
        return "torn";
    }
    if !holds(is_none_longer(alloc, text)) {
        return "longer";
    }
    if !holds(stands_changed(alloc, text)) {
        return "changed";
    }
    ""
}

/// Two texts each. If the second text replaces the first in a record with nothing in its lists, the
/// result is not a record.
static WRONG: &[(&str, &str)] = &[
    ("18446744073709551615", "18446744073709551616"),
    ("18446744073709551615", "018446744073709551615"),
    ("18446744073709551615", "+1"),
    ("18446744073709551615", ""),
    ("18446744073709551615", "1 "),
    ("12\n", "012\n"),
    ("12\n", "11\n"),
    ("12\n", "13\n"),
    ("\n/z\n", "\nz/\n"),
    ("2\n/z\n", "3\n/z/\n"),
    ("2\n/z\n", "4\n/../\n"),
    ("2\n/z\n", "3\n/z\0\n"),
    ("2\n/z\n", "0\n\n"),
    ("1\n/\n0\n", "1\n/\n2\n1\nB\n0\n\n1\nA\n0\n\n"),
    ("1\n/\n0\n", "1\n/\n2\n1\nA\n0\n\n1\nA\n0\n\n"),
    ("record 2", "record 1"),
    ("record 2", "record 3"),
    ("end\n", "END\n"),
    ("end\n", ""),
    ("end\n", "end"),
];

/// Returns the text of a record in which one text is replaced by another, once.
fn replace_part(alloc: Global, old: &str, new: &str) -> Result<String, AllocError> {
    let (before, behind) = LARGEST.split_once(old).unwrap_or((LARGEST, ""));
    let mut made = Shown::new(alloc);
    made.put(&[before, new, behind]);
    made.whole()
}

/// Replaces one text in the largest record by another. Returns whether the result is not a record.
fn is_none_with(alloc: Global, old: &str, new: &str) -> Result<bool, AllocError> {
    let made = replace_part(alloc, old, new)?;
    Ok(is_none(alloc, made.as_bytes()))
}

/// A record whose key is not UTF-8.
const NO_TEXT: &[u8] =
    b"record 2\n1\n1\n\xff\n1\nm\n0\n1\n/\n0\n2\n/z\n2\n/t\n0\n\n0\n0\n0\n0\n\n0\n\nend\n";

/// Texts that may be anywhere in a record.
static TEXTS: &[&str] = &[
    "",
    "a",
    "-C",
    "0",
    "\n",
    "end\n",
    "1\na\n",
    "\u{e9}\u{1f600}",
    "a b\0c",
];

/// Normalised paths.
static PATHS: &[&str] = &[
    "/",
    "/w",
    "/w/target/debug/a.target.lib",
    "/ \n/\u{e9}",
    "/.../..a",
];

/// Paths inside a folder.
static NAMES: &[&str] = &["a", "a/b", "lib a.rlib", "\u{e9}/\n", "..."];

/// Names in byte order.
static SORTED: &[&str] = &["", "A", "AB", "B", "a", "\u{e9}"];

/// Numbers.
static NUMBERS: &[&str] = &["0", "1", "9", "10", "4294967296", "18446744073709551615"];

/// Adds a block.
fn put_block(out: &mut Shown, text: &str) {
    out.put_number(text.len() as u64);
    out.put(&["\n", text, "\n"]);
}

/// Adds a random number of parts, and returns this number.
fn put_count(out: &mut Shown, dice: &mut Dice) -> usize {
    let count = dice.below(4);
    out.put_number(count as u64);
    out.put(&["\n"]);
    count
}

/// Adds a list of blocks.
fn put_blocks(out: &mut Shown, dice: &mut Dice, from: &[&str]) {
    for _ in 0..put_count(out, dice) {
        put_block(out, dice.pick(from));
    }
}

/// Adds a list of files of a folder.
fn put_files(out: &mut Shown, dice: &mut Dice) {
    for _ in 0..put_count(out, dice) {
        put_block(out, dice.pick(NAMES));
        put_block(out, dice.pick(TEXTS));
    }
}

/// Adds some of the variables, sorted by name.
fn put_pairs(out: &mut Shown, dice: &mut Dice) {
    let mut chosen = dice.below(64) as u64;
    out.put_number(chosen.count_ones() as u64);
    out.put(&["\n"]);
    for name in SORTED {
        if chosen % 2 == 1 {
            put_block(out, *name);
            put_block(out, dice.pick(TEXTS));
        }
        chosen /= 2;
    }
}

/// Adds an input.
fn put_input(out: &mut Shown, dice: &mut Dice) {
    match dice.below(4) {
        0 => {
            out.put(&["f\n"]);
            put_block(out, dice.pick(PATHS));
            put_block(out, dice.pick(TEXTS));
        }
        1 => {
            out.put(&["t\n"]);
            put_block(out, dice.pick(PATHS));
            put_files(out, dice);
        }
        2 => {
            out.put(&["v\n"]);
            put_block(out, dice.pick(TEXTS));
            out.put(&["0\n"]);
        }
        _ => {
            out.put(&["v\n"]);
            put_block(out, dice.pick(TEXTS));
            out.put(&["1\n"]);
            put_block(out, dice.pick(TEXTS));
        }
    }
}

/// Adds a list of inputs.
fn put_inputs(out: &mut Shown, dice: &mut Dice) {
    for _ in 0..put_count(out, dice) {
        put_input(out, dice);
    }
}

/// Adds the key and what was requested.
fn put_asked(out: &mut Shown, dice: &mut Dice) {
    put_block(out, dice.pick(TEXTS));
    put_block(out, dice.pick(TEXTS));
    put_blocks(out, dice, TEXTS);
    put_block(out, dice.pick(PATHS));
    put_pairs(out, dice);
    put_block(out, dice.pick(PATHS));
    put_block(out, dice.pick(PATHS));
    put_block(out, dice.pick(TEXTS));
    put_blocks(out, dice, PATHS);
}

/// Adds the needed units, with numbers or with copies.
fn put_needed(out: &mut Shown, dice: &mut Dice, numbered: bool) {
    for _ in 0..put_count(out, dice) {
        put_block(out, dice.pick(TEXTS));
        if numbered {
            out.put(&[dice.pick(NUMBERS), "\n"]);
        } else {
            put_files(out, dice);
        }
    }
}

/// Returns the text of a record made at random.
fn random_record(alloc: Global, dice: &mut Dice) -> Result<String, AllocError> {
    let mut out = Shown::new(alloc);
    let numbered = dice.below(2) == 0;
    if numbered {
        out.put(&["record 2\n", dice.pick(NUMBERS), "\n"]);
    } else {
        out.put(&["record 1\n"]);
    }
    put_asked(&mut out, dice);
    put_inputs(&mut out, dice);
    put_needed(&mut out, dice, numbered);
    put_block(&mut out, dice.pick(TEXTS));
    put_block(&mut out, dice.pick(TEXTS));
    out.put(&["end\n"]);
    out.whole()
}

/// Returns whether such a text is a record.
fn random_is_record(alloc: Global, dice: &mut Dice) -> Result<bool, AllocError> {
    let text = random_record(alloc, dice)?;
    Ok(is_record(alloc, text.as_bytes()))
}

/// Returns whether this number of such texts are records.
fn random_are_records(alloc: Global, count: u64) -> Result<bool, AllocError> {
    let mut dice = Dice { state: 1 };
    for _ in 0..count {
        if !random_is_record(alloc, &mut dice)? {
            return Ok(false);
        }
    }
    Ok(true)
}

/// Returns the text of a record with one file of this number of bytes.
fn large_record(alloc: Global, size: usize) -> Result<Vec<u8>, AllocError> {
    let bytes = vec![in alloc; b'x'; size]?;
    let front = format!(in alloc;
        "record 2\n1\n1\na\n1\nm\n0\n1\n/\n0\n2\n/z\n2\n/t\n0\n\n0\n1\nf\n4\n/w/a\n{size}\n"
    )?;
    let mut made = front.as_bytes().to_vec(alloc)?;
    made.extend_from_slice(bytes.as_slice())?;
    made.extend_from_slice(b"\n0\n0\n\n0\n\nend\n")?;
    Ok(made)
}

/// Returns whether the text of a record with one file of this number of bytes is that of a record.
fn large_is_record(alloc: Global, size: usize) -> Result<bool, AllocError> {
    let text = large_record(alloc, size)?;
    Ok(is_record(alloc, text.as_slice()))
}

/// Rules: `records.text`, `records.inputs`.
#[test]
fn records(rt: HostRuntime) {
    assert!(rt; holds(says_its_parts(rt.alloc())));
    for text in RECORDS {
        let wrong = wrong_with(rt.alloc(), text.as_bytes());
        assert!(rt; wrong.is_empty(), "{wrong}: {text}");
    }
    for case in WRONG {
        let (old, new) = *case;
        assert!(rt; holds(is_none_with(rt.alloc(), old, new)), "{new}");
    }
    assert!(rt; is_none(rt.alloc(), NO_TEXT));
    assert!(rt; holds(random_are_records(rt.alloc(), 200)));
    assert!(rt; holds(large_is_record(rt.alloc(), 4_194_304)));
}
