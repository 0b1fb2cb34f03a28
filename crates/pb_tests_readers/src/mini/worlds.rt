//! One world of files, variables and pairs, for compiles and runs.

use super::views::Files;
use crate::texts::add_pair;
use pb_data::{Bytes, Items, Text, with_next};
use pb_mini::answer;
use pb_place_types::{Reply, ViewFault};
use pb_tests_files::holds;
use std::alloc::{AllocError, Global};

/// Files by their paths. Each case adds one file before them.
static FILES: &[(&str, &[u8])] = &[
    ("/w/one", b"a\nb"),
    ("/w/two", b"a\nb\n"),
    ("/w/empty", b""),
    ("/w/feeds", b"\n\n"),
    ("/w/sub/x", b"sub x\n"),
    ("/w/a b", b"spaced\n"),
    ("/w/cr", b"c\r\n"),
    ("/w/raw", b"\xff\nr\n"),
    ("/w/x$VAR", b"dollar\n"),
    ("/v/x", b"v x\n"),
    ("/l/q", b"mini lib q\nprint q\n"),
    ("/l/p", b"p"),
    ("/l/a=b", b"e\n"),
    ("/i", b"print x"),
    ("/s  t", b"print x"),
    ("/w/c\\d.rs", b"print x"),
];

/// Inherited variables.
static VARIABLES: &[(&str, &str)] = &[
    ("VAR", "/v"),
    ("SUB", "sub"),
    ("EMPTY", ""),
    ("FEED", "x\ny"),
    ("BOTH", "inherited"),
    ("PLACE", "w"),
];

/// Pairs.
static PAIRS: &[(&str, &str)] = &[
    ("PAIR", "p"),
    ("BOTH", "composed"),
    ("DUP", "first"),
    ("DUP", "last"),
    ("ROOT", "/v"),
    ("CARGO_MANIFEST_DIR", "/w"),
];

/// Returns the words between the bars of a text; the empty text has none.
pub fn words_of(alloc: Global, text: &str) -> Result<Items<Text>, AllocError> {
    let mut words = Items::new(alloc);
    if text.is_empty() {
        return Ok(words);
    }
    for word in text.split('|') {
        words.push(Text::from_str(alloc, word)?)?;
    }
    Ok(words)
}

/// Adds a file.
fn add_file(
    alloc: Global,
    inside: &mut Items<(Text, Bytes)>,
    path: &str,
    bytes: &[u8],
) -> Result<(), AllocError> {
    let path = Text::from_str(alloc, path)?;
    let bytes = Bytes::from_slice(alloc, bytes)?;
    inside.push((path, bytes))
}

/// Returns one file, and after it the files of the world.
fn files(alloc: Global, path: &str, bytes: &[u8]) -> Result<Items<(Text, Bytes)>, AllocError> {
    let mut inside = Items::new(alloc);
    add_file(alloc, &mut inside, path, bytes)?;
    for file in FILES {
        add_file(alloc, &mut inside, file.0, file.1)?;
    }
    Ok(inside)
}

/// Returns the world with one file more.
pub fn world(alloc: Global, path: &str, bytes: &[u8]) -> Result<Files, AllocError> {
    let inside = files(alloc, path, bytes)?;
    let (inside, variables) = with_next(inside, texts(alloc, VARIABLES))?;
    Ok(Files { inside, variables })
}

/// Returns names and values as texts.
fn texts(alloc: Global, entries: &[(&str, &str)]) -> Result<Items<(Text, Text)>, AllocError> {
    let mut made = Items::new(alloc);
    for entry in entries {
        add_pair(alloc, &mut made, entry.0, entry.1)?;
    }
    Ok(made)
}

/// Returns the answer to words in the world with one file more.
pub fn answer_in(alloc: Global, words: &str, path: &str, bytes: &[u8]) -> Result<Reply, ViewFault> {
    let words = words_of(alloc, words)?;
    let asked = with_next(words, texts(alloc, PAIRS))?;
    let ((words, pairs), view) = with_next(asked, world(alloc, path, bytes))?;
    let answer = answer(alloc, words.as_slice(), pairs.as_slice(), &view);
    drop(view);
    answer
}

/// Returns the files of a reply: of each its name, `=`, its bytes and a bar.
fn files_text(alloc: Global, reply: &Reply) -> Result<Vec<u8>, AllocError> {
    let mut text = Vec::new(alloc);
    for file in reply.files.as_slice() {
        text.extend_from_slice(file.0.as_str().as_bytes())?;
        text.extend_from_slice(b"=")?;
        text.extend_from_slice(file.1.as_slice())?;
        text.extend_from_slice(b"|")?;
    }
    Ok(text)
}

/// Returns whether a reply has these files, as `files_text` writes them.
fn has_files(alloc: Global, reply: &Reply, files: &[u8]) -> Result<bool, AllocError> {
    let found = files_text(alloc, reply)?;
    Ok(found.as_slice() == files)
}

/// Returns whether a reply has this; the files as `files_text` writes them.
fn has(
    alloc: Global,
    reply: &Reply,
    status: i32,
    stdout: &[u8],
    stderr: &[u8],
    files: &[u8],
) -> bool {
    reply.status == status
        && reply.stdout.as_slice() == stdout
        && reply.stderr.as_slice() == stderr
        && holds(has_files(alloc, reply, files))
}

/// Returns whether a reply came, and has this; the files as `files_text` writes them.
pub fn answers(
    alloc: Global,
    reply: Result<Reply, ViewFault>,
    status: i32,
    stdout: &[u8],
    stderr: &[u8],
    files: &[u8],
) -> bool {
    match reply {
        Ok(reply) => {
            let has = has(alloc, &reply, status, stdout, stderr, files);
            drop(reply);
            has
        }
        Err(_) => false,
    }
}

/// Words of a compile of `/w/s`, with a bar between them.
pub const WORDS: &str =
    "--crate-name|c|--crate-type|lib|--out-dir|/o|--cfg|on|--cfg|feature=\"f\"|--cfg||--extern|q=/l/q|--extern|q=/l/p|--extern|gone=/l/gone|--extern|bare|--extern|bare=/l/p|--extern|rel=l/q|--extern|=/l/p|--extern|eq=/l/a=b|/w/s";

/// A source or an image, the status of its compile or run, what the compile or run prints, and its
/// files. Most cases are lines, with `@` between these parts and `~` for each line feed.
pub type Case<'a> = (&'a [u8], i32, &'a [u8], &'a [u8]);

/// Returns the text of a line.
pub fn text_of(alloc: Global, line: &str) -> Result<String, AllocError> {
    line.replace(alloc, "~", "\n")
}

/// Returns the case in such a text.
pub fn case_of(text: &str) -> Case {
    let mut parts = text.split('@');
    (
        parts.next().unwrap_or("").as_bytes(),
        parts.next().unwrap_or("").parse::<i32>().unwrap_or(-1),
        parts.next().unwrap_or("").as_bytes(),
        parts.next().unwrap_or("").as_bytes(),
    )
}
