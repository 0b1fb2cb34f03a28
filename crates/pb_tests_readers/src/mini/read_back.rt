//! What the small compiler reports about its files and variables, read as the builder reads it.

use super::worlds::answer_in;
use crate::directives::is_modelled;
use pb_place_types::{Reply, ViewFault};
use pb_tests_files::holds;
use std::alloc::Global;

/// Words of a compile into a folder whose name needs care.
const WORDS: &str = "--crate-name|c|--crate-type|lib|--out-dir|/o: p/q #$|--cfg|x|/w/s";

/// A source, and what its dep-info names: the paths and then the variables, each with `;` after it;
/// or the line that no reader accepts.
static SOURCES: &[(&[u8], &str)] = &[
    (b"print x", "/w/s; "),
    (b"include a b", "/w/s;/w/a b; "),
    (b"include /w/a: b", "/w/s;/w/a: b; "),
    (b"include a:", "/w/s;/w/a:; "),
    (b"include a\\b", "/w/s;/w/a\\b; "),
    (b"include a\\ b", "/w/s;/w/a\\ b; "),
    (b"include a\\\\  b", "/w/s;/w/a\\\\  b; "),
    (b"include a\tb", "/w/s;/w/a\tb; "),
    (b"include #a", "/w/s;/w/#a; "),
    (b"include # env-dep:X", "/w/s;/w/# env-dep:X; "),
    (b"include $VAR/x y", "/w/s;/v/x y; VAR;"),
    (b"include $PLACE/$: x", "/w/s;/w/w/$: x; PLACE;"),
    (b"include a\rb", "/w/s;/w/a\rb; "),
    (
        b"include one\ninclude two\ninclude one\ninclude a b",
        "/w/s;/w/one;/w/two;/w/a b; ",
    ),
    (
        b"env VAR\nenv NONE\nenv VAR\nenv EMPTY\nenv A B\nenv #",
        "/w/s; VAR;NONE;EMPTY;A B;#;",
    ),
    (
        b"include $VAR/x\nenv a: b\nenv a\\b\nenv a\tb",
        "/w/s;/v/x; VAR;a: b;a\\b;a\tb;",
    ),
    // A nameless variable, and a value with a line feed.
    (b"env", "BadValue 2"),
    (b"include $/x", "BadValue 2"),
    (b"env FEED", "BadValue 3"),
];

/// Returns whether this is read in a reply's last file, which is its dep-info.
fn has_told(alloc: Global, reply: &Reply, wanted: &str) -> bool {
    match reply.files.as_slice().last() {
        Some(file) => file.0.as_str() == "c.d" && is_modelled(alloc, file.1.as_slice(), wanted),
        None => false,
    }
}

/// Returns whether this is read in the dep-info of a source.
fn is_read(alloc: Global, source: &[u8], wanted: &str) -> Result<bool, ViewFault> {
    let reply = answer_in(alloc, WORDS, "/w/s", source)?;
    let has_told = has_told(alloc, &reply, wanted);
    drop(reply);
    Ok(has_told)
}

/// Rules: `mini.language`.
#[test]
fn names_are_read_back(rt: HostRuntime) {
    for case in SOURCES {
        let (source, wanted) = *case;
        assert!(rt; holds(is_read(rt.alloc(), source, wanted)), "of {wanted}");
    }
}
