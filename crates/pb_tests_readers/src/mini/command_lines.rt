//! Command lines that request a compile or a run, and command lines that request neither.

use super::worlds::{answer_in, answers};
use std::alloc::Global;

/// The words, the status, the two streams, and the files.
type Case = (
    &'static str,
    i32,
    &'static [u8],
    &'static [u8],
    &'static [u8],
);

/// Arguments, and the replies to them. Each source and image is `print x`.
static COMMAND_LINES: &[Case] = &[
    ("-vV", 0, b"mini 0.1.0\nhost: mini-unknown-none\n", b"", b""),
    (
        "--crate-name|a|--crate-type|lib|--out-dir|/o|/s",
        0,
        b"",
        b"",
        b"liba.rlib=mini lib a\nprint x\n|a.d=/o/liba.rlib: /s\n|",
    ),
    (
        "/s|--out-dir|/o/./p/..|--crate-type|bin|--crate-type|lib|--crate-name|a",
        0,
        b"",
        b"",
        b"a=mini bin a\nprint x\n|a.d=/o/a: /s\n|",
    ),
    (
        "--crate-name|a_b|--crate-type|rlib|--crate-type|bin|--out-dir|/o p|/q/../s  t",
        0,
        b"",
        b"",
        b"liba_b.rlib=mini lib a_b\nprint x\n|a_b.d=/o\\ p/liba_b.rlib: /s\\ \\ t\n|",
    ),
    (
        "--crate-name|--emit=|--crate-type|-C|--out-dir|/|/s",
        0,
        b"",
        b"",
        b"lib--emit=.rlib=mini lib --emit=\nprint x\n|--emit=.d=/lib--emit=.rlib: /s\n|",
    ),
    (
        "-C|n|--cfg|x|--check-cfg|y|--extern|z|-L|l|-l|m|--emit=|--error-format=|--crate-name|a|--crate-type|lib|--out-dir|/o|/s",
        0,
        b"",
        b"",
        b"liba.rlib=mini lib a\nprint x\n|a.d=/o/liba.rlib: /s\n|",
    ),
    (
        "--crate-name|d/a|--crate-type|bin|--out-dir|/o|/s",
        0,
        b"",
        b"",
        b"d/a=mini bin d/a\nprint x\n|d/a.d=/o/d/a: /s\n|",
    ),
    (
        "--crate-name|c: d|--crate-type|bin|--out-dir|/o p|/w/c\\d.rs",
        0,
        b"",
        b"",
        b"c: d=mini bin c: d\nprint x\n|c: d.d=/o\\ p/c:\\ d: /w/c\\d.rs\n|",
    ),
    // No source.
    (
        "--crate-name|a|--crate-type|lib|--out-dir|/o|/t",
        1,
        b"",
        br#"{"level":"error","message":"no source","line":0}
"#,
        b"a.d=/o/liba.rlib: /t\n|",
    ),
    (
        "--crate-name|a|--crate-type|lib|--out-dir|/o|s",
        1,
        b"",
        br#"{"level":"error","message":"no source","line":0}
"#,
        b"a.d=/o/liba.rlib:\n|",
    ),
    (
        "--crate-name|a|--crate-type|lib|--out-dir|/o|/s\0",
        1,
        b"",
        br#"{"level":"error","message":"no source","line":0}
"#,
        b"a.d=/o/liba.rlib:\n|",
    ),
];

/// Arguments that request neither a compile nor a run, one command line on each line.
const BAD_WORDS: &str = "\n\
     -vV|-vV\n\
     --version\n\
     -vV|--crate-name|a|--crate-type|lib|--out-dir|/o|/s\n\
     --crate-type|lib|--out-dir|/o|/s\n\
     --crate-name|a|--out-dir|/o|/s\n\
     --crate-name|a|--crate-type|lib|/s\n\
     --crate-name|a|--crate-type|lib|--out-dir|/o\n\
     --crate-name|a|--crate-name|a|--crate-type|lib|--out-dir|/o|/s\n\
     --crate-name|a|--crate-type|lib|--out-dir|/o|--out-dir|/o|/s\n\
     --crate-name|a|--crate-type|lib|--out-dir|/o|/s|/s\n\
     --crate-name|a|--crate-type|lib|--out-dir|/o|/s|-O\n\
     --crate-name|a|--crate-type|lib|--out-dir|/o|/s|--edition|2021\n\
     --crate-name|a|--crate-type|lib|--out-dir|/o|/s|--emit\n\
     --crate-name|a|--crate-type|lib|--out-dir|/o|/s|--error-format\n\
     --crate-name=a|--crate-type|lib|--out-dir|/o|/s\n\
     --crate-name|a|--crate-type|lib|--out-dir|/o|/s|\n\
     --crate-name|a|--crate-type|lib|--out-dir|/o|/s|--crate-name\n\
     --crate-name|a|--crate-type|lib|--out-dir|/o|/s|--crate-type\n\
     --crate-name|a|--crate-type|lib|--out-dir|/o|/s|--out-dir\n\
     --crate-name|a|--crate-type|lib|--out-dir|/o|/s|-C\n\
     --crate-name|a|--crate-type|lib|--out-dir|/o|/s|--cfg\n\
     --crate-name|a|--crate-type|lib|--out-dir|/o|/s|--check-cfg\n\
     --crate-name|a|--crate-type|lib|--out-dir|/o|/s|--extern\n\
     --crate-name|a|--crate-type|lib|--out-dir|/o|/s|-L\n\
     --crate-name|a|--crate-type|lib|--out-dir|/o|/s|-l\n\
     --crate-name|a|--crate-type|lib|--out-dir|o|/s\n\
     --crate-name|a|--crate-type|lib|--out-dir|/o\0|/s\n\
     --crate-name||--crate-type|bin|--out-dir|/o|/s\n\
     --crate-name|../a|--crate-type|bin|--out-dir|/o|/s\n\
     --crate-name|a\0|--crate-type|lib|--out-dir|/o|/s\n\
     --run\n\
     --run|/i|x\n\
     /i|--run\n\
     --run=/i";

/// Words that name no image.
const NO_IMAGES: &str = "--run|/none\n\
     --run|i\n\
     --run|\n\
     --run|/i\0";

/// Returns whether words are refused with this on standard error.
fn is_refused(alloc: Global, words: &str, stderr: &[u8]) -> bool {
    let reply = answer_in(alloc, words, "/s", b"print x");
    answers(alloc, reply, 2, b"", stderr, b"")
}

/// Returns whether the reply to arguments is the one of the case.
fn is_right(alloc: Global, case: &Case) -> bool {
    let (words, status, stdout, stderr, files) = *case;
    let reply = answer_in(alloc, words, "/s", b"print x");
    answers(alloc, reply, status, stdout, stderr, files)
}

/// Rules: `mini.program`.
#[test]
fn command_lines(rt: HostRuntime) {
    for case in COMMAND_LINES {
        assert!(rt; is_right(rt.alloc(), case), "of {}", case.0);
    }
    for words in BAD_WORDS.lines() {
        assert!(rt;
            is_refused(rt.alloc(), words, b"mini: bad command line\n"),
            "of {words}"
        );
    }
    for words in NO_IMAGES.lines() {
        assert!(rt;
            is_refused(rt.alloc(), words, b"mini: no image\n"),
            "of {words}"
        );
    }
}
