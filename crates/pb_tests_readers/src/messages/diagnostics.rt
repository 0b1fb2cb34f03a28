//! Diagnostics, taken from a standard error.

use pb_message::diagnostics;
use pb_tests_files::{Shown, holds};
use std::alloc::{AllocError, Global};

/// Returns whether these are the diagnostics of a standard error, each with `;` after it.
fn finds(alloc: Global, stderr: &[u8], wanted: &str) -> Result<bool, AllocError> {
    let found = diagnostics(alloc, stderr)?;
    let mut all = Shown::new(alloc);
    all.put_each("", found.as_slice(), ";");
    Ok(all.says(wanted))
}

/// The bytes of standard error, and the diagnostics in them, each with `;` after it.
static OBJECTS_ALONE: &[(&[u8], &str)] = &[
    (b"", ""),
    (b"{}", "{};"),
    (b"{}\n", "{};"),
    (
        br#"{}

{"a":1}"#,
        r#"{};{"a":1};"#,
    ),
    (b" \t{ }\r\n", "{ };"),
    (b"[]\nnull\n1\n\"{}\"\ntrue", ""),
    (
        br#"error: no
{"b":[]}
more"#,
        r#"{"b":[]};"#,
    ),
    (
        br#"{"a":}
{"a" : 1 }"#,
        r#"{"a" : 1 };"#,
    ),
    (b"{} {}", ""),
    (
        br#"{"a":
1}"#,
        "",
    ),
    (b"{\"a\":\"\xff\"}\n{}", "{};"),
];

/// Rules: `messages.diagnostics`.
#[test]
fn objects_alone(rt: HostRuntime) {
    for (place, case) in OBJECTS_ALONE.iter().enumerate() {
        let (stderr, wanted) = *case;
        assert!(rt;
            holds(finds(rt.alloc(), stderr, wanted)),
            "case {place}: {wanted}"
        );
    }
}
