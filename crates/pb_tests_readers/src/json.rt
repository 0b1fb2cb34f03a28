//! JSON strings, against worked examples.

use pb_json::json_string;
use pb_tests_files::is_said;

/// Texts, and each as a JSON string.
static STRINGS: &[(&str, &str)] = &[
    ("", r#""""#),
    ("a b/c", r#""a b/c""#),
    ("\"\\", r#""\"\\""#),
    ("\n\r\t\u{8}\u{c}", r#""\n\r\t\b\f""#),
    ("\0\u{1}\u{1f}", r#""\u0000\u0001\u001f""#),
    (
        "\u{7f}\u{e9}\u{2028}\u{1f600}",
        "\"\u{7f}\u{e9}\u{2028}\u{1f600}\"",
    ),
];

/// Rules: `messages.lines`.
#[test]
fn strings(rt: HostRuntime) {
    for case in STRINGS {
        let (text, wanted) = *case;
        assert!(rt; is_said(json_string(rt.alloc(), text), wanted), "{wanted}");
    }
}
