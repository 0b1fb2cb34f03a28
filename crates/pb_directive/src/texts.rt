//! Reads parts of one line: bytes as a text, what follows a prefix, and the texts around `=`.

ghost use Rattle.std.specs.Prelude.{◌≡◌, codes};
ghost use Rattle.std.specs.Option.{option_copied, option_map};
ghost use Rattle.pb_directive.specs.Lines.{text_of, has_byte, after_prefix, split_first};

/// Returns bytes as a text, if the bytes are UTF-8.
#[tactic(auto, using(crate::proofs::TextLemmas::text_laws))]
pub fn text_of(bytes: &[u8]) -> Option<&str>
    ensures { option_copied result ≡ text_of bytes.now }
{
    match std::str::from_utf8(bytes) {
        Ok(text) => Some(text),
        Err(_) => None,
    }
}

/// Returns whether a text has byte 0.
pub fn has_nul(text: &str) -> bool
    ensures { result ≡ has_byte 0 text.now }
{
    text.as_bytes().contains(&0)
}

/// Returns what follows a prefix, if the text begins with the prefix.
pub fn after_prefix<'a>(prefix: &str, text: &'a str) -> Option<&'a str>
    ensures { option_copied result ≡ after_prefix prefix.now text.now }
{
    text.strip_prefix(prefix)
}

/// Returns the texts before and after the first `=`, if there is a `=`.
pub fn split_at_equals(text: &str) -> Option<(&str, &str)>
    ensures { option_map (λ p. (p.0.now, p.1.now)) result ≡ split_first 61 text.now }
{
    text.split_once('=')
}
