//! The letters of names.

ghost use Rattle.std.specs.Prelude.{◌≡◌};
ghost use Rattle.std.specs.List.{list_all};
ghost use Rattle.pb_manifest_types.specs.Letters.{is_name_byte, is_name, is_crate_name_byte, is_crate_name, is_feature_byte, is_feature_name, has_zero};

/// Returns whether a byte is allowed in a package's name.
#[tactic(auto, unfolding(crate::specs::Letters::is_name_byte))]
fn is_name_byte(byte: u8) -> bool
    ensures { result ≡ is_name_byte byte }
{
    byte.is_ascii_alphanumeric() || byte == b'-' || byte == b'_'
}

/// Returns whether a byte is allowed in a crate's name.
#[tactic(auto, unfolding(crate::specs::Letters::is_crate_name_byte))]
fn is_crate_name_byte(byte: u8) -> bool
    ensures { result ≡ is_crate_name_byte byte }
{
    byte.is_ascii_alphanumeric() || byte == b'_'
}

/// Returns whether a byte is allowed in a feature's name after the first byte.
#[tactic(auto, unfolding(crate::specs::Letters::is_feature_byte))]
fn is_feature_byte(byte: u8) -> bool
    ensures { result ≡ is_feature_byte byte }
{
    byte.is_ascii_alphanumeric() || matches!(byte, b'_' | b'-' | b'+' | b'.')
}

fn are_name_bytes(bytes: &[u8]) -> bool
    ensures { result ≡ list_all is_name_byte bytes.now }
{
    bytes.iter().all(|byte| is_name_byte(*byte))
}

fn are_crate_name_bytes(bytes: &[u8]) -> bool
    ensures { result ≡ list_all is_crate_name_byte bytes.now }
{
    bytes.iter().all(|byte| is_crate_name_byte(*byte))
}

fn are_feature_bytes(bytes: &[u8]) -> bool
    ensures { result ≡ list_all is_feature_byte bytes.now }
{
    bytes.iter().all(|byte| is_feature_byte(*byte))
}

/// Returns whether a text may be a package's name: ASCII letters, digits, `-` and `_`, not empty.
#[tactic(auto, unfolding(crate::specs::Letters::is_name))]
pub fn is_name(text: &str) -> bool
    ensures { result ≡ is_name text.now }
{
    !text.is_empty() && are_name_bytes(text.as_bytes())
}

/// Returns whether a text may be a crate's name: ASCII letters, digits and `_`, not empty.
#[tactic(auto, unfolding(crate::specs::Letters::is_crate_name))]
pub fn is_crate_name(text: &str) -> bool
    ensures { result ≡ is_crate_name text.now }
{
    !text.is_empty() && are_crate_name_bytes(text.as_bytes())
}

/// Returns whether a text may be a feature's name. The text has ASCII letters, digits and `_`, and
/// after the first byte also `-`, `+` and `.`. It is not empty.
#[tactic(auto, unfolding(crate::specs::Letters::is_feature_name))]
pub fn is_feature_name(text: &str) -> bool
    ensures { result ≡ is_feature_name text.now }
{
    match text.as_bytes() {
        [] => false,
        [first, rest @ ..] => is_crate_name_byte(*first) && are_feature_bytes(rest),
    }
}

/// Returns whether a text contains byte 0.
#[tactic(auto, unfolding(crate::specs::Letters::has_zero))]
pub fn has_zero(text: &str) -> bool
    ensures { result ≡ has_zero text.now }
{
    text.as_bytes().iter().any(|byte| *byte == 0)
}
