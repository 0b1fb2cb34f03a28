//! Puts texts together from parts.

ghost use Rattle.std.specs.Prelude.{◌≡◌, ◌++◌, map, IfOk, string_bytes};
ghost use Rattle.std.specs.List.{concat};

use std::alloc::{AllocError, Global};

/// Returns the concatenation of texts.
pub(crate) fn join_texts(alloc: Global, parts: &[&str]) -> Result<String, AllocError>
    ensures { IfOk result (λ text. string_bytes text ≡ concat (map (λ part. part.now) parts.now)) }
{
    let mut text = String::new(alloc);
    for part in parts {
        text.push_str(*part)?;
    }
    Ok(text)
}

/// Returns a text, put between two other texts.
pub(crate) fn between(
    alloc: Global,
    before: &str,
    text: &str,
    after: &str,
) -> Result<String, AllocError>
    ensures { IfOk result (λ whole. string_bytes whole ≡ before.now ++ text.now ++ after.now) }
{
    let mut whole = String::from_str(alloc, before)?;
    whole.push_str(text)?;
    whole.push_str(after)?;
    Ok(whole)
}

/// Returns a sentence about a failure: a name between two texts, and then the reason.
pub(crate) fn because(
    alloc: Global,
    before: &str,
    name: &str,
    after: &str,
    why: &str,
) -> Result<String, AllocError>
    ensures { IfOk result (λ whole. string_bytes whole
        ≡ before.now ++ name.now ++ after.now ++ why.now) }
{
    let mut whole = between(alloc, before, name, after)?;
    whole.push_str(why)?;
    Ok(whole)
}
