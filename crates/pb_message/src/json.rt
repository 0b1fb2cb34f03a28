//! Values in JSON, without spaces outside strings, appended to a text.

ghost use Rattle.std.specs.Prelude.{◌≡◌, ◌++◌, IfOk, OnOk, map, string_bytes};
ghost use Rattle.std.specs.List.{concat};
ghost use Rattle.pb_json.specs.Json.{json_string};
ghost use Rattle.pb_message.specs.Json.{after_commas, json_texts, json_pair, json_pairs};

use pb_data::Text;
use pb_json::json_string;
use std::alloc::{AllocError, Global};

/// Adds texts, one after another.
pub(crate) fn push_all(out: &mut String, parts: &[&str]) -> Result<(), AllocError>
    ensures { OnOk result (string_bytes out.new ≡ string_bytes out.old
        ++ concat (map (λ part. part.now) parts.now)) }
{
    for part in parts {
        out.push_str(*part)?;
    }
    Ok(())
}

/// Returns the concatenation of texts.
pub(crate) fn join_texts(alloc: Global, parts: &[&str]) -> Result<String, AllocError>
    ensures { IfOk result (λ text. string_bytes text ≡ concat (map (λ part. part.now) parts.now)) }
{
    let mut text = String::new(alloc);
    push_all(&mut text, parts)?;
    Ok(text)
}

/// Adds a string.
fn push_text(alloc: Global, out: &mut String, text: &str) -> Result<(), AllocError>
    ensures { OnOk result (string_bytes out.new ≡ string_bytes out.old ++ json_string text.now) }
{
    out.push_str(json_string(alloc, text)?.as_str())?;
    Ok(())
}

/// Adds strings, each after a comma.
fn push_more_texts(alloc: Global, out: &mut String, texts: &[Text]) -> Result<(), AllocError>
    ensures { OnOk result (string_bytes out.new ≡ string_bytes out.old
        ++ after_commas (map json_string texts.now)) }
{
    for text in texts {
        out.push_str(",")?;
        push_text(alloc, out, text.as_str())?;
    }
    Ok(())
}

/// Returns a list of strings.
pub(crate) fn json_texts(alloc: Global, texts: &[Text]) -> Result<String, AllocError>
    ensures { IfOk result (λ json. string_bytes json ≡ json_texts texts.now) }
{
    let (first, rest) = match texts {
        [] => return String::from_str(alloc, "[]"),
        [first, rest @ ..] => (first, rest),
    };
    let mut json = String::from_str(alloc, "[")?;
    push_text(alloc, &mut json, first.as_str())?;
    push_more_texts(alloc, &mut json, rest)?;
    json.push_str("]")?;
    Ok(json)
}

/// Adds `["NAME","VALUE"]`.
fn push_pair(alloc: Global, out: &mut String, pair: &(Text, Text)) -> Result<(), AllocError>
    ensures { OnOk result (string_bytes out.new ≡ string_bytes out.old ++ json_pair pair.now) }
{
    out.push_str("[")?;
    push_text(alloc, out, pair.0.as_str())?;
    out.push_str(",")?;
    push_text(alloc, out, pair.1.as_str())?;
    out.push_str("]")?;
    Ok(())
}

/// Adds pairs, each after a comma.
fn push_more_pairs(
    alloc: Global,
    out: &mut String,
    pairs: &[(Text, Text)],
) -> Result<(), AllocError>
    ensures { OnOk result (string_bytes out.new ≡ string_bytes out.old
        ++ after_commas (map json_pair pairs.now)) }
{
    for pair in pairs {
        out.push_str(",")?;
        push_pair(alloc, out, pair)?;
    }
    Ok(())
}

/// Returns a list of pairs.
pub(crate) fn json_pairs(alloc: Global, pairs: &[(Text, Text)]) -> Result<String, AllocError>
    ensures { IfOk result (λ json. string_bytes json ≡ json_pairs pairs.now) }
{
    let (first, rest) = match pairs {
        [] => return String::from_str(alloc, "[]"),
        [first, rest @ ..] => (first, rest),
    };
    let mut json = String::from_str(alloc, "[")?;
    push_pair(alloc, &mut json, first)?;
    push_more_pairs(alloc, &mut json, rest)?;
    json.push_str("]")?;
    Ok(json)
}
