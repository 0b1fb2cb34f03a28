//! JSON texts as `serde_json` writes them.
#![tactic(auto)]

ghost use Rattle.std.specs.Prelude.{◌≡◌, IfOk, string_bytes};
ghost use Rattle.pb_json.specs.Json.{json_string};

use serde_json::Value;
use std::alloc::{AllocError, Global};

/// Returns a text as a JSON string, with its quotes and escapes, as `serde_json` writes it.
///
/// Errors: out of memory only.
pub fn json_string(alloc: Global, text: &str) -> Result<String, AllocError>
    ensures { IfOk result (λ json. string_bytes json ≡ json_string text.now) }
{
    let value = Value::String(String::from_str(alloc, text)?);
    value.to_string(alloc)
}
