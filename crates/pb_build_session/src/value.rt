//! What the JSON values of a session mean.

ghost use Rattle.std.specs.Prelude.{◌≡◌, option_map, Ok, Err, IfOk, IfErr, ℕ, List};
ghost use Rattle.pb_data.specs.UnlessOom.{lifted};
ghost use Rattle.pb_place_types.specs.Paths.{parsed};
ghost use Rattle.serde_json.specs.View.{view, items_view, members_view};
ghost use Rattle.pb_build_session.specs.Faults.{UnlessOom, of_path_fault};
ghost use Rattle.pb_build_session.specs.Values.{text_of, number_of, path_in, path_of, pair_of, pair_in, array_of, only_member};

use crate::fault::BadSession;
use pb_data::Text;
use pb_place_types::PathText;
use serde_json::{Map, Value};
use std::alloc::Global;

/// Returns a text.
pub(crate) fn text_of(alloc: Global, value: &Value) -> Result<Text, BadSession>
    ensures { UnlessOom result (text_of (view value.now)) }
{
    match value.as_str() {
        Some(text) => {
            let text = Text::from_str(alloc, text)?;
            Ok(text)
        }
        None => Err(BadSession::BadForm),
    }
}

/// Returns the number that a numeral of digits denotes, up to 18446744073709551615. `serde_json`
/// has another kind of number for greater numbers, and for numerals with a sign, a point or an
/// exponent (`-0`, `1.0`, `1e1`). Such numbers are refused.
pub(crate) fn number_of(value: &Value) -> Result<u64, BadSession>
    ensures { UnlessOom result (number_of (view value.now)) }
{
    match value.as_u64() {
        Some(number) => Ok(number),
        None => Err(BadSession::BadForm),
    }
}

/// Returns the path in a text.
pub(crate) fn path_in(alloc: Global, text: &str) -> Result<PathText, BadSession>
    ensures { UnlessOom result (path_in text.now) }
{
    let path = PathText::parse(alloc, text)?;
    Ok(path)
}

/// Returns a path.
pub(crate) fn path_of(alloc: Global, value: &Value) -> Result<PathText, BadSession>
    ensures { UnlessOom result (path_of (view value.now)) }
{
    let text = text_of(alloc, value)?;
    let path = path_in(alloc, text.as_str())?;
    Ok(path)
}

/// Returns a list.
pub(crate) fn array_of(value: &Value) -> Result<&[Value], BadSession>
    ensures ok { IfOk result (λ a. array_of (view value.now) ≡ Ok (items_view a.now)) }
    ensures err { IfErr result (λ e. array_of (view value.now) ≡ Err e) }
{
    match value.as_array() {
        Some(array) => Ok(array.as_slice()),
        None => Err(BadSession::BadForm),
    }
}

/// Returns the two texts of a list of two.
#[tactic(auto, using(crate::proofs::Pairs::pair_laws))]
fn pair_in(alloc: Global, values: &[Value]) -> Result<(Text, Text), BadSession>
    ensures { UnlessOom result (pair_in (items_view values.now)) }
{
    match values {
        [first, second] => {
            let first = text_of(alloc, first)?;
            let second = text_of(alloc, second)?;
            Ok((first, second))
        }
        _ => Err(BadSession::BadForm),
    }
}

/// Returns a list of two texts.
pub(crate) fn pair_of(alloc: Global, value: &Value) -> Result<(Text, Text), BadSession>
    ensures { UnlessOom result (pair_of (view value.now)) }
{
    let pair = pair_in(alloc, array_of(value)?)?;
    Ok(pair)
}

/// Returns the member of an object with exactly one member.
pub(crate) fn only_member(map: &Map<String, Value>) -> Option<(&str, &Value)>
    ensures { option_map (λ m. (m.0.now, view m.1.now)) result
        ≡ only_member (members_view map.now.entries) }
{
    let mut members = map.iter();
    let (name, value) = members.next()?;
    match members.next() {
        None => Some((name.as_str(), value)),
        Some(_) => None,
    }
}
