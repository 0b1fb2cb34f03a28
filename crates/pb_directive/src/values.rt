//! Reads the value of a key, in each of the forms that keys require.

ghost use Rattle.pb_directive.specs.Faults.{LineGives};
ghost use Rattle.pb_directive.specs.Directives.{plain, filled, variable, halves, named_value};

use crate::fault::Problem;
use crate::texts::{has_nul, split_at_equals};
use pb_data::Text;
use std::alloc::Global;

/// Returns a value as a text, if the value does not contain byte 0.
pub fn plain(alloc: Global, value: &str) -> Result<Text, Problem>
    ensures { LineGives result (plain value.now) }
{
    if has_nul(value) {
        return Err(Problem::BadValue);
    }
    Ok(Text::from_str(alloc, value)?)
}

/// Returns a value as a text, if the value is not empty and does not contain byte 0.
pub fn unless_empty(alloc: Global, value: &str) -> Result<Text, Problem>
    ensures { LineGives result (filled value.now) }
{
    if value.is_empty() {
        return Err(Problem::BadValue);
    }
    let text = plain(alloc, value)?;
    Ok(text)
}

/// Returns a value as the name of a variable, if the value is not empty and contains neither `=`
/// nor byte 0.
pub fn variable(alloc: Global, value: &str) -> Result<Text, Problem>
    ensures { LineGives result (variable value.now) }
{
    if value.as_bytes().contains(&b'=') {
        return Err(Problem::BadValue);
    }
    let name = unless_empty(alloc, value)?;
    Ok(name)
}

/// Returns the texts before and after the first `=` of a value, if the value contains `=` and does
/// not contain byte 0.
pub fn halves(alloc: Global, value: &str) -> Result<(Text, Text), Problem>
    ensures { LineGives result (halves value.now) }
{
    if has_nul(value) {
        return Err(Problem::BadValue);
    }
    match split_at_equals(value) {
        None => Err(Problem::BadValue),
        Some((name, rest)) => {
            let name = Text::from_str(alloc, name)?;
            let rest = Text::from_str(alloc, rest)?;
            Ok((name, rest))
        }
    }
}

/// Returns NAME and VALUE of a value `NAME=VALUE`, if NAME is not empty and the value does not
/// contain byte 0.
pub fn named_value(alloc: Global, value: &str) -> Result<(Text, Text), Problem>
    ensures { LineGives result (named_value value.now) }
{
    let (name, rest) = halves(alloc, value)?;
    if name.as_str().is_empty() {
        return Err(Problem::BadValue);
    }
    Ok((name, rest))
}
