//! Writes and removals in turn, and variables in order.

use pb_data::{Items, Text};
use pb_place_types::{TextMap, last_word_stands};
use std::alloc::{AllocError, Global};
use std::test::Fail;

/// Writes and removals in turn, and what is read at each path after them.
pub const CHANGES: &str = "write /a one -> done\n\
     write /a/b two -> done\n\
     write /ab three -> done\n\
     write /c four -> done\n\
     remove /a -> done\n\
     write /c five -> done\n\
     read /a -> none\n\
     read /a/b -> none\n\
     read /ab -> three\n\
     read /c -> five";

/// Returns names and values, with a space after each pair.
fn pairs_text(alloc: Global, pairs: &[(Text, Text)]) -> Result<String, AllocError> {
    let mut text = String::new(alloc);
    for (name, value) in pairs {
        text.push_str(name.as_str())?;
        text.push_str("=")?;
        text.push_str(value.as_str())?;
        text.push_str(" ")?;
    }
    Ok(text)
}

/// Names of variables, and the values that are set in turn.
static VARIABLES_IN_ORDER: &[(&str, &str)] = &[
    ("b", "1"),
    ("B", "2"),
    ("", "3"),
    ("ab", "4"),
    ("b", "5"),
    ("c", "6"),
];

/// Sets variables to these values in turn, and removes `c`.
fn give(alloc: Global, variables: &mut TextMap) -> Result<(), AllocError> {
    for case in VARIABLES_IN_ORDER {
        let (name, value) = *case;
        variables.insert(alloc, name, value)?;
    }
    variables.remove(alloc, "c")
}

/// Returns the variables that were set to these values, in their order.
fn pairs(alloc: Global) -> Result<Items<(Text, Text)>, AllocError> {
    let mut variables = TextMap::new(alloc);
    give(alloc, &mut variables)?;
    variables.into_pairs(alloc)
}

/// Returns whether these are all variables, in their order.
fn are(alloc: Global, wanted: &str) -> Result<bool, Fail> {
    let pairs = pairs(alloc)?;
    let told = pairs_text(alloc, pairs.as_slice())?;
    Ok(told.as_str() == wanted)
}

/// Rules: `places.calls`.
#[test]
fn variables_in_order(rt: HostRuntime) -> Result<(), Fail> {
    last_word_stands();
    assert!(rt; are(rt.alloc(), "=3 B=2 ab=4 b=5 ")?);
    Ok(())
}
