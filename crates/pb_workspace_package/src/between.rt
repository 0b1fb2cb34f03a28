//! The path from one folder to another path, as a text of names.

ghost use Rattle.std.specs.Prelude.{◌≡◌, ◌++◌, ◌==◌, IfOk, OnOk, codes, map, replicate, filter, string_bytes};
ghost use Rattle.std.specs.List.{slice_split};
ghost use Rattle.pb_place_types.specs.Paths.{slashed};
ghost use Rattle.pb_workspace_package.specs.Between.{is_word, names_in, upward, steps_between, spelled, text_between};

use pb_data::Text;
use pb_place_types::PathText;
use std::alloc::{AllocError, Global};

/// Returns the parts of a text between its slashes. Parts may be empty.
///
/// Errors: out of memory.
pub fn cut_at_slashes(alloc: Global, text: &str) -> Result<Vec<&str>, AllocError>
    ensures { IfOk result
        (λ parts. map (λ part. part.now) parts.items ≡ slice_split (λ b. b == 47) text.now) }
{
    text.split('/').collect(alloc)
}

/// Returns the parts that are not empty.
fn words_in<'a>(alloc: Global, parts: &[&'a str]) -> Result<Vec<&'a str>, AllocError>
    ensures { IfOk result (λ words. map (λ word. word.now) words.items
        ≡ filter is_word (map (λ part. part.now) parts.now)) }
{
    let mut words = Vec::new(alloc);
    for part in parts {
        if !part.is_empty() {
            words.push(*part)?;
        }
    }
    Ok(words)
}

/// Returns the names of a path: its parts between slashes that are not empty.
///
/// Errors: out of memory.
pub fn names_in(alloc: Global, path: &str) -> Result<Vec<&str>, AllocError>
    ensures { IfOk result (λ names. map (λ name. name.now) names.items ≡ names_in path.now) }
{
    let parts = cut_at_slashes(alloc, path)?;
    words_in(alloc, parts.as_slice())
}

/// Adds `..` `count` times.
fn add_upward<'a>(steps: &mut Vec<&'a str>, count: usize) -> Result<(), AllocError>
    ensures { OnOk result (map (λ step. step.now) steps.new.items
        ≡ map (λ step. step.now) steps.old.items ++ replicate count (codes "..")) }
{
    for _done in 0..count {
        steps.push("..")?;
    }
    Ok(())
}

/// Adds these names.
fn add_names<'a>(steps: &mut Vec<&'a str>, names: &[&'a str]) -> Result<(), AllocError>
    ensures { OnOk result (map (λ step. step.now) steps.new.items
        ≡ map (λ step. step.now) steps.old.items ++ map (λ name. name.now) names.now) }
{
    for name in names {
        steps.push(*name)?;
    }
    Ok(())
}

/// Returns the steps up from the end of one path and down to the end of the other.
fn up_and_down<'a>(
    alloc: Global,
    names: &[&str],
    others: &[&'a str],
) -> Result<Vec<&'a str>, AllocError>
    ensures { IfOk result (λ steps. map (λ step. step.now) steps.items
        ≡ upward (map (λ name. name.now) names.now) ++ map (λ name. name.now) others.now) }
{
    let mut steps = Vec::new(alloc);
    add_upward(&mut steps, names.len())?;
    add_names(&mut steps, others)?;
    Ok(steps)
}

/// Returns the steps from the end of the first list of names to the end of the second list.
fn steps_between<'a>(
    alloc: Global,
    names: &[&str],
    others: &[&'a str],
) -> Result<Vec<&'a str>, AllocError>
    ensures { IfOk result (λ steps. map (λ step. step.now) steps.items
        ≡ steps_between (map (λ name. name.now) names.now) (map (λ name. name.now) others.now)) }
{
    let mut from = names;
    let mut to = others;
    while let [name, further @ ..] = from {
        match to {
            [other, beyond @ ..] => {
                if *name != *other {
                    return up_and_down(alloc, from, to);
                }
                from = further;
                to = beyond;
            }
            [] => return up_and_down(alloc, from, to),
        }
    }
    up_and_down(alloc, from, to)
}

/// Adds each name after a slash.
fn add_slashed(text: &mut String, names: &[&str]) -> Result<(), AllocError>
    ensures { OnOk result (string_bytes text.new ≡ string_bytes text.old
        ++ slashed (map (λ name. name.now) names.now)) }
{
    for name in names {
        text.push_str("/")?;
        text.push_str(*name)?;
    }
    Ok(())
}

/// Returns the names with a slash between them.
fn join_names(alloc: Global, names: &[&str]) -> Result<Text, AllocError>
    ensures { IfOk result (λ text. text ≡ spelled (map (λ name. name.now) names.now)) }
{
    let (first, rest) = match names {
        [] => return Text::from_str(alloc, ""),
        [first, rest @ ..] => (first, rest),
    };
    let mut text = String::from_str(alloc, *first)?;
    add_slashed(&mut text, rest)?;
    Ok(Text::new(text))
}

/// Returns the path from a folder to another path, such as `../README.md`. The result is empty if
/// both are equal.
///
/// Errors: out of memory.
pub fn text_between(alloc: Global, folder: &PathText, path: &PathText) -> Result<Text, AllocError>
    ensures { IfOk result (λ text. text ≡ text_between folder.now path.now) }
{
    let names = names_in(alloc, folder.as_str())?;
    let others = names_in(alloc, path.as_str())?;
    let steps = steps_between(alloc, names.as_slice(), others.as_slice())?;
    join_names(alloc, steps.as_slice())
}
