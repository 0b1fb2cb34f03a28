//! What the names of result lines mean.

ghost use Rattle.std.specs.Prelude.{◌≡◌, IfOk, option_map, string_bytes};
ghost use Rattle.pb_tool_explain.specs.Entries.{near_in};
ghost use Rattle.pb_tool_program.specs.Names.{Means, Unmeant, near_told, no_such_name};

use crate::running::{BAD_COMMAND_LINE, FAILED};
use pb_place_types::{Out, write_all};
use pb_tool_explain::{Page, meaning, near};
use std::alloc::{AllocError, Global};

/// Returns the text that names a similar name, if there is one.
fn near_told(alloc: Global, near: Option<&str>) -> Result<String, AllocError>
    ensures { IfOk result
        (λ text. string_bytes text ≡ near_told (option_map (λ name. name.now) near.entry)) }
{
    let mut text = String::new(alloc);
    if let Some(name) = near {
        text.push_str(" (near: ")?;
        text.push_str(name)?;
        text.push_str(")")?;
    }
    Ok(text)
}

/// Returns the line for a name that is not on the page. The line also contains a similar name from
/// the page, if there is one.
fn no_such_name(alloc: Global, page: &Page, name: &str) -> Result<String, AllocError>
    ensures { IfOk result
        (λ text. string_bytes text ≡ no_such_name (near_in page.now name.now) name.now) }
{
    let near = near(alloc, page, name)?;
    let told = near_told(alloc, near)?;
    let mut text = String::from_str(alloc, "error: no error has the name ")?;
    text.push_str(name)?;
    text.push_str(told.as_str())?;
    text.push_str("\n")?;
    Ok(text)
}

/// Writes that a page does not have this name, and returns the status. If memory runs out for the
/// line, writes a line that says so.
fn miss<E: Out>(alloc: Global, page: &Page, name: &str, err: &mut E) -> u8
    ensures { Unmeant (near_in page.now name.now) name.now result
        (E.heard err.old) (E.heard err.new) }
{
    match no_such_name(alloc, page, name) {
        Ok(text) => {
            let _ = write_all(err, text.as_bytes());
            BAD_COMMAND_LINE
        }
        Err(_) => {
            let _ = write_all(err, b"error: fault memory OutOfMemory\n");
            FAILED
        }
    }
}

/// Prints what a name of a result line means, as a page says it.
pub(crate) fn mean<O: Out, E: Out>(
    alloc: Global,
    page: &Page,
    name: &str,
    out: &mut O,
    err: &mut E,
) -> u8
    ensures { Means page.now name.now result
        (O.heard out.old) (O.heard out.new)
        (E.heard err.old) (E.heard err.new) }
{
    match meaning(page, name) {
        Some(text) => {
            if write_all(out, text.as_bytes()) {
                0
            } else {
                BAD_COMMAND_LINE
            }
        }
        None => miss(alloc, page, name, err),
    }
}
