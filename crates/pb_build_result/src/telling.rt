//! The text for people about a build that came to its end. Message lines are not part of this text.

ghost use Rattle.std.specs.Prelude.{◌≡◌, ◌++◌, IfOk, OnOk};
ghost use Rattle.pb_build_result.specs.Said.{ended, said_by_bad};

use crate::summary::Summary;
use pb_data::Bytes;
use std::alloc::{AllocError, Global};

/// Adds bytes, and a line feed if the bytes do not end with a line feed.
fn push_ended(text: &mut Vec<u8>, bytes: &[u8]) -> Result<(), AllocError>
    ensures { OnOk result (text.new.items ≡ text.old.items ++ ended bytes.now) }
{
    text.extend_from_slice(bytes)?;
    match bytes.last() {
        None => {}
        Some(b'\n') => {}
        Some(_) => text.push(b'\n')?,
    }
    Ok(())
}

/// Returns the output of the bad unit's child, except what message lines contain. A line with the
/// unit's key comes first, and the text ends with a line feed. The text is empty if the child wrote
/// nothing else, or if all units are good.
///
/// Errors: out of memory.
pub fn summary_text(alloc: Global, summary: &Summary) -> Result<Bytes, AllocError>
    ensures { IfOk result (λ text. text ≡ said_by_bad summary.now.bad summary.now.said) }
{
    let mut text = Vec::new(alloc);
    match (&summary.bad, summary.said.as_slice()) {
        (Some((key, _)), [_, ..]) => {
            text.extend_from_slice(key.as_str().as_bytes())?;
            text.extend_from_slice(b" said:\n")?;
            push_ended(&mut text, summary.said.as_slice())?;
        }
        _ => {}
    }
    Ok(Bytes::new(text))
}
