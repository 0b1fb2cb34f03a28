//! The line that says how a build of a session ended.

ghost use Rattle.std.specs.Prelude.{◌≡◌, ◌++◌, IfOk, OnOk, string_bytes};
ghost use Rattle.pb_build_result.specs.ResultLine.{keys_rest, keys_text, summary_line, fault_at, fault_line, result_line};

use crate::failures::{device_fault_name, start_fault_name, unit_fault_text};
use crate::fault::BuildFault;
use crate::refusals::refusal_name;
use crate::summary::Summary;
use crate::texts::join_texts;
use pb_data::Text;
use std::alloc::{AllocError, Global};

/// Adds keys, each after a comma.
fn push_keys(text: &mut String, keys: &[Text]) -> Result<(), AllocError>
    ensures { OnOk result (string_bytes text.new ≡ string_bytes text.old ++ keys_rest keys.now) }
{
    for key in keys {
        text.push_str(",")?;
        text.push_str(key.as_str())?;
    }
    Ok(())
}

/// Returns keys with commas between them, or a dash if there are no keys.
fn keys_text(alloc: Global, keys: &[Text]) -> Result<String, AllocError>
    ensures { IfOk result (λ text. string_bytes text ≡ keys_text keys.now) }
{
    let (first, rest) = match keys {
        [] => return String::from_str(alloc, "-"),
        [first, rest @ ..] => (first, rest),
    };
    let mut text = String::from_str(alloc, first.as_str())?;
    push_keys(&mut text, rest)?;
    Ok(text)
}

/// Returns the line of a build that came to its end.
fn summary_line(alloc: Global, summary: &Summary) -> Result<String, AllocError>
    ensures { IfOk result (λ text. string_bytes text ≡ summary_line summary.now) }
{
    let keys = keys_text(alloc, summary.started.as_slice())?;
    match &summary.bad {
        None => join_texts(alloc, &["ok started=", keys.as_str()]),
        Some((unit, fault)) => {
            let fault = unit_fault_text(alloc, fault)?;
            join_texts(
                alloc,
                &[
                    "bad ",
                    unit.as_str(),
                    " ",
                    fault.as_str(),
                    " started=",
                    keys.as_str(),
                ],
            )
        }
    }
}

/// Returns the line of a fault at a unit, or at another part of the build.
fn fault_at(alloc: Global, unit: &str, name: &str) -> Result<String, AllocError>
    ensures { IfOk result (λ text. string_bytes text ≡ fault_at unit.now name.now) }
{
    join_texts(alloc, &["fault ", unit, " ", name])
}

/// Returns the line of a build that ended without a summary.
fn fault_line(alloc: Global, fault: &BuildFault) -> Result<String, AllocError>
    ensures { IfOk result (λ text. string_bytes text ≡ fault_line fault.now) }
{
    match fault {
        BuildFault::Plan(refusal) => join_texts(alloc, &["refused ", refusal_name(refusal)]),
        BuildFault::Toolchain => String::from_str(alloc, "fault -vV Toolchain"),
        BuildFault::Child { unit, fault } => {
            fault_at(alloc, unit.as_str(), start_fault_name(*fault))
        }
        BuildFault::Device { unit, fault } => {
            fault_at(alloc, unit.as_str(), device_fault_name(*fault))
        }
        BuildFault::Sink => String::from_str(alloc, "fault sink Sink"),
        BuildFault::OutOfMemory => String::from_str(alloc, "fault memory OutOfMemory"),
    }
}

/// Returns the line that says how a build ended, as a session prints the line. The text does not
/// end with a line feed. The form is our own choice:
///
/// - `ok started=KEYS`, if all units are good.
/// - `bad KEY FAULT started=KEYS`, if a unit is bad. KEY is the key of the first bad unit in plan
///   order. FAULT is the name of the unit's fault: `Status(N)`, in which N is a signed decimal
///   number; `Directive(NAME)`, with the name of the line's fault; `ScriptError`, `NoDepInfo`,
///   `ForeignInput` or `OutputTooLong`.
/// - `refused NAME`, if the build is refused. NAME is the name of the innermost fault, without its
///   fields.
/// - `fault AT NAME`, if a child did not answer or a call failed. AT is the unit's key, `-vV`, the
///   path or the variable's name. NAME is the name of the child's fault, `Device` for a call on
///   files or variables, or `NumbersSpent`.
/// - `fault -vV Toolchain`, if the compiler does not report its version and host.
/// - `fault sink Sink`, if the sink failed.
/// - `fault memory OutOfMemory`, if memory ran out.
///
/// KEYS are the keys of the units whose child was started, in order of starting, with `,` between
/// them. If no child was started, KEYS is `-`.
///
/// Errors: out of memory.
pub fn result_line(
    alloc: Global,
    answer: &Result<Summary, BuildFault>,
) -> Result<String, AllocError>
    ensures { IfOk result (λ text. string_bytes text ≡ result_line answer.now) }
{
    match answer {
        Ok(summary) => summary_line(alloc, summary),
        Err(fault) => fault_line(alloc, fault),
    }
}
