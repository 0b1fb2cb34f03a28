//! Why a unit is bad, or why something outside of the build failed: the name of each fault, and the
//! sentence about it.

ghost use Rattle.std.specs.Prelude.{◌≡◌, IfOk, string_bytes};
ghost use Rattle.pb_command_types.specs.declared.fault.UnitFault.TheVariants as unit;
ghost use Rattle.pb_build_result.specs.Failures.{line_fault_name, line_sentence, unit_fault_text, unit_sentence, place_sentence, start_fault_name, start_sentence, device_fault_name, device_sentence};

use crate::fault::DeviceFault;
use crate::texts::{between, join_texts};
use pb_command_types::UnitFault;
use pb_directive::LineFault;
use pb_place_types::{PlaceFault, StartFault};
use std::alloc::{AllocError, Global};

/// Returns the name of a line's fault.
fn line_fault_name(fault: LineFault) -> &'static str
    ensures { result.now ≡ line_fault_name fault }
{
    match fault {
        LineFault::NotText(_) => "NotText",
        LineFault::UnknownKey(_) => "UnknownKey",
        LineFault::BadValue(_) => "BadValue",
        LineFault::BadFlag(_) => "BadFlag",
        LineFault::OutOfMemory => "OutOfMemory",
    }
}

/// Returns what is wrong with a line of a script's output.
///
/// Errors: out of memory.
pub fn line_sentence(alloc: Global, fault: LineFault) -> Result<String, AllocError>
    ensures { IfOk result (λ text. string_bytes text ≡ line_sentence fault) }
{
    match fault {
        LineFault::NotText(number) => format!(in alloc; "line {number} is not UTF-8"),
        LineFault::UnknownKey(number) => format!(in alloc; "line {number} has an unknown key"),
        LineFault::BadValue(number) => format!(in alloc; "line {number} has a bad value"),
        LineFault::BadFlag(number) => format!(in alloc; "line {number} has a bad flag"),
        LineFault::OutOfMemory => String::from_str(alloc, "out of memory"),
    }
}

/// Returns the name of a unit's fault. The number of a status, or the name of a line's fault,
/// follows in parentheses.
pub(crate) fn unit_fault_text(alloc: Global, fault: &UnitFault) -> Result<String, AllocError>
    ensures { IfOk result (λ text. string_bytes text ≡ unit_fault_text fault.now) }
{
    match fault {
        UnitFault::Status(number) => format!(in alloc; "Status({number})"),
        UnitFault::Directive(fault) => {
            join_texts(alloc, &["Directive(", line_fault_name(*fault), ")"])
        }
        UnitFault::ScriptError => String::from_str(alloc, "ScriptError"),
        UnitFault::NoDepInfo => String::from_str(alloc, "NoDepInfo"),
        UnitFault::ForeignInput(_) => String::from_str(alloc, "ForeignInput"),
        UnitFault::OutputTooLong => String::from_str(alloc, "OutputTooLong"),
        UnitFault::OutOfMemory => String::from_str(alloc, "OutOfMemory"),
    }
}

/// Returns why a script's output is refused.
fn directive_sentence(alloc: Global, fault: LineFault) -> Result<String, AllocError>
    ensures { IfOk result (λ text. string_bytes text ≡ unit_sentence (unit.Directive fault)) }
{
    let mut text = String::from_str(alloc, "the script's output is refused: ")?;
    text.push_str(line_sentence(alloc, fault)?.as_str())?;
    Ok(text)
}

/// Returns why a unit is bad.
///
/// Errors: out of memory.
pub fn unit_sentence(alloc: Global, fault: &UnitFault) -> Result<String, AllocError>
    ensures { IfOk result (λ text. string_bytes text ≡ unit_sentence fault.now) }
{
    match fault {
        UnitFault::Status(status) => {
            format!(in alloc; "the child process ended with status {status}")
        }
        UnitFault::Directive(fault) => directive_sentence(alloc, *fault),
        UnitFault::NoDepInfo => String::from_str(alloc, "the compiler left no readable dep-info"),
        UnitFault::ForeignInput(path) => {
            between(
                alloc,
                "the input `",
                path.as_str(),
                "` is in the target folder",
            )
        }
        UnitFault::OutputTooLong => String::from_str(
            alloc,
            "the child process wrote too much to a stream",
        ),
        UnitFault::ScriptError => String::from_str(alloc, "the build script reported an error"),
        UnitFault::OutOfMemory => String::from_str(alloc, "out of memory"),
    }
}

/// Returns which call of the place failed.
pub fn place_sentence(fault: PlaceFault) -> &'static str
    ensures { result.now ≡ place_sentence fault }
{
    match fault {
        PlaceFault::Read => "a file could not be read",
        PlaceFault::List => "a folder could not be listed",
        PlaceFault::Write => "a file could not be written",
        PlaceFault::Remove => "a file or folder could not be removed",
        PlaceFault::Variable => "a variable could not be read",
        PlaceFault::OutOfMemory => "out of memory",
    }
}

/// Returns the name of the reason why a child did not answer.
pub(crate) fn start_fault_name(fault: StartFault) -> &'static str
    ensures { result.now ≡ start_fault_name fault }
{
    match fault {
        StartFault::CannotStart => "CannotStart",
        StartFault::Died => "Died",
        StartFault::Capture => "Capture",
        StartFault::OutOfMemory => "OutOfMemory",
    }
}

/// Returns why a child process gave no answer.
pub fn start_sentence(fault: StartFault) -> &'static str
    ensures { result.now ≡ start_sentence fault }
{
    match fault {
        StartFault::CannotStart => "the program cannot be started",
        StartFault::Died => "the child process ended without a status",
        StartFault::Capture => "the output of the child process could not be read",
        StartFault::OutOfMemory => "out of memory",
    }
}

/// Returns the name of a call's fault: one word for all calls on files and variables.
pub(crate) fn device_fault_name(fault: DeviceFault) -> &'static str
    ensures { result.now ≡ device_fault_name fault }
{
    match fault {
        DeviceFault::Place(_) => "Device",
        DeviceFault::NumbersSpent => "NumbersSpent",
    }
}

/// Returns why a call on files or variables, or a call for a unit's record, failed.
pub fn device_sentence(fault: DeviceFault) -> &'static str
    ensures { result.now ≡ device_sentence fault }
{
    match fault {
        DeviceFault::Place(fault) => place_sentence(fault),
        DeviceFault::NumbersSpent => "no run number is left",
    }
}
