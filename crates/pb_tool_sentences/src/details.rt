//! What is written about a failed build besides its result line: the sentence of its fault.

ghost use Rattle.std.specs.Prelude.{◌≡◌, ◌≢◌, [], ◌++◌, IfOk, IfErr, OnOk, string_bytes};
ghost use Rattle.pb_build_result.specs.Sentence.{build_sentence};
ghost use Rattle.pb_tool_sentences.specs.Details.{bad_detail, detail, is_by_compiler, spaced, told_of, with_names};

use pb_build_result::{BuildFault, Refusal, Summary, build_sentence, unit_sentence};
use pb_command_types::UnitFault;
use pb_data::Text;
use pb_unit::PlanFault;
use std::alloc::{AllocError, Global};

/// Returns the line of a note with this sentence.
fn write_note(alloc: Global, sentence: &str) -> Result<String, AllocError>
    ensures { IfOk result (λ text. string_bytes text ≡ told_of sentence.now) }
{
    let mut text = String::from_str(alloc, "note: ")?;
    text.push_str(sentence)?;
    text.push_str("\n")?;
    Ok(text)
}

/// Adds names, each after a blank.
fn push_names(text: &mut String, names: &[Text]) -> Result<(), AllocError>
    ensures { OnOk result (string_bytes text.new ≡ string_bytes text.old ++ spaced names.now) }
{
    for name in names {
        text.push_str(" ")?;
        text.push_str(name.as_str())?;
    }
    Ok(())
}

/// Adds the packages of a cycle, if the fault is a cycle.
fn push_packages(text: &mut String, fault: &BuildFault) -> Result<(), AllocError>
    ensures { OnOk result (string_bytes text.new
        ≡ string_bytes text.old ++ with_names fault.now) }
{
    match fault {
        BuildFault::Plan(Refusal::Plan(PlanFault::Cycle(names))) => {
            text.push_str(":")?;
            push_names(text, names.as_slice())
        }
        _ => Ok(()),
    }
}

/// Returns the detail of a build that ended without a summary.
fn fault_detail(alloc: Global, fault: &BuildFault) -> Result<String, AllocError>
    ensures { IfOk result (λ text. string_bytes text
        ≡ told_of (build_sentence fault.now ++ with_names fault.now)) }
{
    let mut sentence = build_sentence(alloc, fault)?;
    push_packages(&mut sentence, fault)?;
    write_note(alloc, sentence.as_str())
}

/// Returns whether a unit is bad because of the status of its compiler.
fn is_by_compiler(unit: &str, fault: &UnitFault) -> bool
    ensures { result ≡ is_by_compiler unit.now fault.now }
{
    match fault {
        UnitFault::Status(_) => !unit.as_bytes().ends_with(b".run"),
        _ => false,
    }
}

/// Returns the detail of a bad unit.
fn bad_detail(
    alloc: Global,
    rendered: bool,
    unit: &str,
    fault: &UnitFault,
) -> Result<String, AllocError>
    ensures { IfOk result (λ text. string_bytes text ≡ bad_detail rendered unit.now fault.now) }
{
    let mut text = write_note(alloc, unit_sentence(alloc, fault)?.as_str())?;
    if !rendered && is_by_compiler(unit, fault) {
        text.push_str(
            "note: the compiler's messages, if there are any, are in the lines on standard output; --render shows them as text\n",
        )?;
    }
    Ok(text)
}

/// Returns what is written about a failed build besides its result line. A note has the sentence of
/// the build's fault. For a cycle, the packages come after the sentence. If a compiler failed and
/// its messages were not shown as text, a second note says where the messages are. Nothing is
/// written about a build that did not fail.
///
/// Errors: only out of memory, and only if there is something to write.
pub fn detail(
    alloc: Global,
    rendered: bool,
    answer: &Result<Summary, BuildFault>,
) -> Result<String, AllocError>
    ensures ok { IfOk result (λ text. string_bytes text ≡ detail rendered answer.now) }
    ensures some { IfErr result (λ _. detail rendered answer.now ≢ []) }
{
    match answer {
        Ok(summary) => match &summary.bad {
            Some((unit, fault)) => bad_detail(alloc, rendered, unit.as_str(), fault),
            None => Ok(String::new(alloc)),
        },
        Err(fault) => fault_detail(alloc, fault),
    }
}
