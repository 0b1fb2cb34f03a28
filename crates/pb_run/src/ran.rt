//! The result of a unit, from the answer of its child.

ghost use Rattle.std.specs.Prelude.{◌≡◌, ◌≢◌, IfOk, IsTrue, Result, Ok, Err, true};
ghost use Rattle.pb_command_reply.specs.Answers.{answered_of};
ghost use Rattle.pb_command_types.specs.declared.checked_reply.CheckedReply.{CheckedReply};
ghost use Rattle.pb_command_types.specs.declared.fault.UnitFault.TheVariants as unit_fault;
ghost use Rattle.std.specs.FinMap as finite;
ghost use Rattle.pb_run.specs.Outcome.{judgement_by, outcome_by, directives_in};

use pb_build_result::BadUnit;
use pb_command::check_reply_at;
use pb_command_types::{CheckedReply, Project, UnitFault};
use pb_data::{Bytes, Items};
use pb_directive::Directives;
use pb_message::Message;
use pb_message_units::{bad_messages, good_messages, said_by};
use pb_place_types::{Command, Ended, Place};
use pb_record::InputName;
use pb_unit::Planned;
use std::alloc::{AllocError, Global};

/// The result of a unit.
#[derive(Drop)]
pub struct Ran {
    /// Whether a child process was started for the unit.
    pub started: bool,
    /// Why the unit is bad, and what its child printed. None if the unit is good.
    pub bad: Option<BadUnit>,
    /// The directives of a build script's run that ended well.
    pub directives: Option<Directives>,
    /// Its messages.
    pub messages: Items<Message>,
}

/// The judgement of the answer of a unit's child.
#[derive(Drop)]
pub struct Validated {
    /// The result of the unit.
    pub ran: Ran,
    /// The inputs found in the answer of the unit's child. A bad unit has no inputs.
    pub names: Items<InputName>,
}

/// Returns the judgement of a unit whose child's answer is good.
fn good(
    alloc: Global,
    project: &Project,
    unit: &Planned,
    ended: &Ended,
    answered: CheckedReply,
) -> Result<Validated, AllocError>
    ensures judged { IfOk result (λ judgement.
        judgement ≡ judgement_by project.now unit.now ended.now (Ok answered)) }
{
    let CheckedReply { directives, inputs } = answered;
    let messages = good_messages(alloc, project, unit, &ended.stderr, &directives)?;
    Ok(Validated {
        ran: Ran {
            started: true,
            bad: None,
            directives,
            messages,
        },
        names: inputs,
    })
}

/// Returns the judgement of a unit whose child's answer is bad.
fn bad(
    alloc: Global,
    project: &Project,
    unit: &Planned,
    ended: &Ended,
    fault: UnitFault,
) -> Result<Validated, AllocError>
    ensures judged { IfOk result (λ judgement.
        judgement ≡ judgement_by project.now unit.now ended.now (Err fault)) }
{
    let messages = bad_messages(alloc, &unit.unit.what, &fault, ended)?;
    let said = said_by(alloc, &unit.unit.what, &fault, ended)?;
    Ok(Validated {
        ran: Ran {
            started: true,
            bad: Some(BadUnit { fault, said }),
            directives: None,
            messages,
        },
        names: Items::new(alloc),
    })
}

/// Returns the judgement of the answer of a unit's child. `dep_info` is the content of the unit's
/// dep-info file, if there is such a file. The place determines the paths of the texts in the
/// answer.
///
/// Errors: only out of memory.
pub fn judge_reply<P: Place>(
    alloc: Global,
    place: &P,
    project: &Project,
    unit: &Planned,
    command: &Command,
    ended: &Ended,
    dep_info: &Option<Bytes>,
) -> Result<Validated, AllocError>
    ensures judged { IsTrue P.is_modelled → IfOk result (λ judgement. judgement ≡ judgement_by
        project.now unit.now ended.now (answered_of project.now unit.now command.now ended.now
        dep_info.now)) }
    ensures started { IfOk result (λ judgement. judgement.ran.started ≡ true) }
    ensures directives { IfOk result (λ judgement.
        directives_in (outcome_by finite.empty judgement.ran) ≡ judgement.ran.directives) }
{
    match check_reply_at(
        alloc,
        place,
        project,
        unit,
        command,
        ended,
        dep_info.as_ref(),
    ) {
        Ok(answered) => good(alloc, project, unit, ended, answered),
        Err(UnitFault::OutOfMemory) => Err(AllocError),
        Err(fault) => bad(alloc, project, unit, ended, fault),
    }
}
