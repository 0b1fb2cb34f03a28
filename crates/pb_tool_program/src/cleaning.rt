//! `pb_tool clean` over any place.

ghost use Rattle.std.specs.Prelude.{◌≡◌, ◌⊎◌, IfOk, string_bytes};
ghost use Rattle.pb_place_types.specs.Sinks.{SinkState};
ghost use Rattle.pb_build_turns.specs.Executor.{moment};
ghost use Rattle.pb_tool_clean.specs.Calls.{moment_of};
ghost use Rattle.pb_tool_program.specs.Guarding.{Guarded};
ghost use Rattle.pb_tool_program.specs.Cleaning.{of_what, refusal_of, nothing_told, build_fault_of, TellsFault, TellsEnd, target_in, CleansFound, CleansTold};
ghost use Rattle.pb_tool_program.specs.Building.{why_lost};
ghost use Rattle.pb_tool_program.specs.Writing.{Tells};

use crate::building::{conclude, take};
use crate::guard::Guard;
use crate::reports::reports_of;
use crate::running::FAILED;
use pb_build_result::{BuildFault, DeviceFault, Refusal};
use pb_place_host::Reporting;
use pb_place_types::{Out, PathText, Place, write_all};
use pb_profile::ProfileFault;
use pb_tool_clean::{Choice, CleanFault, Wanted, clean, find};
use pb_tool_notes::Notes;
use pb_tool_reasons::Noted;
use pb_unit::PlanFault;
use pb_workspace_types::Options;
use std::alloc::{AllocError, Global};

/// Returns the words by which a note names what a removal wanted to remove.
fn of_what(wanted: Wanted) -> &'static str
    ensures { result.now ≡ of_what wanted }
{
    match wanted {
        Wanted::All => "",
        Wanted::OfProfile => " under the profile",
        Wanted::OfPackages => " of the packages",
    }
}

/// Returns the name of the refusal of a removal that found nothing to remove.
fn refusal_of(wanted: Wanted) -> &'static str
    ensures { result.now ≡ refusal_of wanted }
{
    match wanted {
        Wanted::All => "NoTargetFolder",
        Wanted::OfProfile => "NoSuchProfile",
        Wanted::OfPackages => "NoSuchPackage",
    }
}

/// Returns the note and the result line for a folder in which a removal found nothing to remove.
fn nothing_told(alloc: Global, wanted: Wanted, folder: &PathText) -> Result<String, AllocError>
    ensures { IfOk result (λ text. string_bytes text ≡ nothing_told wanted folder.now) }
{
    let mut text = String::from_str(alloc, "note: ")?;
    text.push_str(folder.as_str())?;
    text.push_str(" contains nothing that a build made")?;
    text.push_str(of_what(wanted))?;
    text.push_str("\nerror: refused ")?;
    text.push_str(refusal_of(wanted))?;
    text.push_str("\n")?;
    Ok(text)
}

/// Writes that a removal found nothing to remove in a folder. If memory runs out, writes a line
/// that needs no memory instead.
fn tell_nothing<E: Out>(alloc: Global, err: &mut E, wanted: Wanted, folder: &PathText)
    ensures { Tells (nothing_told wanted folder.now) (E.heard err.old) (E.heard err.new)
        ⊎ Tells why_lost (E.heard err.old) (E.heard err.new) }
{
    match nothing_told(alloc, wanted, folder) {
        Ok(text) => write_all(err, text.as_bytes()),
        Err(_) => write_all(
            err,
            b"error: the build failed; there is no memory to show the reason\n",
        ),
    };
}

/// Returns the fault of a removal as a build's fault. Both faults have the same name.
fn build_fault_of(fault: CleanFault) -> BuildFault
    ensures { result ≡ build_fault_of fault }
{
    match fault {
        CleanFault::Call(name, fault) => BuildFault::Device {
            unit: name,
            fault: DeviceFault::Place(fault),
        },
        CleanFault::NoSuchProfile => BuildFault::Plan(Refusal::Plan(PlanFault::Profile(
            ProfileFault::NoSuchProfile,
        ))),
        _ => BuildFault::OutOfMemory,
    }
}

/// Writes what a build with this fault writes, and returns the status.
fn tell_fault<P: Place + Reporting, E: Out>(
    alloc: Global,
    place: &P,
    err: &mut E,
    fault: BuildFault,
) -> u8
    ensures { TellsFault fault result (E.heard err.old) (E.heard err.new) }
{
    let answer = Err(fault);
    let report = reports_of(place, &answer);
    let notes = Notes::new(alloc);
    conclude(
        alloc,
        err,
        None,
        true,
        &answer,
        &Noted::new(alloc),
        report,
        &notes,
    )
}

/// Writes how a removal ended, unless everything was removed, and returns the status.
fn tell_end<P: Place + Reporting, E: Out>(
    alloc: Global,
    place: &P,
    err: &mut E,
    answer: Result<(), CleanFault>,
) -> u8
    ensures { TellsEnd answer result (E.heard err.old) (E.heard err.new) }
{
    match answer {
        Ok(()) => 0,
        Err(CleanFault::Nothing(wanted, folder)) => {
            tell_nothing(alloc, err, wanted, &folder);
            FAILED
        }
        Err(fault) => tell_fault(alloc, place, err, build_fault_of(fault)),
    }
}

/// Takes the target folder of what was chosen. If nothing was chosen, no folder is requested.
fn hold_found<P: Place, G: Guard<P, E>, E: Out>(
    guard: &mut G,
    place: &P,
    err: &mut E,
    found: &Result<Choice, CleanFault>,
)
    ensures { Guarded G.asks G.waits guard.old guard.new (target_in found.now)
        (P.at place.now).counts (E.heard err.old) (E.heard err.new) }
{
    match found {
        Ok(choice) => take(guard, place, err, &choice.target),
        Err(_) => {}
    }
}

/// Removes what was chosen. If nothing was chosen, returns the fault of the choice.
fn clean_found<P: Place>(
    alloc: Global,
    place: &mut P,
    found: Result<Choice, CleanFault>,
) -> Result<(), CleanFault>
    ensures { CleansFound P.is_modelled found result
        (moment_of (P.at place.old)) (moment_of (P.at place.new)) }
{
    match found {
        Ok(choice) => clean(alloc, place, &choice),
        Err(fault) => Err(fault),
    }
}

/// Removes what builds have made, and returns the status: 0, or 101 if there is nothing to remove
/// or a removal failed.
///
/// With 101, `err` has notes and `error: ` with a result line. The target folder is listed first.
/// If the folder contains nothing to remove, nothing is done. Between the listing and the removal,
/// the target folder is requested from the guard. If a build has the folder, a line on `err` says
/// so, and this removal waits.
pub fn clean_options<P: Place + Reporting, G: Guard<P, E>, E: Out>(
    alloc: Global,
    place: &mut P,
    guard: &mut G,
    err: &mut E,
    options: &Options,
    one_profile: bool,
) -> u8
    ensures { (heard : SinkState) → CleansTold P.is_modelled
        (Guarded G.asks G.waits guard.old guard.new) options.now one_profile result
        (moment (P.at place.old) heard) (moment (P.at place.new) heard)
        (E.heard err.old) (E.heard err.new) }
{
    let found = find(alloc, place, options, one_profile);
    // The lock comes after the look: if there is nothing to remove, no folder is made for the lock.
    hold_found(guard, place, err, &found);
    let answer = clean_found(alloc, place, found);
    tell_end(alloc, place, err, answer)
}
