//! The launch of a unit's child: the record is dropped, the folder emptied, and the child spawned.

ghost use Rattle.std.specs.Prelude.{◌≡◌, ◌+◌, ℕ, true, Option, IsTrue, IfOk, MatchResult, Some, None, max, length};
ghost use Rattle.pb_place_types.specs.Children.{child_at, child_spawned, StaysStill, KeepsStillOutside};
ghost use Rattle.pb_place_types.specs.Paths.{is_path, is_at_or_below};
ghost use Rattle.pb_place_types.specs.World.{ChangesOnly, ChangesOnlyInSome};
ghost use Rattle.pb_run.specs.Running.{ChangesUnit, KeepsStore, AnewEnds, Calls, DropsFor, IsSpawned, LaunchEnds, Launches, SpawnStops, Spawns, SpawnsAnew};
ghost use Rattle.pb_run.specs.Steps.{StartsRise, BeginFaults, StepTakes};
ghost use Rattle.pb_run.specs.UnitSteps.{WritesTo};
ghost use Rattle.pb_store_soundness.specs.Apart.{is_of};
ghost use Rattle.pb_store_soundness.specs.Records.{out_of, record_path, records};
ghost use Rattle.pb_store.specs.Folder.{IsGiven, HasNumbers};

use crate::begun::SpawnedChild;
use crate::faults::{StepFault, start_fault};
use crate::running::empty;
use pb_place_types::{Command, PathText, Place};
use pb_store::{Key, Store};
use std::alloc::Global;

/// Spawns the child of a unit, by one call.
#[tactic(auto, using(crate::proofs::Spawning::spawn_laws))]
fn spawn<P: Place>(alloc: Global, place: &mut P, command: &Command) -> Result<u64, StepFault>
    // The child is in flight, and nothing that the child sees has changed.
    ensures flies { IfOk result (λ ticket. child_at ticket (P.at place.new).counts.starts.flying
        ≡ Some (child_spawned (P.child command.now) command.now (P.at place.old).world ticket)) }
    ensures stands { IfOk result (λ ticket. (P.at place.new).still ticket) }
    ensures most { MatchResult result
        (λ ticket. (P.at place.new).most
        ≡ max (P.at place.old).most (length (P.at place.old).counts.starts.flying + 1))
        (λ e. (P.at place.new).most ≡ (P.at place.old).most) }

    // Only the child's folder changes, by one call.
    ensures only { ChangesOnlyInSome command.now.out (P.at place.old).world
        (P.at place.new).world }
    ensures still { StaysStill (P.at place.old).counts.starts.flying (P.at place.old).world
        (P.at place.new).world (P.at place.old).still (P.at place.new).still }
    ensures takes { (next : Option ℕ) → StepTakes StartsRise (BeginFaults next) result
        (P.at place.old).counts (P.at place.new).counts }
    ensures calls { Calls (Spawns P.child command.now) SpawnStops result
        (P.at place.old).counts (P.at place.new).counts }
{
    match place.spawn(alloc, command) {
        Ok(ticket) => Ok(ticket),
        Err(fault) => Err(start_fault(fault)),
    }
}

/// Empties the output folder of a unit, and spawns its child, each by one call.
#[tactic(auto, using(crate::proofs::Spawning::launch_laws))]
fn spawn_anew<P: Place>(
    alloc: Global,
    place: &mut P,
    out: &PathText,
    command: &Command,
) -> Result<u64, StepFault>
    requires out { command.now.out ≡ Some out.now }

    // The child is in flight, was spawned over an empty folder, and writes into this folder.
    ensures spawned { IsTrue P.is_modelled →
        IfOk result (λ ticket. IsSpawned (is_at_or_below out.now)
        P.child command.now (P.at place.old).world ticket (P.at place.new).counts.starts.flying
        (P.at place.new).still) }
    ensures writes { IfOk result (λ ticket. (number : ℕ) → WritesTo out.now
        (Some record { ticket = ticket; number = number })
        (P.at place.new).counts.starts.flying) }
    ensures most { MatchResult result
        (λ ticket. (P.at place.new).most
        ≡ max (P.at place.old).most (length (P.at place.old).counts.starts.flying + 1))
        (λ e. (P.at place.new).most ≡ (P.at place.old).most) }

    // Only the folder changes.
    ensures only { ChangesOnly (is_at_or_below out.now) (P.at place.old).world
        (P.at place.new).world }
    ensures still { KeepsStillOutside (is_at_or_below out.now)
        (P.at place.old).counts.starts.flying (P.at place.old).still (P.at place.new).still }
    ensures takes { (next : Option ℕ) → StepTakes StartsRise (BeginFaults next) result
        (P.at place.old).counts (P.at place.new).counts }
    ensures calls { Calls (SpawnsAnew P.child command.now) (AnewEnds out.now) result
        (P.at place.old).counts (P.at place.new).counts }
{
    // The folder is emptied before the child is spawned. So no old file counts as a file of the
    // child.
    empty(alloc, place, out)?;
    match spawn(alloc, place, command) {
        Ok(ticket) => Ok(ticket),
        Err(fault) => Err(fault),
    }
}

/// Launches the child of a unit that differs from its record. If a run number is left, the number
/// is taken and exactly three calls are made. These calls remove the record, empty the output
/// folder and spawn the child.
#[tactic(auto, using(crate::proofs::Spawning::launch_laws))]
pub(crate) fn launch<P: Place>(
    alloc: Global,
    place: &mut P,
    store: &mut Store,
    key: &Key,
    out: &PathText,
    command: &Command,
) -> Result<SpawnedChild, StepFault>
    requires out { command.now.out ≡ Some out.now }
    requires lies { out.now ≡ out_of store.old.folder key.now }
    requires path { is_path store.old.folder ≡ true }
    requires numbers { IsTrue P.is_modelled →
        HasNumbers (records store.old.folder (P.at place.old).world) store.old.numbers }

    // The child is in flight with the next run number, was spawned over an empty folder, and writes
    // into this folder.
    ensures number { IfOk result
        (λ launched. IsGiven launched.number store.old.next store.new.next) }
    ensures spawned { IsTrue P.is_modelled → IfOk result (λ launched.
        IsSpawned (is_of store.old.folder key.now) P.child command.now (P.at place.old).world
        launched.ticket (P.at place.new).counts.starts.flying (P.at place.new).still) }
    ensures writes { IfOk result
        (λ launched. WritesTo out.now (Some launched) (P.at place.new).counts.starts.flying) }
    ensures most { MatchResult result
        (λ launched. (P.at place.new).most
        ≡ max (P.at place.old).most (length (P.at place.old).counts.starts.flying + 1))
        (λ e. (P.at place.new).most ≡ (P.at place.old).most) }

    // After a success the record is gone; after a fault the record is gone or unchanged. Only this
    // unit's paths change.
    ensures record { IsTrue P.is_modelled → DropsFor P.child store.old.folder key.now result
        store.old.next store.new.next (P.at place.old).world (P.at place.new).world }
    ensures store { KeepsStore P.is_modelled result store.old store.new (P.at place.new) }
    ensures changes { ChangesUnit store.old.folder key.now None
        (λ launched. StartsRise launched.ticket) (BeginFaults store.old.next) result
        (P.at place.old) (P.at place.new) }
    ensures calls { Calls (λ launched. Launches P.child command.now launched.ticket)
        (LaunchEnds (record_path store.old.folder key.now) out.now) result
        (P.at place.old).counts (P.at place.new).counts }
{
    let _ = key.as_text();
    // The record is removed before the folder is emptied, so a build that ends in between leaves no
    // false record.
    let number = match store.drop_record(alloc, place, key) {
        Ok(number) => number,
        Err(fault) => return Err(StepFault::Store(fault)),
    };
    match spawn_anew(alloc, place, out, command) {
        Ok(ticket) => Ok(SpawnedChild { ticket, number }),
        Err(fault) => Err(fault),
    }
}
