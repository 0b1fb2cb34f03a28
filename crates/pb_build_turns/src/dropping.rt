//! Children in flight at the end of a build. The end of each child is awaited, and the child's
//! answer is dropped.

ghost use Rattle.std.specs.Prelude.{◌≡◌, ◌<◌, [], List, length, IsTrue};
ghost use Rattle.std.specs.List.{remove};
ghost use Rattle.pb_build_result.specs.declared.bad_unit.BadUnit.{BadUnit};
ghost use Rattle.pb_run_flight.specs.Events.{Event};
ghost use Rattle.pb_place_types.specs.Counts.{Counts};
ghost use Rattle.pb_place_types.specs.World.{World};
ghost use Rattle.pb_run.specs.UnitSteps.{BuildContext};
ghost use Rattle.pb_build_turns.specs.Executor.{tickets_of, IsConsistent};
ghost use Rattle.pb_build_turns.specs.Ends.{StaysTold, Dropped, Drained};
ghost use Rattle.pb_build_turns.specs.History.{Changes, HistoryHolds};

use crate::executor::UnitExecutor;
use pb_place_types::Place;
use pb_run::drop_unit;
use std::alloc::Global;

/// Drops the unit in flight that began first.
fn drop_first<P: Place>(alloc: Global, crew: &mut UnitExecutor, place: &mut P)
    requires consistent { IsConsistent crew.old (P.at place.old).counts }
    requires some { 0 < length crew.old.running.items }
    ensures consistent { IsConsistent crew.new (P.at place.new).counts }

    // The first unit is no longer in flight; nothing else of the executor has changed.
    ensures less { length crew.new.running.items < length crew.old.running.items }
    ensures running { crew.new.running.items ≡ remove crew.old.running.items 0 }
    ensures same { crew.new ≡ record crew.old { running = crew.new.running } }

    // If the unit has a child, the child's end was awaited.
    ensures dropped { (new : Counts)
        → Dropped (tickets_of crew.new.running.items) (P.at place.new).counts new
        → Dropped (tickets_of crew.old.running.items) (P.at place.old).counts new }
    ensures most { (P.at place.new).most ≡ (P.at place.old).most }

    // What was true of the events so far stays true.
    ensures told { (first : World) (es : List (Event BadUnit)) → IsTrue P.is_modelled
        → Changes crew.old.project first crew.old.running.items es
        (P.at place.old).world (P.at place.old).counts.starts.flying
        → StaysTold P.child crew.old.project first es
        crew.old.running.items crew.new.running.items
        (P.at place.old).world (P.at place.new).world (P.at place.new).counts.starts.flying }
    ensures happened { (b : BuildContext) (es : List (Event BadUnit)) → IsTrue P.is_modelled
        → b.project ≡ crew.old.project
        → HistoryHolds b crew.old.done.items crew.old.running.items crew.old.store.next es
        (P.at place.old).world (P.at place.old).counts.starts.flying (P.at place.old).still
        → HistoryHolds b crew.new.done.items crew.new.running.items crew.new.store.next es
        (P.at place.new).world (P.at place.new).counts.starts.flying (P.at place.new).still }
{
    let running = crew.running.remove(0);
    drop_unit(alloc, place, &running.begun);
}

/// Drops all units in flight, in the order in which they began. Afterwards no child is in flight.
/// No other call of the place is made.
pub(crate) fn drain<P: Place>(alloc: Global, crew: &mut UnitExecutor, place: &mut P)
    requires consistent { IsConsistent crew.old (P.at place.old).counts }

    // No unit is in flight; nothing else of the executor has changed.
    ensures same { crew.new ≡ record crew.old { running = crew.new.running } }
    ensures landed { (P.at place.new).counts.starts.flying ≡ [] }

    // The end of each child was awaited once.
    ensures drained { Drained (P.at place.old).counts (P.at place.new).counts }
    ensures most { (P.at place.new).most ≡ (P.at place.old).most }

    // What was true of the events so far stays true.
    ensures told { (first : World) (es : List (Event BadUnit)) → IsTrue P.is_modelled
        → Changes crew.old.project first crew.old.running.items es
        (P.at place.old).world (P.at place.old).counts.starts.flying
        → StaysTold P.child crew.old.project first es
        crew.old.running.items crew.new.running.items
        (P.at place.old).world (P.at place.new).world (P.at place.new).counts.starts.flying }
    ensures happened { (b : BuildContext) (es : List (Event BadUnit)) → IsTrue P.is_modelled
        → b.project ≡ crew.old.project
        → HistoryHolds b crew.old.done.items crew.old.running.items crew.old.store.next es
        (P.at place.old).world (P.at place.old).counts.starts.flying (P.at place.old).still
        → HistoryHolds b crew.new.done.items crew.new.running.items crew.new.store.next es
        (P.at place.new).world (P.at place.new).counts.starts.flying (P.at place.new).still }
{
    while !crew.running.is_empty() {
        drop_first(alloc, crew, place);
    }
}
