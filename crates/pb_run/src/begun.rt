//! A unit that has begun.

ghost use Rattle.std.specs.Prelude.{◌≡◌, is_some, option_map};
ghost use Rattle.pb_run.specs.UnitSteps.{child_of};
ghost use Rattle.pb_run.specs.declared.begun.SpawnedChild.{SpawnedChild};

use pb_data::Text;
use pb_place_types::Command;
use pb_store::{Difference, Replayed};

/// A child process that was spawned for a unit.
#[derive(Debug, Drop)]
pub struct SpawnedChild {
    /// The ticket with which the child's end is awaited.
    pub ticket: u64,
    /// The run number that the unit's record gets if the unit's answer is good.
    pub number: u64,
}

/// The source of a unit's answer.
#[derive(Drop)]
pub enum Awaited {
    /// The end of its child.
    Child(SpawnedChild),
    /// What its record replays. Nothing differs from this record.
    Record(Replayed),
}

/// A unit that has begun.
#[derive(Drop)]
pub struct Begun {
    /// The unit's key. The key was copied before the unit's child was spawned, so that no copy can
    /// fail while the child is in flight.
    pub unit: Text,
    /// Its command.
    pub command: Command,
    /// The first difference from the unit's record, which is why the unit's child was spawned. None
    /// if nothing differs.
    pub difference: Option<Difference>,
    /// The end of the unit's child, or what the unit's record replays. The record is kept here, so
    /// that it is read only once.
    pub awaited: Awaited,
}

impl Begun {
    /// Returns whether the unit has a child.
    pub fn has_child(&self) -> bool
        ensures { result ≡ is_some (child_of self.now) }
    {
        match &self.awaited {
            Awaited::Child(_) => true,
            Awaited::Record(_) => false,
        }
    }

    /// Returns the ticket with which the end of the unit's child is awaited, if the unit has a
    /// child.
    pub fn ticket(&self) -> Option<u64>
        ensures { result ≡ option_map (λ (l : SpawnedChild). l.ticket) (child_of self.now) }
    {
        match &self.awaited {
            Awaited::Child(launched) => Some(launched.ticket),
            Awaited::Record(_) => None,
        }
    }

    /// Returns the run number for the unit's record, if the unit has a child. The record gets this
    /// number if the unit's answer is good.
    pub fn number(&self) -> Option<u64>
        ensures { result ≡ option_map (λ (l : SpawnedChild). l.number) (child_of self.now) }
    {
        match &self.awaited {
            Awaited::Child(launched) => Some(launched.number),
            Awaited::Record(_) => None,
        }
    }
}
