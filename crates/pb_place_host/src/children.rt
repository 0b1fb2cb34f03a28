//! The machine's child processes: how they are started, and what a place stores about them.

ghost use Rattle.std.specs.Prelude.{◌≡◌, ◌+◌, ◌<◌, ◌++◌, ◌∷◌, [], length, max, IfOk};
ghost use Rattle.std.specs.Vec.{vec_len, vec_capacity};
ghost use Rattle.pb_place.specs.InFlight.{children_in};
ghost use Rattle.pb_place_host.specs.Flying.{silent_child};

use crate::failed::Failed;
use crate::moving::Moment;
use crate::starting::spawn;
use pb_data::{Bytes, Items, TryCopy, with_next};
use pb_place::in_flight::Flying;
use pb_place_types::{ChildInFlight, Command, Ended, FileMap, PathText};
use std::alloc::{AllocError, Global};
use std::process::{Child, Processes};
use std::rt::{Env, Files};

/// When a child was spawned, by the clock of the file system that contains the child's output
/// folder.
#[derive(Drop)]
pub(crate) struct Spawned {
    /// The output folder.
    pub(crate) out: PathText,
    /// The time of the spawn. `None` if the time is unknown.
    pub(crate) since: Option<Moment>,
}

/// A child that runs.
#[derive(Drop)]
pub(crate) struct Running<K> {
    pub(crate) process: K,
    /// `None` if the child has no output folder.
    pub(crate) spawned: Option<Spawned>,
}

/// Starts the child of a command, and returns the child with the time of its start.
pub(crate) fn start_child<R: Files + Env + Processes + AllocGlobal>(
    runtime: &R,
    alloc: Global,
    command: &Command,
) -> Result<Running<Child<R::Started>>, Failed> {
    let out = command.out.copy(alloc)?;
    let (out, (process, since)) = with_next(out, spawn(runtime, alloc, command))?;
    let spawned = match out {
        Some(out) => Some(Spawned { out, since }),
        None => None,
    };
    Ok(Running { process, spawned })
}

/// Returns the command of a child in flight.
fn command_of(child: ChildInFlight) -> Command {
    let ChildInFlight {
        ticket: _,
        command,
        ended,
        files,
        before,
    } = child;
    drop(ended);
    drop(files);
    drop(before);
    command
}

/// Returns the command of a child in flight, and what a place keeps of the child.
pub(crate) fn parts_of<K: Drop>(flying: Flying<K>) -> (Command, K) {
    let Flying { child, kept } = flying;
    (command_of(child), kept)
}

/// Returns what the place reports about a child in flight: its ticket and its command.
#[tactic(auto, using(crate::proofs::Silence::silence_laws))]
pub(crate) fn child_in_flight(
    alloc: Global,
    command: &Command,
    ticket: u64,
) -> Result<ChildInFlight, AllocError>
    ensures { IfOk result (λ child. child ≡ silent_child command.now ticket) }
{
    let command = command.copy(alloc)?;
    Ok(ChildInFlight {
        ticket,
        command,
        ended: Ended {
            status: 0,
            stdout: Bytes::new(Vec::new(alloc)),
            stderr: Bytes::new(Vec::new(alloc)),
        },
        files: Items::new(alloc),
        before: FileMap::new(alloc),
    })
}

/// Adds a child in flight, for which space must be reserved. Returns the greatest number of
/// children that were ever in flight at a time.
#[tactic(auto, using(pb_place::proofs::InFlight::fly_laws))]
pub(crate) fn add_child<K: Drop>(flying: &mut Vec<Flying<K>>, most: u64, one: Flying<K>) -> u64
    requires room { vec_len flying.old < vec_capacity flying.old }
    ensures children { children_in flying.new.items
        ≡ children_in flying.old.items ++ one.child ∷ [] }
    ensures most { result ≡ max most (length (children_in flying.old.items) + 1) }
{
    flying.push_reserved(one);
    most.max(flying.len() as u64)
}
