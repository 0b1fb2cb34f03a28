//! Children in flight on the machine: awaited in another order, killed, or with long output.

use crate::machine::commands::{Asked, command, shell};
use crate::told::try_said;
use pb_place_host::HostPlace;
use pb_place_types::{Ended, PathText, Place, StartFault};
use std::alloc::{AllocError, Global};
use std::test::Fail;

/// Returns how a child ended, as a text: its status, and how many bytes it wrote to each of its two
/// streams; or the fault.
fn flight_text(alloc: Global, ended: Result<Ended, StartFault>) -> Result<String, AllocError> {
    let text = match &ended {
        Ok(ended) => {
            let status = ended.status;
            let stdout = ended.stdout.as_slice().len();
            let stderr = ended.stderr.as_slice().len();
            format!(in alloc; "{status} {stdout} {stderr}")
        }
        Err(fault) => format!(in alloc; "{fault:?}"),
    };
    drop(ended);
    text
}

/// Spawns a child: its ticket.
fn spawn<P: Place>(
    alloc: Global,
    place: &mut P,
    root: &PathText,
    asked: &Asked,
) -> Result<Result<u64, StartFault>, Fail> {
    let command = command(alloc, root, asked)?;
    let ticket = place.spawn(alloc, &command);
    drop(command);
    Ok(ticket)
}

/// Returns whether a program that does not exist cannot be started.
fn misses<P: Place>(alloc: Global, place: &mut P, root: &PathText) -> Result<bool, Fail> {
    let answer = spawn(alloc, place, root, &("/no/such/program", "", "", "", &[]))?;
    Ok(matches!(answer, Err(StartFault::CannotStart)))
}

/// Spawns two children. Returns their tickets, and whether a program that does not exist cannot be
/// started.
fn spawn_two<P: Place>(
    alloc: Global,
    place: &mut P,
    root: &PathText,
    first: &str,
    second: &str,
) -> Result<(u64, u64, bool), Fail> {
    let one = spawn(alloc, place, root, &shell(first))??;
    let two = spawn(alloc, place, root, &shell(second))??;
    let misses = misses(alloc, place, root)?;
    Ok((one, two, misses))
}

/// Returns how a child in flight ended.
fn finish(
    alloc: Global,
    place: &mut HostPlace<HostRuntime>,
    ticket: u64,
) -> Result<String, AllocError> {
    if !place.flies(ticket) {
        return String::from_str(alloc, "no child");
    }
    flight_text(alloc, place.finish(alloc, ticket))
}

/// Returns how two children ended, of which the second is awaited first. Then follow whether a
/// program was missing, the greatest number of children in flight, and how many were started and
/// failed.
fn end(
    alloc: Global,
    place: &mut HostPlace<HostRuntime>,
    one: u64,
    two: u64,
    misses: bool,
) -> Result<String, Fail> {
    let later = finish(alloc, place, two)?;
    let earlier = finish(alloc, place, one)?;
    let (most, starts, failures) = (place.most(), place.starts(), place.failures());
    Ok(format!(in alloc;
        "{}, {}, {misses}, {most} {starts} {failures}",
        earlier.as_str(),
        later.as_str()
    )?)
}

/// Returns the same for two children that are in flight at a time.
fn fly(
    alloc: Global,
    place: &mut HostPlace<HostRuntime>,
    root: &PathText,
    first: &str,
    second: &str,
) -> Result<String, Fail> {
    let (one, two, misses) = spawn_two(alloc, place, root, first, second)?;
    end(alloc, place, one, two, misses)
}

/// The shell's scripts for two children, and how the children ended.
static FLIGHTS: &[(&str, &str, &str)] = &[
    (
        "head -c 200000 /dev/zero; head -c 200000 /dev/zero >&2; exit 3",
        "echo small; exit 4",
        "3 200000 200000, 4 6 0, true, 2 3 1",
    ),
    (
        "kill -9 $$",
        "{ sleep 1; echo late; } & echo soon",
        "Died, 0 10 0, true, 2 3 2",
    ),
    (
        "head -c 300000 /dev/zero; head -c 300000 /dev/zero >&2",
        "exit 0",
        "0 300000 300000, 0 0 0, true, 2 3 1",
    ),
];

/// Returns how two children end at a fresh place.
fn fly_both(rt: &HostRuntime, root: &PathText, first: &str, second: &str) -> Result<String, Fail> {
    let mut place = HostPlace::new(rt.alloc(), rt);
    let said = fly(rt.alloc(), &mut place, root, first, second);
    drop(place);
    said
}

/// Tries two children, and compares how they end.
fn try_flight(rt: &HostRuntime, first: &str, second: &str, wanted: &str) -> Result<(), Fail> {
    let root = PathText::parse(rt.alloc(), "/")?;
    try_said(fly_both(rt, &root, first, second), wanted)
}

/// Rules: `places.calls`.
#[test]
fn flights(rt: HostRuntime) -> Result<(), Fail> {
    for case in FLIGHTS {
        let (first, second, wanted) = *case;
        try_flight(&rt, first, second, wanted)?;
    }
    Ok(())
}
