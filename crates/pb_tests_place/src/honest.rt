//! What the clauses of a place promise about calls in turn, for any modelled place.

ghost use Rattle.std.specs.Prelude.{◌≡◌, ◌/◌, true, false, not, length, take, None, Some, if◌then◌else◌, IsTrue, IfOk, IfErr, OnOk};
ghost use Rattle.std.specs.List.{concat, list_any};
ghost use Rattle.std.specs.FinMap as map;
ghost use Rattle.pb_place_types.specs.Paths.{is_below, is_at_or_below};
ghost use Rattle.pb_place_types.specs.World.{is_same_path, seen_by, written, removed, put_reply};
ghost use Rattle.pb_place_types.specs.Counts.{up_starts};
ghost use Rattle.pb_place.specs.Memory.{may_fail};

use super::echo::{Echo, say};
use pb_data::{Bytes, Items};
use pb_place::Memory;
use pb_place_types::{Child, Command, Ended, PathText, Place, PlaceFault, StartFault};
use std::alloc::Global;
use std::test::Fail;

/// Returns what is read after these bytes were written: these bytes.
fn written_then_read<P: Place>(
    alloc: Global,
    place: &mut P,
    path: &PathText,
    bytes: &[u8],
) -> Result<Option<Bytes>, PlaceFault>
    ensures found { IsTrue P.is_modelled → IfOk result (λ found. found ≡ Some bytes.now) }
    ensures world { IsTrue P.is_modelled → OnOk result
        ((P.at place.new).world ≡ written path.now bytes.now (P.at place.old).world) }
    ensures starts { OnOk result ((P.at place.new).counts.starts ≡ (P.at place.old).counts.starts) }
    ensures quiet { OnOk result
        ((P.at place.new).counts.failures ≡ (P.at place.old).counts.failures) }
{
    place.write(alloc, path, bytes)?;
    let found = place.read(alloc, path)?;
    Ok(found)
}

/// Returns what is read after these pieces were written: their bytes, joined in order.
fn pieces_then_read<P: Place>(
    alloc: Global,
    place: &mut P,
    path: &PathText,
    pieces: &[Bytes],
) -> Result<Option<Bytes>, PlaceFault>
    ensures found { IsTrue P.is_modelled → IfOk result (λ found. found ≡ Some (concat pieces.now)) }
    ensures quiet { OnOk result
        ((P.at place.new).counts.failures ≡ (P.at place.old).counts.failures) }
{
    place.write_pieces(alloc, path, pieces)?;
    let found = place.read(alloc, path)?;
    Ok(found)
}

/// Returns what is read after a removal: nothing at the path or below it, and elsewhere what was
/// there.
fn removed_then_read<P: Place>(
    alloc: Global,
    place: &mut P,
    removed_path: &PathText,
    path: &PathText,
) -> Result<Option<Bytes>, PlaceFault>
    ensures found { IsTrue P.is_modelled → IfOk result (λ found. found
        ≡ (if not (is_at_or_below removed_path.now path.now)
        then map.get (P.at place.old).world.files path.now else None)) }
    ensures world { IsTrue P.is_modelled → OnOk result
        ((P.at place.new).world ≡ removed removed_path.now (P.at place.old).world) }
    ensures starts { OnOk result ((P.at place.new).counts.starts ≡ (P.at place.old).counts.starts) }
    ensures quiet { OnOk result
        ((P.at place.new).counts.failures ≡ (P.at place.old).counts.failures) }
{
    place.remove_tree(alloc, removed_path)?;
    let found = place.read(alloc, path)?;
    Ok(found)
}

/// Returns what is listed after a write. If the written path is below the folder, it is in the
/// list.
fn written_then_listed<P: Place>(
    alloc: Global,
    place: &mut P,
    path: &PathText,
    folder: &PathText,
) -> Result<Items<PathText>, PlaceFault>
    ensures listed { IsTrue P.is_modelled → IfOk result
        (λ paths. list_any (is_same_path path.now) paths ≡ is_below folder.now path.now) }
    ensures quiet { OnOk result
        ((P.at place.new).counts.failures ≡ (P.at place.old).counts.failures) }
{
    place.write(alloc, path, b"")?;
    let paths = place.list(alloc, folder)?;
    Ok(paths)
}

/// Returns how a child ended, and what is read after it: what its reply put there, or what was
/// there.
fn started_then_read<P: Place>(
    alloc: Global,
    place: &mut P,
    command: &Command,
    path: &PathText,
) -> Result<(Ended, Option<Bytes>), Fail>
    ensures stdout { IsTrue P.is_modelled → IfOk result (λ answer. answer.0.stdout
        ≡ (P.child command.now (seen_by command.now (P.at place.old).world)).stdout) }
    ensures found { IsTrue P.is_modelled → IfOk result (λ answer. answer.1
        ≡ map.get (put_reply command.now.out
        (P.child command.now (seen_by command.now (P.at place.old).world)).files
        (P.at place.old).world).files path.now) }
    ensures world { IsTrue P.is_modelled → OnOk result ((P.at place.new).world ≡ put_reply command.now.out
        (P.child command.now (seen_by command.now (P.at place.old).world)).files
        (P.at place.old).world) }
    ensures starts { OnOk result
        ((P.at place.new).counts.starts ≡ up_starts (P.at place.old).counts.starts) }
    ensures quiet { OnOk result
        ((P.at place.new).counts.failures ≡ (P.at place.old).counts.failures) }
{
    let ended = place.start(alloc, command)?;
    let found = place.read(alloc, path)?;
    Ok((ended, found))
}

/// Writes a file, starts a child, and removes the file. The child saw the file, what the child left
/// still exists, and the file is gone.
fn written_started_removed<P: Place>(
    alloc: Global,
    place: &mut P,
    path: &PathText,
    bytes: &[u8],
    command: &Command,
) -> Result<Ended, Fail>
    ensures stdout { IsTrue P.is_modelled → IfOk result (λ ended. ended.stdout ≡ (P.child command.now
        (seen_by command.now (written path.now bytes.now (P.at place.old).world))).stdout) }
    ensures world { IsTrue P.is_modelled → OnOk result ((P.at place.new).world ≡ removed path.now
        (put_reply command.now.out (P.child command.now
        (seen_by command.now (written path.now bytes.now (P.at place.old).world))).files
        (written path.now bytes.now (P.at place.old).world))) }
    ensures starts { OnOk result
        ((P.at place.new).counts.starts ≡ up_starts (P.at place.old).counts.starts) }
    ensures quiet { OnOk result
        ((P.at place.new).counts.failures ≡ (P.at place.old).counts.failures) }
{
    written_then_read(alloc, place, path, bytes)?;
    let (ended, _) = started_then_read(alloc, place, command, path)?;
    removed_then_read(alloc, place, path, path)?;
    Ok(ended)
}

/// Returns what is read at a place in memory. If no fuse is set and no death waits, the read fails
/// only if memory runs out.
fn read_in_memory<C: Child>(
    alloc: Global,
    memory: &mut Memory<C>,
    path: &PathText,
) -> Result<Option<Bytes>, PlaceFault>
    ensures { IfErr result (λ e. may_fail memory.old ≡ false → e ≡ PlaceFault.OutOfMemory) }
{
    memory.read(alloc, path)
}

/// Returns how a child ended at a place in memory. If no fuse is set and no death waits, the start
/// fails only if memory runs out.
fn start_in_memory<C: Child>(
    alloc: Global,
    memory: &mut Memory<C>,
    command: &Command,
) -> Result<Ended, StartFault>
    ensures { IfErr result (λ e. may_fail memory.old ≡ false → e ≡ StartFault.OutOfMemory) }
{
    memory.start(alloc, command)
}

/// Writes a file at a place in memory whose next call is to fail. The write leaves the first half
/// of the bytes.
fn torn_in_memory<C: Child>(
    alloc: Global,
    memory: &mut Memory<C>,
    path: &PathText,
    bytes: &[u8],
) -> Result<(), PlaceFault>
    ensures half { IfErr result (λ e. e ≡ PlaceFault.Write → memory.new.world
        ≡ written path.now (take (length bytes.now / 2) bytes.now) memory.old.world) }
    ensures fails_now { IfOk result (λ _. ⊥) }
    ensures used { IfErr result (λ e. e ≡ PlaceFault.Write → memory.new.fuse ≡ 0) }
    ensures kept { IfErr result (λ e. e ≡ PlaceFault.OutOfMemory
        → memory.new.world ≡ memory.old.world) }
{
    memory.fuse(1);
    memory.write(alloc, path, bytes)
}

/// Returns whether what is written in pieces is read whole.
fn pieces_hold<P: Place>(
    alloc: Global,
    place: &mut P,
    path: &PathText,
) -> Result<bool, PlaceFault> {
    let mut pieces = Items::new(alloc);
    pieces.push(Bytes::from_slice(alloc, b"on")?)?;
    pieces.push(Bytes::from_slice(alloc, b"e")?)?;
    match pieces_then_read(alloc, place, path, pieces.as_slice())? {
        Some(bytes) => Ok(bytes.as_slice() == b"one".as_slice()),
        None => Ok(false),
    }
}

/// Returns whether files that were written are read and listed, and removed files are not read.
fn files_hold<P: Place>(
    alloc: Global,
    place: &mut P,
    path: &PathText,
    folder: &PathText,
) -> Result<bool, PlaceFault> {
    let is_read = written_then_read(alloc, place, path, b"one")?.is_some();
    let listed = written_then_listed(alloc, place, path, folder)?.len();
    let is_gone = removed_then_read(alloc, place, folder, path)?.is_none();
    let are_joined = pieces_hold(alloc, place, path)?;
    Ok(is_read && listed == 1 && is_gone && are_joined)
}

/// Returns whether a child prints what was just written, and ends.
fn starts_hold(
    alloc: Global,
    memory: &mut Memory<Echo>,
    path: &PathText,
    command: &Command,
) -> Result<bool, Fail> {
    let ended = written_started_removed(alloc, memory, path, b"two", command)?;
    let says_two = ended.stdout.as_slice() == b"two".as_slice();
    drop(ended);
    let status = start_in_memory(alloc, memory, command)?.status;
    Ok(says_two && status == 7)
}

/// Returns whether each of these promises is kept, one after another. The child prints the file at
/// a path and leaves another file.
fn hold_in_turn(
    alloc: Global,
    memory: &mut Memory<Echo>,
    path: &PathText,
    folder: &PathText,
    command: &Command,
) -> Result<bool, Fail> {
    let files_hold = files_hold(alloc, memory, path, folder)?;
    let is_torn = torn_in_memory(alloc, memory, path, b"12345") == Err(PlaceFault::Write);
    let starts_hold = starts_hold(alloc, memory, path, command)?;
    Ok(files_hold && is_torn && starts_hold)
}

/// Returns whether all promises are kept at a place in memory, for a child that is started by this
/// command.
fn hold_with(alloc: Global, memory: &mut Memory<Echo>, command: &Command) -> Result<bool, Fail> {
    let folder = PathText::parse(alloc, "/w")?;
    let path = PathText::parse(alloc, "/w/a")?;
    hold_in_turn(alloc, memory, &path, &folder, command)
}

/// Returns whether all promises are kept at a place in memory.
fn hold(alloc: Global, memory: &mut Memory<Echo>) -> Result<bool, Fail> {
    let command = say(alloc, "/w/a", "/w/target/out")?;
    let hold = hold_with(alloc, memory, &command);
    drop(command);
    hold
}

/// Returns whether the file that the child leaves exists.
fn is_left(alloc: Global, memory: &mut Memory<Echo>) -> Result<bool, Fail> {
    let path = PathText::parse(alloc, "/w/target/out/a")?;
    let found = read_in_memory(alloc, memory, &path)?;
    Ok(found.is_some())
}

/// Returns whether all promises are kept at a place, two children were started there, and the file
/// that they leave exists.
fn hold_and_leave(alloc: Global, memory: &mut Memory<Echo>) -> Result<bool, Fail> {
    let hold = hold(alloc, memory)?;
    let is_left = is_left(alloc, memory)?;
    Ok(hold && is_left && memory.starts() == 2)
}

/// Does the same at a new place.
fn all_hold(alloc: Global) -> Result<bool, Fail> {
    let mut memory = Memory::new(alloc, Echo);
    let hold = hold_and_leave(alloc, &mut memory);
    drop(memory);
    hold
}

/// Rules: `places.calls`, `places.uncounted`.
#[test]
fn clauses_of_a_place(rt: HostRuntime) -> Result<(), Fail> {
    assert!(rt; all_hold(rt.alloc())?);
    Ok(())
}
