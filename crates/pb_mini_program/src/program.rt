//! The work of the program `pb_mini`: it replies, and writes the files and streams of the reply.

ghost use Rattle.std.specs.Prelude.{◌≡◌, ◌≢◌, ◌⊎◌, ℕ, List, [], Option, Some, OnOk, IfOk, IfErr, IsTrue};
ghost use Rattle.std.specs.Io.KnownBytes.{Appends};
ghost use Rattle.pb_place_types.specs.CallsInTurn.{past_calls};
ghost use Rattle.pb_place_types.specs.World.{put_reply};
ghost use Rattle.pb_place_types.specs.declared.child.Reply.{Reply};
ghost use Rattle.pb_mini.specs.Answer.{answered};
ghost use Rattle.pb_mini_program.specs.OutFolder.{out_folder};
ghost use Rattle.pb_mini_program.specs.Writing.{FailsToPut, IsFolderOf, IsReply, MemoryEnds, PutsIn, StopsPutting, WriteFails, WritesAll, kept, outside, writes_in};

use crate::fault::Fault;
use crate::out_folder::out_folder;
use pb_data::{Bytes, Text};
use pb_mini::answer;
use pb_place_types::{Out, PathText, Place, PlaceFault, RelativePath, View, write_all};
use std::alloc::Global;

/// Writes files in a folder, one after another, at their paths relative to the folder.
///
/// Errors: `Write`; `OutOfMemory`. After an error, the files before the failing file have been
/// written.
fn write_files<P: Place>(
    alloc: Global,
    place: &mut P,
    folder: &PathText,
    files: &[(RelativePath, Bytes)],
) -> Result<(), PlaceFault>
    ensures written { IsTrue P.is_modelled → OnOk result ((P.at place.new).world
        ≡ put_reply (Some folder.now) files.now (P.at place.old).world) }
    ensures whole { OnOk result ((P.at place.new).counts
        ≡ past_calls (writes_in folder.now files.now) (P.at place.old).counts) }
    ensures fault { IfErr result (λ e. e ≢ PlaceFault.OutOfMemory →
        FailsToPut P.is_modelled folder.now
        files.now (kept (P.at place.old)) (kept (P.at place.new))) }
    ensures memory { IfErr result (λ e. e ≡ PlaceFault.OutOfMemory →
        StopsPutting P.is_modelled folder.now
        files.now (kept (P.at place.old)) (kept (P.at place.new))) }
{
    for (name, bytes) in files {
        let path = folder.below(alloc, name)?;
        place.write(alloc, &path, bytes.as_slice())?;
    }
    Ok(())
}

/// Writes the files of a reply in its output folder, if there is an output folder.
///
/// Errors:
///
/// - `Read`, if the view fails.
/// - `Write`, if a file cannot be written.
/// - `OutOfMemory`.
fn leave_files<P: Place, V: View>(
    alloc: Global,
    words: &[Text],
    view: &V,
    place: &mut P,
    files: &[(RelativePath, Bytes)],
) -> Result<(), Fault>
    // All files are put in the output folder. If there is no folder, no file is written.
    ensures files { IsTrue V.is_modelled → IsTrue P.is_modelled → OnOk result
        (files.now ≡ (answered words.now [] (V.shown view.now)).files → (P.at place.new).world
        ≡ put_reply (out_folder words.now (V.shown view.now)) files.now (P.at place.old).world) }
    ensures whole { OnOk result ((folder : Option (List ℕ))
        × IsFolderOf V.is_modelled words.now (V.shown view.now) files.now folder
        × PutsIn P.is_modelled folder files.now (kept (P.at place.old)) (kept (P.at place.new))) }

    // If the call fails:
    ensures read { IfErr result (λ e. e ≡ Fault.Read → V.fails view.now
        × (place.new ≡ place.old)) }
    ensures write { IfErr result (λ e. e ≡ Fault.Write → (folder : List ℕ)
        × IsFolderOf V.is_modelled words.now (V.shown view.now) files.now (Some folder)
        × FailsToPut P.is_modelled folder files.now (kept (P.at place.old))
        (kept (P.at place.new))) }
    ensures memory { IfErr result (λ e. e ≡ Fault.OutOfMemory → (place.new ≡ place.old)
        ⊎ ((folder : List ℕ)
        × IsFolderOf V.is_modelled words.now (V.shown view.now) files.now (Some folder)
        × StopsPutting P.is_modelled folder files.now (kept (P.at place.old))
        (kept (P.at place.new)))) }
{
    if files.is_empty() {
        return Ok(());
    }
    if let Some(folder) = out_folder(alloc, words, view)? {
        write_files(alloc, place, &folder, files)?;
    }
    Ok(())
}

/// Replies to arguments as the small compiler does, and returns the status of the reply. The files
/// of the reply are written into the output folder, and then the reply's two streams are written.
/// Nothing is written after a failure; earlier writes stay.
///
/// Errors:
/// - `Read`: the view failed. In this case nothing was written.
/// - `Write`: a file or a stream could not be written.
/// - `OutOfMemory`: memory ran out before the streams were written.
pub fn carry_out<V: View, P: Place, O: Out, E: Out>(
    alloc: Global,
    words: &[Text],
    view: &V,
    place: &mut P,
    out: &mut O,
    err: &mut E,
) -> Result<i32, Fault>
    // Over a view that reports what it shows, and a modelled place:
    ensures status { IsTrue V.is_modelled → IfOk result
        (λ status. status ≡ (answered words.now [] (V.shown view.now)).status) }
    ensures stdout { IsTrue V.is_modelled → OnOk result (Appends (O.heard out.old).taken
        (O.heard out.new).taken (answered words.now [] (V.shown view.now)).stdout) }
    ensures stderr { IsTrue V.is_modelled → OnOk result (Appends (E.heard err.old).taken
        (E.heard err.new).taken (answered words.now [] (V.shown view.now)).stderr) }
    ensures files { IsTrue V.is_modelled → IsTrue P.is_modelled →
        OnOk result ((P.at place.new).world
        ≡ put_reply (out_folder words.now (V.shown view.now))
        (answered words.now [] (V.shown view.now)).files (P.at place.old).world) }

    // Over any view and place: the files, the output and standard error of one reply are written,
    // in this order.
    ensures whole { IfOk result (λ status. (reply : Reply)
        × IsReply V.is_modelled words.now (V.shown view.now) reply × (status ≡ reply.status)
        × WritesAll V.is_modelled P.is_modelled words.now (V.shown view.now) reply
        (outside (P.at place.old) (O.heard out.old) (E.heard err.old))
        (outside (P.at place.new) (O.heard out.new) (E.heard err.new))) }

    // If the call fails:
    ensures read { IfErr result (λ e. e ≡ Fault.Read → V.fails view.now
        × (place.new ≡ place.old) × (out.new ≡ out.old) × (err.new ≡ err.old)) }
    ensures write { IfErr result (λ e. e ≡ Fault.Write → (reply : Reply)
        × IsReply V.is_modelled words.now (V.shown view.now) reply
        × WriteFails V.is_modelled P.is_modelled words.now (V.shown view.now) reply
        (outside (P.at place.old) (O.heard out.old) (E.heard err.old))
        (outside (P.at place.new) (O.heard out.new) (E.heard err.new))) }
    ensures memory { IfErr result (λ e. e ≡ Fault.OutOfMemory
        → MemoryEnds V.is_modelled P.is_modelled words.now (V.shown view.now)
        (outside (P.at place.old) (O.heard out.old) (E.heard err.old))
        (outside (P.at place.new) (O.heard out.new) (E.heard err.new))) }
{
    let reply = answer(alloc, words, &[], view)?;
    leave_files(alloc, words, view, place, reply.files.as_slice())?;
    if !write_all(out, reply.stdout.as_slice()) {
        return Err(Fault::Write);
    }
    if !write_all(err, reply.stderr.as_slice()) {
        return Err(Fault::Write);
    }
    Ok(reply.status)
}
