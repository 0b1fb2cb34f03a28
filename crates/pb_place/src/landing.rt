//! What a child leaves in its folder, over the old files. After the spawn, the first half of the
//! reply's files, in byte order, is there. After the reply, all of the reply's files are there.

ghost use Rattle.std.specs.Prelude.{◌≡◌, IfOk, OnOk};
ghost use Rattle.std.specs.FinMap as map;
ghost use Rattle.pb_place_types.specs.Paths.{is_below};
ghost use Rattle.pb_place_types.specs.World.{put_files, AgreeBut};
ghost use Rattle.pb_place_types.specs.Children.{inside_out, put_back};
ghost use Rattle.pb_place_types.specs.Copies.{first_half, put_from};
ghost use Rattle.pb_place_types.specs.Folders.{files_in};

use pb_data::Bytes;
use pb_place_types::{FileMap, PathText, RelativePath};
use std::alloc::{AllocError, Global};

/// Puts the files of a reply in a folder. Only files below that folder change, even if memory runs
/// out.
fn put_all(
    alloc: Global,
    files: &mut FileMap,
    folder: &PathText,
    made: &[(RelativePath, Bytes)],
) -> Result<(), AllocError>
    ensures ok { OnOk result (files.new ≡ put_files folder.now made.now files.old) }
    ensures only { AgreeBut (is_below folder.now) files.old files.new }
{
    for (name, bytes) in made {
        let path = folder.below(alloc, name)?;
        files.insert(alloc, &path, bytes.as_slice())?;
    }
    Ok(())
}

/// Returns a map with the files of a reply in its folder.
fn made_in(
    alloc: Global,
    out: &PathText,
    made: &[(RelativePath, Bytes)],
) -> Result<FileMap, AllocError>
    ensures made { IfOk result (λ files. files ≡ put_files out.now made.now map.empty) }
    ensures only { IfOk result (λ files. AgreeBut (is_below out.now) map.empty files) }
{
    let mut files = FileMap::new(alloc);
    put_all(alloc, &mut files, out, made)?;
    Ok(files)
}

/// Puts the first half of a reply's files, in byte order, in the command's folder.
pub(crate) fn leave_half(
    alloc: Global,
    files: &mut FileMap,
    out: &PathText,
    made: &[(RelativePath, Bytes)],
) -> Result<(), AllocError>
    ensures ok { OnOk result
        (files.new ≡ put_from (put_files out.now made.now map.empty)
        (first_half (map.keys
        (map.retain_keys (put_files out.now made.now map.empty) (is_below out.now)))) files.old) }
    ensures only { AgreeBut (is_below out.now) files.old files.new }
{
    let reply = made_in(alloc, out, made)?;
    let paths = reply.list(alloc, out)?;
    let paths = paths.as_slice();
    files.put_from(alloc, &reply, &paths[..paths.len() / 2])
}

/// Returns the files inside a child's folder.
#[tactic(auto, using(pb_place_types::proofs::Copies::copied_laws))]
pub(crate) fn inside_out(
    alloc: Global,
    files: &FileMap,
    out: &Option<PathText>,
) -> Result<FileMap, AllocError>
    ensures { IfOk result (λ inside. inside ≡ inside_out out.now files.now) }
{
    let mut inside = FileMap::new(alloc);
    if let Some(out) = out {
        let paths = files.list(alloc, out)?;
        inside.put_from(alloc, files, paths.as_slice())?;
    }
    Ok(inside)
}

/// Restores the old files of a child's folder.
#[tactic(auto, using(pb_place_types::proofs::Copies::landing_laws))]
fn restore(
    alloc: Global,
    files: &mut FileMap,
    out: &PathText,
    before: &FileMap,
) -> Result<(), AllocError>
    requires inside { AgreeBut (is_below out.now) map.empty before.now }
    ensures ok { OnOk result (files.new ≡ put_back out.now before.now files.old) }
    ensures only { AgreeBut (is_below out.now) files.old files.new }
{
    let paths = before.list(alloc, out)?;
    files.remove_below(alloc, out)?;
    files.put_from(alloc, before, paths.as_slice())
}

/// Returns the files of a map inside a folder.
#[tactic(auto, using(pb_place_types::proofs::Copies::copied_laws))]
fn inner(alloc: Global, files: &FileMap, out: &PathText) -> Result<FileMap, AllocError>
    ensures { IfOk result (λ inside. inside ≡ files_in out.now files.now) }
{
    let mut inside = FileMap::new(alloc);
    let paths = files.list(alloc, out)?;
    inside.put_from(alloc, files, paths.as_slice())?;
    Ok(inside)
}

/// Restores the old files of a child's folder, and puts the reply's files over them.
#[tactic(auto, using(pb_place_types::proofs::Copies::alone_laws))]
pub(crate) fn land(
    alloc: Global,
    files: &mut FileMap,
    out: &PathText,
    before: &FileMap,
    made: &[(RelativePath, Bytes)],
) -> Result<(), AllocError>
    ensures ok { OnOk result
        (files.new ≡ put_files out.now made.now
        (put_back out.now (files_in out.now before.now) files.old)) }
    ensures only { AgreeBut (is_below out.now) files.old files.new }
{
    let inside = inner(alloc, before, out)?;
    restore(alloc, files, out, &inside)?;
    put_all(alloc, files, out, made)
}
