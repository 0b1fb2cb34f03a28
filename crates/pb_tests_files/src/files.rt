//! Files in memory, and the workspace that they contain.

ghost use Rattle.std.specs.Prelude.{◌≡◌};

use pb_place::Memory;
use pb_place_types::{Child, PathFault, PathText};
use pb_workspace::load;
use pb_workspace_types::{LoadFault, SettledWorkspace};
use std::alloc::Global;

/// Puts the files of a text, each after a line `@ PATH`.
pub fn put_files<C: Child>(
    alloc: Global,
    memory: &mut Memory<C>,
    files: &str,
) -> Result<(), PathFault>
    ensures flying { memory.new.flying ≡ memory.old.flying }
{
    for file in files.split("@ ") {
        if let Some((path, text)) = file.split_once('\n') {
            let path = PathText::parse(alloc, path)?;
            memory.put(alloc, &path, text.as_bytes())?;
        }
    }
    Ok(())
}

/// Returns the workspace in `/w`, whose target folder is `/w/target`.
pub fn workspace_in<C: Child>(
    alloc: Global,
    memory: &mut Memory<C>,
) -> Result<Result<SettledWorkspace, LoadFault>, PathFault> {
    let manifest = PathText::parse(alloc, "/w/Cargo.toml")?;
    let target = PathText::parse(alloc, "/w/target")?;
    Ok(load(alloc, memory, &manifest, &target))
}
