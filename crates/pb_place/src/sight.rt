//! What a child sees of a place in memory.

ghost use Rattle.std.specs.Prelude.{◌≡◌, IfOk};
ghost use Rattle.std.specs.List.{list_any};
ghost use Rattle.std.specs.FinMap as map;
ghost use Rattle.pb_place_types.specs.Paths.{is_below};
ghost use Rattle.pb_place_types.specs.World.{is_shown};

use pb_data::{Bytes, Text, TryCopy};
use pb_place_types::{Command, FileMap, PathText, TextMap, View, ViewFault};
use std::alloc::{AllocError, Global};

/// Returns whether any of some folders is above a path.
fn is_below_any(folders: &[PathText], path: &PathText) -> bool
    ensures { result ≡ list_any (λ folder. is_below folder path.now) folders.now }
{
    folders.iter().any(|folder| path.is_below(folder))
}

/// Returns whether a child sees a path.
#[tactic(auto, unfolding(pb_place_types::specs::World::is_shown))]
fn shows(command: &Command, path: &PathText) -> bool
    ensures { result ≡ is_shown command.now path.now }
{
    !path.starts_with(&command.target) || is_below_any(command.reads.as_slice(), path)
}

/// What a child sees of a place in memory. Looking fails only if memory runs out.
#[derive(Drop)]
pub(crate) struct Sight<'a> {
    pub(crate) files: &'a FileMap,
    pub(crate) variables: &'a TextMap,
    pub(crate) command: &'a Command,
}

impl<'a> View for Sight<'a> {
    ghost use Rattle.pb_place_types.specs.World.{seen_by};

    ghost shown = { λ s. seen_by s.command.now
        record { files = s.files.now; variables = s.variables.now } };

    ghost fails = { λ _. ⊥ };

    #[tactic(auto, using(pb_place_types::proofs::MapLemmas::kept_laws))]
    fn file(&self, alloc: Global, path: &PathText) -> Result<Option<Bytes>, ViewFault> {
        if !shows(self.command, path) {
            return Ok(None);
        }
        let found = file_in(alloc, self.files, path)?;
        Ok(found)
    }

    fn variable(&self, alloc: Global, name: &str) -> Result<Option<Text>, ViewFault> {
        let found = self.variables.get(alloc, name)?;
        Ok(found)
    }
}

/// Returns a copy of a file, if the file exists.
pub(crate) fn file_in(
    alloc: Global,
    files: &FileMap,
    path: &PathText,
) -> Result<Option<Bytes>, AllocError>
    ensures { IfOk result (λ found. found ≡ map.get files.now path.now) }
{
    match files.get(path) {
        Some(bytes) => Ok(Some(bytes.copy(alloc)?)),
        None => Ok(None),
    }
}
