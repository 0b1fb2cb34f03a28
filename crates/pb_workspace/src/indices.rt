//! The indices of packages, by the packages' folders.

ghost use Rattle.std.specs.Prelude.{◌≡◌, IfOk};
ghost use Rattle.std.specs.Option.{option_copied};
ghost use Rattle.pb_workspace.specs.Indices.{indices_of, draft_in};

use crate::by_folder::ByFolder;
use pb_data::TryCopy;
use pb_place_types::PathText;
use pb_workspace_package::UnresolvedPackage;
use std::alloc::{AllocError, Global};

/// Returns each folder with the index of its package.
///
/// Errors: out of memory only.
pub fn indices_of(
    alloc: Global,
    drafts: &[UnresolvedPackage],
) -> Result<ByFolder<usize>, AllocError>
    ensures { IfOk result (λ indices. indices ≡ indices_of drafts.now) }
{
    let mut indices = ByFolder::new(alloc);
    for (index, draft) in drafts.iter().enumerate() {
        indices.insert(draft.folder.copy(alloc)?, index)?;
    }
    Ok(indices)
}

/// Returns the package of a folder.
pub fn draft_in<'a>(
    drafts: &'a [UnresolvedPackage],
    indices: &ByFolder<usize>,
    folder: &PathText,
) -> Option<&'a UnresolvedPackage>
    requires { indices.now ≡ indices_of drafts.now }
    ensures { option_copied result ≡ draft_in drafts.now folder.now }
{
    match indices.get(folder) {
        Some(index) => drafts.get(*index),
        None => None,
    }
}
