//! Views for tests.

ghost use Rattle.std.specs.Prelude.{◌≡◌, IfOk};
ghost use Rattle.std.specs.Ordering.{nat_cmp};
ghost use Rattle.std.specs.Cmp.Lexicographic.{slice_cmp};
ghost use Rattle.std.specs.FinMap as finite;

use pb_data::{Bytes, Items, Text, TryCopy};
use pb_place_types::{PathText, View, ViewFault};
use std::alloc::{AllocError, Global};

/// Files by their paths and variables by their names. If two have the same name, the first one
/// counts.
#[derive(Drop)]
pub struct Files {
    /// The paths and the bytes.
    pub inside: Items<(Text, Bytes)>,
    /// The names and the values.
    pub variables: Items<(Text, Text)>,
}

/// Returns the bytes of the first file at a path.
fn file_at(alloc: Global, files: &[(Text, Bytes)], path: &str) -> Result<Option<Bytes>, AllocError>
    ensures { IfOk result (λ found. found ≡ finite.find (slice_cmp nat_cmp) path.now files.now) }
{
    for file in files {
        if path == file.0.as_str() {
            let bytes = file.1.copy(alloc)?;
            return Ok(Some(bytes));
        }
    }
    Ok(None)
}

/// Returns the value of the first variable of a name.
fn value_of(
    alloc: Global,
    variables: &[(Text, Text)],
    name: &str,
) -> Result<Option<Text>, AllocError>
    ensures { IfOk result (λ found. found ≡ finite.find
        (slice_cmp nat_cmp) name.now variables.now) }
{
    for variable in variables {
        if name == variable.0.as_str() {
            let value = variable.1.copy(alloc)?;
            return Ok(Some(value));
        }
    }
    Ok(None)
}

#[tactic(auto, using(crate::proofs::FilesShown::finds))]
impl View for Files {
    ghost use Rattle.std.specs.FinMap as finite;

    ghost shown = { λ v. record { files = finite.from_entries v.inside; variables = finite.from_entries v.variables } };

    ghost fails = { λ _. ⊥ };

    fn file(&self, alloc: Global, path: &PathText) -> Result<Option<Bytes>, ViewFault> {
        let found = file_at(alloc, self.inside.as_slice(), path.as_str())?;
        Ok(found)
    }

    fn variable(&self, alloc: Global, name: &str) -> Result<Option<Text>, ViewFault> {
        let found = value_of(alloc, self.variables.as_slice(), name)?;
        Ok(found)
    }
}

/// A view that always fails.
#[derive(Clone, Copy)]
pub struct Broken;

impl View for Broken {
    ghost use Rattle.std.specs.FinMap as finite;

    ghost shown = { λ _. record { files = finite.empty; variables = finite.empty } };

    ghost fails = { λ _. Unit {0} };

    fn file(&self, _: Global, _: &PathText) -> Result<Option<Bytes>, ViewFault> {
        Err(ViewFault::Failed)
    }

    fn variable(&self, _: Global, _: &str) -> Result<Option<Text>, ViewFault> {
        Err(ViewFault::Failed)
    }
}
