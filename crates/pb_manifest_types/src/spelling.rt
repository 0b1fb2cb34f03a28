//! How editions and crate types are spelled, in manifests and in arguments of the compiler.

ghost use Rattle.std.specs.Prelude.{◌≡◌, IfOk, map};
ghost use Rattle.pb_manifest_types.specs.Package.{edition_text};
ghost use Rattle.pb_manifest_types.specs.Library.{crate_type_text, crate_type_texts};

use crate::package::Edition;
use crate::target::CrateType;
use std::alloc::{AllocError, Global};

impl Edition {
    /// Returns the edition as a manifest and `--edition` spell it, such as `2021`.
    pub fn text(self) -> &'static str
        ensures { result.now ≡ edition_text self }
    {
        match self {
            Edition::E2015 => "2015",
            Edition::E2018 => "2018",
            Edition::E2021 => "2021",
            Edition::E2024 => "2024",
        }
    }
}

impl CrateType {
    /// Returns the crate type as a manifest and `--crate-type` spell it, such as `rlib`.
    pub fn text(self) -> &'static str
        ensures { result.now ≡ crate_type_text self }
    {
        match self {
            CrateType::Lib => "lib",
            CrateType::Rlib => "rlib",
            CrateType::Bin => "bin",
        }
    }
}

/// Returns the spellings of crate types.
fn texts_of(alloc: Global, crate_types: &[CrateType]) -> Result<Vec<&'static str>, AllocError>
    ensures { IfOk result (λ texts. map (λ t. t.now) texts.items
        ≡ map crate_type_text crate_types.now) }
{
    let mut texts = Vec::new(alloc);
    for crate_type in crate_types {
        texts.push(crate_type.text())?;
    }
    Ok(texts)
}

/// Returns the spellings of a library's crate types, in the manifest's order. If no crate type is
/// written, returns only `lib` (The Cargo Book, Cargo Targets).
///
/// Errors: out of memory only.
pub fn crate_type_texts(
    alloc: Global,
    crate_types: &[CrateType],
) -> Result<Vec<&'static str>, AllocError>
    ensures { IfOk result (λ texts. map (λ t. t.now) texts.items
        ≡ crate_type_texts crate_types.now) }
{
    if crate_types.is_empty() {
        let mut texts = Vec::new(alloc);
        texts.push("lib")?;
        return Ok(texts);
    }
    let texts = texts_of(alloc, crate_types)?;
    Ok(texts)
}
