//! The subject of message lines: a package, and one of its targets.

ghost use Rattle.std.specs.Prelude.{◌≡◌, IfOk, map};
ghost use Rattle.pb_manifest_types.specs.Library.{crate_type_texts};
ghost use Rattle.pb_message.specs.Targets.{library_target, binary_target, script_target};

use pb_data::{Items, Text};
use pb_manifest_types::{CrateType, Edition, crate_type_texts};
use pb_place_types::PathText;
use std::alloc::{AllocError, Global};

/// A target of a package, as message lines describe it (The Cargo Book, External Tools).
#[derive(Drop)]
pub struct Target {
    /// The target's kinds: a library's crate types, `bin`, or `custom-build` for a script.
    pub kinds: Items<Text>,
    /// The crate types to which the target is compiled: the crate types of a library, and `bin` for
    /// any other target.
    pub crate_types: Items<Text>,
    /// A library's crate name, a binary's name, or `build-script-build`.
    pub name: Text,
    /// The path of the source.
    pub source: PathText,
    /// The edition.
    pub edition: Edition,
    /// The features that a binary requires. If there are no required features, the line has no
    /// member for them.
    pub required_features: Items<Text>,
}

/// The package and the target that message lines describe.
#[derive(Drop)]
pub struct Subject {
    /// The package's name.
    pub name: Text,
    /// The package's version, as it is written.
    pub version: Text,
    /// The package's folder.
    pub folder: PathText,
    /// The path of the package's manifest.
    pub manifest: PathText,
    /// The target.
    pub target: Target,
}

/// Returns owned copies of texts.
fn copy_texts(alloc: Global, texts: &[&str]) -> Result<Items<Text>, AllocError>
    ensures { IfOk result (λ made. made ≡ map (λ t. t.now) texts.now) }
{
    let mut made = Items::new(alloc);
    for text in texts {
        made.push(Text::from_str(alloc, *text)?)?;
    }
    Ok(made)
}

/// Returns the crate types of a library.
fn library_types(alloc: Global, crate_types: &[CrateType]) -> Result<Items<Text>, AllocError>
    ensures { IfOk result (λ made. made ≡ crate_type_texts crate_types.now) }
{
    let texts = crate_type_texts(alloc, crate_types)?;
    copy_texts(alloc, texts.as_slice())
}

impl Target {
    /// Returns the target of a library, from its crate types in the manifest's order and its crate
    /// name.
    ///
    /// Errors: out of memory only.
    pub fn library(
        alloc: Global,
        crate_types: &[CrateType],
        name: Text,
        source: PathText,
        edition: Edition,
    ) -> Result<Target, AllocError>
        ensures { IfOk result (λ made. made ≡ library_target crate_types.now name source edition) }
    {
        let kinds = library_types(alloc, crate_types)?;
        let crate_types = library_types(alloc, crate_types)?;
        Ok(Target {
            kinds,
            crate_types,
            name,
            source,
            edition,
            required_features: Items::new(alloc),
        })
    }

    /// Returns the target of a binary with this name and these required features.
    ///
    /// Errors: out of memory only.
    pub fn binary(
        alloc: Global,
        name: Text,
        source: PathText,
        edition: Edition,
        required_features: Items<Text>,
    ) -> Result<Target, AllocError>
        ensures { IfOk result (λ made. made ≡ binary_target name source edition required_features) }
    {
        let kinds = copy_texts(alloc, &["bin"])?;
        let crate_types = copy_texts(alloc, &["bin"])?;
        Ok(Target {
            kinds,
            crate_types,
            name,
            source,
            edition,
            required_features,
        })
    }

    /// Returns the target of a build script.
    ///
    /// Errors: out of memory only.
    pub fn script(alloc: Global, source: PathText, edition: Edition) -> Result<Target, AllocError>
        ensures { IfOk result (λ made. made ≡ script_target source edition) }
    {
        let kinds = copy_texts(alloc, &["custom-build"])?;
        let crate_types = copy_texts(alloc, &["bin"])?;
        let name = Text::from_str(alloc, "build-script-build")?;
        Ok(Target {
            kinds,
            crate_types,
            name,
            source,
            edition,
            required_features: Items::new(alloc),
        })
    }
}
