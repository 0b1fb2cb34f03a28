//! What a package says about itself: written in its manifest, or taken from its workspace.

ghost use Rattle.std.specs.Prelude.{◌≡◌, ◌++◌, IfOk, IfErr, OnOk, false, string_bytes};
ghost use Rattle.pb_data.specs.UnlessOom.{UnlessOom};
ghost use Rattle.pb_workspace_package.specs.Causes.{is_failure};
ghost use Rattle.pb_workspace_package.specs.Taken.{own_or_given, text_of, further_authors, joined_authors, authors_of, from_member, license_file_of, readme_text, given_readme, readme_of, about_of};
ghost use Rattle.pb_workspace_types.specs.declared.fault.LoadFault.TheVariants as load_fault;

use crate::between::text_between;
use pb_data::{Items, Text, TryCopy};
use pb_manifest_types::{
    Edition, Inheritable, Inherited, Package, Readme, Version, WorkspacePackage,
};
use pb_place_types::{PathFault, PathText};
use pb_workspace_types::{About, LoadFault};
use std::alloc::{AllocError, Global};

/// Returns a package's version.
///
/// Errors: `NoInherited`, if the value is taken from a workspace that does not have it.
pub fn version_of(
    alloc: Global,
    own: &Inherited<Version>,
    given: &Option<Version>,
) -> Result<Version, LoadFault>
    ensures told { UnlessOom load_fault.OutOfMemory (λ version. version) result
        (own_or_given own.now given.now) }
    ensures here { IfErr result (λ e. is_failure e ≡ false) }
{
    match own {
        Inherited::Written(version) => Ok(version.copy(alloc)?),
        Inherited::Workspace => match given {
            Some(version) => Ok(version.copy(alloc)?),
            None => Err(LoadFault::NoInherited),
        },
    }
}

/// Returns a package's edition.
///
/// Errors: `NoInherited`, if the value is taken from a workspace that does not have it.
pub fn edition_of(own: &Inherited<Edition>, given: Option<Edition>) -> Result<Edition, LoadFault>
    ensures told { result ≡ own_or_given own.now given }
    ensures here { IfErr result (λ e. is_failure e ≡ false) }
{
    match own {
        Inherited::Written(edition) => Ok(*edition),
        Inherited::Workspace => match given {
            Some(edition) => Ok(edition),
            None => Err(LoadFault::NoInherited),
        },
    }
}

/// Returns a text of a package. If the manifest does not have this text, the result is empty.
fn text_of(alloc: Global, own: &Inheritable<Text>, given: &Option<Text>) -> Result<Text, LoadFault>
    ensures told { UnlessOom load_fault.OutOfMemory (λ text.
        text) result (text_of own.now given.now) }
    ensures here { IfErr result (λ e. is_failure e ≡ false) }
{
    match own {
        Inheritable::Written(text) => Ok(text.copy(alloc)?),
        Inheritable::Workspace => match given {
            Some(text) => Ok(text.copy(alloc)?),
            None => Err(LoadFault::NoInherited),
        },
        Inheritable::Absent => Ok(Text::from_str(alloc, "")?),
    }
}

/// Adds each author after a colon.
fn add_authors(text: &mut String, authors: &[Text]) -> Result<(), AllocError>
    ensures { OnOk result
        (string_bytes text.new ≡ string_bytes text.old ++ further_authors authors.now) }
{
    for author in authors {
        text.push_str(":")?;
        text.push_str(author.as_str())?;
    }
    Ok(())
}

/// Returns the authors with `:` between them.
fn joined_authors(alloc: Global, authors: &[Text]) -> Result<Text, AllocError>
    ensures { IfOk result (λ text. text ≡ joined_authors authors.now) }
{
    let (first, rest) = match authors {
        [] => return Text::from_str(alloc, ""),
        [first, rest @ ..] => (first, rest),
    };
    let mut text = String::from_str(alloc, first.as_str())?;
    add_authors(&mut text, rest)?;
    Ok(Text::new(text))
}

/// Returns the authors of a package.
fn authors_of(
    alloc: Global,
    own: &Inheritable<Items<Text>>,
    given: &Option<Items<Text>>,
) -> Result<Text, LoadFault>
    ensures told { UnlessOom load_fault.OutOfMemory (λ text. text) result
        (authors_of own.now given.now) }
    ensures here { IfErr result (λ e. is_failure e ≡ false) }
{
    match own {
        Inheritable::Written(authors) => Ok(joined_authors(alloc, authors.as_slice())?),
        Inheritable::Workspace => match given {
            Some(authors) => Ok(joined_authors(alloc, authors.as_slice())?),
            None => Err(LoadFault::NoInherited),
        },
        Inheritable::Absent => Ok(Text::from_str(alloc, "")?),
    }
}

/// Returns a path of the workspace as a path from the member's folder. The workspace's path starts
/// at the root folder. A text with byte 0 is not a path and stays unchanged.
fn from_member(
    alloc: Global,
    root: &PathText,
    folder: &PathText,
    text: &str,
) -> Result<Text, AllocError>
    ensures { IfOk result (λ made. made ≡ from_member root.now folder.now text.now) }
{
    match root.join(alloc, text) {
        Ok(path) => text_between(alloc, folder, &path),
        Err(PathFault::OutOfMemory) => Err(AllocError),
        Err(_) => Text::from_str(alloc, text),
    }
}

/// Returns `license-file`, as a path from the package's folder.
fn license_file_of(
    alloc: Global,
    root: &PathText,
    folder: &PathText,
    own: &Inheritable<Text>,
    given: &Option<Text>,
) -> Result<Text, LoadFault>
    ensures told { UnlessOom load_fault.OutOfMemory (λ text. text) result
        (license_file_of root.now folder.now own.now given.now) }
    ensures here { IfErr result (λ e. is_failure e ≡ false) }
{
    match own {
        Inheritable::Written(text) => Ok(text.copy(alloc)?),
        Inheritable::Workspace => match given {
            Some(text) => Ok(from_member(alloc, root, folder, text.as_str())?),
            None => Err(LoadFault::NoInherited),
        },
        Inheritable::Absent => Ok(Text::from_str(alloc, "")?),
    }
}

/// Returns the path that a written `readme` names.
fn readme_text(alloc: Global, readme: &Readme) -> Result<Text, AllocError>
    ensures { IfOk result (λ text. text ≡ readme_text readme.now) }
{
    match readme {
        Readme::Standard => Text::from_str(alloc, "README.md"),
        Readme::Never => Text::from_str(alloc, ""),
        Readme::At(path) => path.copy(alloc),
    }
}

/// Returns the workspace's README, as a path from the member's folder.
fn given_readme(
    alloc: Global,
    root: &PathText,
    folder: &PathText,
    readme: &Readme,
) -> Result<Text, AllocError>
    ensures { IfOk result (λ text. text ≡ given_readme root.now folder.now readme.now) }
{
    match readme {
        Readme::Standard => from_member(alloc, root, folder, "README.md"),
        Readme::Never => Text::from_str(alloc, ""),
        Readme::At(path) => from_member(alloc, root, folder, path.as_str()),
    }
}

/// Returns the README of a package. If the manifest does not mention a README, returns the README
/// that was found in the package's folder.
fn readme_of(
    alloc: Global,
    root: &PathText,
    folder: &PathText,
    found: &Text,
    own: &Inheritable<Readme>,
    given: &Option<Readme>,
) -> Result<Text, LoadFault>
    ensures told { UnlessOom load_fault.OutOfMemory (λ text. text) result
        (readme_of root.now folder.now found.now own.now given.now) }
    ensures here { IfErr result (λ e. is_failure e ≡ false) }
{
    match own {
        Inheritable::Written(readme) => Ok(readme_text(alloc, readme)?),
        Inheritable::Workspace => match given {
            Some(readme) => Ok(given_readme(alloc, root, folder, readme)?),
            None => Err(LoadFault::NoInherited),
        },
        Inheritable::Absent => Ok(found.copy(alloc)?),
    }
}

/// Returns what a package says about itself to people. `given` is what its workspace offers, and
/// `found` is the README of its folder. A path that is taken from the workspace becomes a path from
/// the package's folder.
///
/// Errors: `NoInherited`, if a key is taken from a workspace that does not have it.
pub fn about_of(
    alloc: Global,
    root: &PathText,
    folder: &PathText,
    found: &Text,
    said: &Package,
    given: &WorkspacePackage,
) -> Result<About, LoadFault>
    ensures told { UnlessOom load_fault.OutOfMemory (λ about. about) result
        (about_of root.now folder.now found.now said.now given.now) }
    ensures here { IfErr result (λ e. is_failure e ≡ false) }
{
    let authors = authors_of(alloc, &said.authors, &given.authors)?;
    let description = text_of(alloc, &said.description, &given.description)?;
    let homepage = text_of(alloc, &said.homepage, &given.homepage)?;
    let license = text_of(alloc, &said.license, &given.license)?;
    let license_file = license_file_of(
        alloc,
        root,
        folder,
        &said.license_file,
        &given.license_file,
    )?;
    let readme = readme_of(alloc, root, folder, found, &said.readme, &given.readme)?;
    let repository = text_of(alloc, &said.repository, &given.repository)?;
    let rust_version = text_of(alloc, &said.rust_version, &given.rust_version)?;
    Ok(About {
        authors,
        description,
        homepage,
        license,
        license_file,
        readme,
        repository,
        rust_version,
    })
}
