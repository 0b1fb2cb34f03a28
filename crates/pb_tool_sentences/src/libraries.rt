//! Notes on packages that dependencies name although the packages have no library.

ghost use Rattle.std.specs.Prelude.{◌≡◌, ◌++◌, IfOk, OnOk, string_bytes, codes};
ghost use Rattle.pb_tool_sentences.specs.Libraries.{manifest_named, notes_of};

use pb_data::Text;
use pb_workspace_types::Package;
use std::alloc::{AllocError, Global};

/// Returns the path of the manifest of the package with this name. Returns an empty text if there
/// is no such package.
fn manifest_named<'a>(packages: &'a [Package], name: &str) -> &'a str
    ensures { result.now ≡ manifest_named packages.now name.now }
{
    for package in packages {
        if package.name.as_str() == name {
            return package.manifest.as_str();
        }
    }
    ""
}

/// Adds a line for a package without a library.
fn push_note(notes: &mut String, manifest: &str, name: &str) -> Result<(), AllocError>
    ensures { OnOk result (string_bytes notes.new ≡ string_bytes notes.old ++ codes "note: in "
        ++ manifest.now ++ codes ": " ++ name.now ++ codes " has no library\n") }
{
    notes.push_str("note: in ")?;
    notes.push_str(manifest)?;
    notes.push_str(": ")?;
    notes.push_str(name)?;
    notes.push_str(" has no library\n")?;
    Ok(())
}

/// Returns a line for each package with one of these names. These packages have no library.
///
/// Errors: out of memory.
pub fn notes_of(alloc: Global, packages: &[Package], names: &[Text]) -> Result<String, AllocError>
    ensures { IfOk result (λ notes. string_bytes notes ≡ notes_of packages.now names.now) }
{
    let mut notes = String::new(alloc);
    for name in names {
        let manifest = manifest_named(packages, name.as_str());
        push_note(&mut notes, manifest, name.as_str())?;
    }
    Ok(notes)
}
