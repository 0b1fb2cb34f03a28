//! The names of crates.

ghost use Rattle.std.specs.Prelude.{◌≡◌, IfOk, option_map};
ghost use Rattle.pb_manifest_types.specs.Features.{parted};
ghost use Rattle.pb_manifest_types.specs.Letters.{underscored};
ghost use Rattle.pb_manifest_types.specs.Library.{library_name};

use crate::target::Library;
use pb_data::{Text, TryCopy};
use std::alloc::{AllocError, Global};

/// Returns the texts before and after the first `-`, if there is a `-`.
#[tactic(auto, unfolding(crate::specs::Features::parted))]
fn parted_at_dash(text: &str) -> Option<(&str, &str)>
    ensures { option_map (λ x. (x.0.now, x.1.now)) result ≡ parted 45 text.now }
{
    text.split_once('-')
}

/// Returns the crate name of a package or of a binary, with `_` for each `-` (The Cargo Book, Cargo
/// Targets).
///
/// Errors: out of memory only.
pub fn crate_name(alloc: Global, name: &str) -> Result<Text, AllocError>
    ensures { IfOk result (λ made. made ≡ underscored name.now) }
{
    let mut made = String::new(alloc);
    let mut left = name;
    while let Some((part, rest)) = parted_at_dash(left) {
        made.push_str(part)?;
        made.push_str("_")?;
        left = rest;
    }
    made.push_str(left)?;
    Ok(Text::new(made))
}

/// Returns the name of a package's library. The library's crate has the same name. If `[lib]`
/// writes no name, the result is the package's name as a crate name (The Cargo Book, Cargo
/// Targets).
///
/// Errors: out of memory only.
pub fn library_name(
    alloc: Global,
    package: &str,
    library: &Option<Library>,
) -> Result<Text, AllocError>
    ensures { IfOk result (λ made. made ≡ library_name «package».now library.now) }
{
    let written = match library {
        Some(library) => &library.name,
        None => return crate_name(alloc, package),
    };
    match written {
        Some(name) => name.copy(alloc),
        None => crate_name(alloc, package),
    }
}
