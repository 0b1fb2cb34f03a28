//! The metadata that a build script passes on.

ghost use Rattle.std.specs.Prelude.{◌≡◌, IfOk, string_bytes};
ghost use Rattle.std.specs.Option.{option_map};
ghost use Rattle.pb_data.specs.Table.{with_entries};
ghost use Rattle.pb_directive.specs.Lines.{split_first};
ghost use Rattle.pb_directive.specs.Metadata.{underscored, in_capitals, dep_name, passed, dep_pairs};

use crate::directive::{Directive, Directives};
use pb_data::{Table, Text, TryCopy};
use std::alloc::{AllocError, Global};

/// Returns the texts before and after the first `-`, if there is a `-`.
fn split_at_dash(text: &str) -> Option<(&str, &str)>
    ensures { option_map (λ p. (p.0.now, p.1.now)) result ≡ split_first 45 text.now }
{
    text.split_once('-')
}

/// Returns a text with `_` for each `-`.
pub fn with_underscores(alloc: Global, text: &str) -> Result<String, AllocError>
    ensures { IfOk result (λ made. string_bytes made ≡ underscored text.now) }
{
    let mut made = String::new(alloc);
    let mut left = text;
    while let Some((part, rest)) = split_at_dash(left) {
        made.push_str(part)?;
        made.push_str("_")?;
        left = rest;
    }
    made.push_str(left)?;
    Ok(made)
}

/// Returns a text in upper case, with `_` for each `-`.
fn in_capitals(alloc: Global, text: &str) -> Result<String, AllocError>
    ensures { IfOk result (λ made. string_bytes made ≡ in_capitals text.now) }
{
    let upper = text.to_uppercase(alloc)?;
    let made = with_underscores(alloc, upper.as_str())?;
    Ok(made)
}

/// Returns the name of the variable that passes on a key of a package's metadata.
fn dep_name(alloc: Global, links: &str, key: &str) -> Result<Text, AllocError>
    ensures { IfOk result (λ name. name ≡ dep_name links.now key.now) }
{
    let links = in_capitals(alloc, links)?;
    let key = in_capitals(alloc, key)?;
    let mut name = String::from_str(alloc, "DEP_")?;
    name.push_str(links.as_str())?;
    name.push_str("_")?;
    name.push_str(key.as_str())?;
    Ok(Text::new(name))
}

/// Adds the variables that the metadata of one more build script sets, in printed order. A later
/// value replaces an earlier value, and a new name goes last. The variables have the same names as
/// in `dep_pairs`. The function takes the table and returns it, so that no caller sees a table to
/// which only some variables were added.
///
/// Errors: out of memory.
pub fn add_dep_pairs(
    alloc: Global,
    links: &str,
    directives: &Directives,
    pairs: Table<Text>,
) -> Result<Table<Text>, AllocError>
    ensures { IfOk result (λ after. after ≡ with_entries pairs (passed links.now directives.now)) }
{
    let mut after = pairs;
    for directive in directives.as_slice() {
        if let Directive::Metadata(key, value) = directive {
            let name = dep_name(alloc, links, key.as_str())?;
            after.insert(name, value.copy(alloc)?)?;
        }
    }
    Ok(after)
}

/// Returns the variables, with their values, that pass on the metadata of a build script. The
/// variables reach the build scripts of packages that directly need this build script's package
/// (The Cargo Book, "Build Scripts", "The `links` Manifest Key").
///
/// `links` is the value of `links` in the package's manifest. A variable's name is `DEP_LINKS_KEY`,
/// in which the value of `links` and the metadata's key are in upper case, with `_` for each `-`.
/// Each name occurs once, in order of first mention, with its last value.
///
/// Errors: out of memory.
pub fn dep_pairs(
    alloc: Global,
    links: &str,
    directives: &Directives,
) -> Result<Table<Text>, AllocError>
    ensures { IfOk result (λ pairs. pairs ≡ dep_pairs links.now directives.now) }
{
    let pairs = add_dep_pairs(alloc, links, directives, Table::new(alloc))?;
    Ok(pairs)
}
