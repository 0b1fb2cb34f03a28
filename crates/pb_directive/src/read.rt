//! Reads the output of a build script.

ghost use Rattle.pb_directive.specs.Faults.{LineGives, TextGives};
ghost use Rattle.pb_directive.specs.Directives.{directives_at, new_setting, old_setting, metadata, line_directives, directives_of, Adds};
ghost use Rattle.pb_directive.specs.Lines.{split_first};

use crate::directive::{Directive, Directives, Key};
use crate::fault::{LineFault, Problem};
use crate::flags::add_flags;
use crate::keys::{key_of, new_key_of};
use crate::lines::{lines_of, trim_line};
use crate::texts::{after_prefix, has_nul, split_at_equals, text_of};
use crate::values::{halves, named_value, plain, unless_empty, variable};
use crate::words::words_of;
use pb_data::{Items, Text};
use std::alloc::Global;

/// Adds the directives of a key with a value.
fn add_at(alloc: Global, key: Key, value: &str, found: &mut Directives) -> Result<(), Problem>
    ensures { Adds result found.old found.new (directives_at key value.now) }
{
    let directive = match key {
        Key::RerunIfChanged => Directive::RerunIfChanged(unless_empty(alloc, value)?),
        Key::RerunIfEnvChanged => Directive::RerunIfEnvChanged(variable(alloc, value)?),
        Key::LinkArg => Directive::LinkArg(plain(alloc, value)?),
        Key::LinkArgBins => Directive::LinkArgBins(plain(alloc, value)?),
        Key::LinkArgCdylib => Directive::LinkArgCdylib(plain(alloc, value)?),
        Key::LinkArgTests => Directive::LinkArgTests(plain(alloc, value)?),
        Key::LinkArgExamples => Directive::LinkArgExamples(plain(alloc, value)?),
        Key::LinkArgBenches => Directive::LinkArgBenches(plain(alloc, value)?),
        Key::LinkArgBin => {
            let (name, flag) = halves(alloc, value)?;
            Directive::LinkArgBin(name, flag)
        }
        Key::LinkLib => Directive::LinkLib(unless_empty(alloc, value)?),
        Key::LinkSearch => Directive::LinkSearch(unless_empty(alloc, value)?),
        Key::Cfg => Directive::Cfg(unless_empty(alloc, value)?),
        Key::CheckCfg => Directive::CheckCfg(unless_empty(alloc, value)?),
        Key::Flags => {
            if has_nul(value) {
                return Err(Problem::BadValue);
            }
            return add_flags(alloc, words_of(value), found);
        }
        Key::Env => {
            let (name, value) = named_value(alloc, value)?;
            Directive::Env(name, value)
        }
        Key::Metadata => {
            let (name, value) = named_value(alloc, value)?;
            Directive::Metadata(name, value)
        }
        Key::Warning => Directive::Warning(Text::from_str(alloc, value)?),
        Key::Error => Directive::Error(Text::from_str(alloc, value)?),
    };
    found.push(directive)?;
    Ok(())
}

/// Adds the directives of what follows `cargo::`.
fn add_new(alloc: Global, setting: &str, found: &mut Directives) -> Result<(), Problem>
    ensures { Adds result found.old found.new (new_setting (split_first 61 setting.now)) }
{
    let Some((name, value)) = split_at_equals(setting) else {
        return Err(Problem::BadValue);
    };
    let Some(key) = new_key_of(name) else {
        return Err(Problem::UnknownKey);
    };
    add_at(alloc, key, value, found)
}

/// Returns metadata. The key must not be empty.
fn metadata(alloc: Global, name: &str, value: &str) -> Result<Directive, Problem>
    ensures { LineGives result (metadata name.now value.now) }
{
    let name = unless_empty(alloc, name)?;
    let value = plain(alloc, value)?;
    Ok(Directive::Metadata(name, value))
}

/// Adds the directives of what follows `cargo:`.
fn add_old(alloc: Global, setting: &str, found: &mut Directives) -> Result<(), Problem>
    ensures { Adds result found.old found.new (old_setting (split_first 61 setting.now)) }
{
    let Some((name, value)) = split_at_equals(setting) else {
        return Ok(());
    };
    if let Some(key) = key_of(name) {
        return add_at(alloc, key, value, found);
    }
    found.push(metadata(alloc, name, value)?)?;
    Ok(())
}

/// Adds the directives of a line.
fn add_line(alloc: Global, line: &[u8], found: &mut Directives) -> Result<(), Problem>
    ensures { Adds result found.old found.new (line_directives line.now) }
{
    let Some(text) = text_of(trim_line(line)) else {
        return Ok(());
    };
    if let Some(setting) = after_prefix("cargo::", text) {
        return add_new(alloc, setting, found);
    }
    if let Some(setting) = after_prefix("cargo:", text) {
        return add_old(alloc, setting, found);
    }
    Ok(())
}

/// Reads the output of a build script (The Cargo Book, "Build Scripts").
///
/// The text is read line by line. What follows the last line feed is a line too. Spaces, tabs and
/// carriage returns at both ends of a line are ignored. A line that is not UTF-8, or that begins
/// with neither `cargo::` nor `cargo:`, means nothing. After the prefix comes the key, up to the
/// first `=`.
///
/// After `cargo:`, a line without `=` means nothing. After `cargo:`, the keys `metadata` and
/// `error` and all unknown keys are metadata.
///
/// Errors: the error of the first faulty line, with the line's number, counted from 1:
///
/// - `UnknownKey`, if the key after `cargo::` is unknown (our own choice).
/// - `BadValue`, if there is no `=` after `cargo::`, or if the key does not accept the value.
/// - `BadFlag`, if a word of `rustc-flags` is neither `-l` nor `-L` with a name.
/// - `OutOfMemory`.
pub fn read_directives(alloc: Global, bytes: &[u8]) -> Result<Directives, LineFault>
    ensures { TextGives result (directives_of bytes.now) }
{
    let mut found = Items::new(alloc);
    let mut number: u64 = 1;
    for line in lines_of(bytes) {
        match add_line(alloc, line, &mut found) {
            Ok(()) => number += 1,
            Err(problem) => return Err(problem.at(number)),
        }
    }
    Ok(found)
}
