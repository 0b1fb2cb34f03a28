//! The settings of a compile as arguments of the compiler (The Cargo Book, Profiles).

ghost use Rattle.std.specs.Prelude.{◌≡◌, ◌++◌, IfOk, OnOk, string_bytes};
ghost use Rattle.std.specs.List.{flat_map};
ghost use Rattle.pb_command_arguments.specs.Words.{setting, value_text, is_binary, is_value, is_untold, key_words, settings_words};

use crate::words::{join_two, push_option};
use pb_data::{Items, Text};
use pb_profile::Settings;
use pb_profile_keys::{ProfileKey, Setting, told_keys};
use pb_unit::What;
use std::alloc::{AllocError, Global};

/// Adds `-C` and a setting.
#[tactic(auto, unfolding(crate::specs::Words::setting))]
pub(crate) fn push_setting(
    alloc: Global,
    words: &mut Items<Text>,
    key: &str,
    value: &str,
) -> Result<(), AllocError>
    ensures { OnOk result (words.new ≡ words.old ++ setting key.now value.now) }
{
    let text = join_two(alloc, key, value)?;
    push_option(alloc, words, "-C", text.as_str())?;
    Ok(())
}

/// Returns whether a unit is a binary.
fn is_binary(what: &What) -> bool
    ensures { result ≡ is_binary what.now }
{
    match what {
        What::Bin(_) => true,
        _ => false,
    }
}

/// Returns whether `other` is a value, and is equal to `value`.
fn is_value(other: Option<Setting>, value: Setting) -> bool
    ensures { result ≡ is_value other value }
{
    match other {
        Some(other) => other.is_same(value),
        None => false,
    }
}

/// Returns whether a key with this value adds no option.
fn is_untold(what: &What, key: ProfileKey, value: Setting) -> bool
    ensures { result ≡ is_untold what.now key value }
{
    let row = key.row();
    (row.of_binaries && !is_binary(what)) || is_value(row.untold, value)
}

/// Returns a setting as the compiler spells it, with this word for `true`.
fn value_text(alloc: Global, shown: &str, value: Setting) -> Result<String, AllocError>
    ensures { IfOk result (λ text. string_bytes text ≡ value_text shown.now value) }
{
    match value {
        Setting::Truth(true) => String::from_str(alloc, shown),
        Setting::Truth(false) => String::from_str(alloc, "off"),
        Setting::Number(number) => number.to_string(alloc),
        Setting::Word(word) => String::from_str(alloc, word.spelling()),
    }
}

/// Adds the option of a key, if there is such an option.
fn push_key(
    alloc: Global,
    words: &mut Items<Text>,
    what: &What,
    settings: &Settings,
    key: ProfileKey,
) -> Result<(), AllocError>
    ensures { OnOk result (words.new ≡ words.old ++ key_words what.now settings.now key) }
{
    let value = settings.get(key);
    if is_untold(what, key, value) {
        return Ok(());
    }
    let row = key.row();
    let text = value_text(alloc, row.yes, value)?;
    push_setting(alloc, words, row.option, text.as_str())
}

/// Adds the options of these keys.
fn push_keys(
    alloc: Global,
    words: &mut Items<Text>,
    what: &What,
    settings: &Settings,
    keys: &[ProfileKey],
) -> Result<(), AllocError>
    ensures { OnOk result (words.new
        ≡ words.old ++ flat_map (key_words what.now settings.now) keys.now) }
{
    for key in keys {
        push_key(alloc, words, what, settings, *key)?;
    }
    Ok(())
}

/// Adds the settings of a compile, as options of the compiler (The Cargo Book, Profiles).
///
/// Errors: only out of memory.
pub fn push_settings(
    alloc: Global,
    words: &mut Items<Text>,
    what: &What,
    settings: &Settings,
) -> Result<(), AllocError>
    ensures { OnOk result (words.new ≡ words.old ++ settings_words what.now settings.now) }
{
    push_keys(alloc, words, what, settings, told_keys())
}
