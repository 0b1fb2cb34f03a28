//! Reads the keys that a profile or an override sets (The Cargo Book, Profiles).

ghost use Rattle.std.specs.Prelude.{◌≡◌};
ghost use Rattle.toml.specs.View.{view, table_view};
ghost use Rattle.pb_manifest.specs.Profiles.{number_in, written, setting_in, profile_value, profile_keys};
ghost use Rattle.pb_manifest_types.specs.declared.key.Key.TheVariants as names;

use crate::values::value_at;
use pb_manifest_types::{Key, ManifestFault, ProfileKey, ProfileKeys, Setting, Word};
use pb_profile_keys::{COUNT, meaning};
use toml::{Table, Value};

/// Returns a written number as the number of a setting, if the number is in the range of settings.
fn number_in(number: i64) -> Option<Setting>
    ensures { result ≡ number_in number }
{
    if 0 <= number && number < 4294967296 {
        Some(Setting::Number(number as u32))
    } else {
        None
    }
}

/// Returns a written value: a truth value, a number, or a word.
#[tactic(auto, unfolding(crate::specs::Profiles::written))]
fn setting_of(value: &Value) -> Option<Setting>
    ensures { result ≡ written (view value.now) }
{
    if let Some(truth) = value.as_bool() {
        return Some(Setting::Truth(truth));
    }
    if let Some(number) = value.as_integer() {
        return number_in(number);
    }
    match value.as_str() {
        Some(text) => match Word::of(text) {
            Some(word) => Some(Setting::Word(word)),
            None => None,
        },
        None => None,
    }
}

/// Returns what a written value means at a key, if the key may have this value.
#[tactic(auto, unfolding(crate::specs::Profiles::setting_in))]
fn setting_in(key: ProfileKey, value: &Value) -> Option<Setting>
    ensures { result ≡ setting_in key (view value.now) }
{
    match setting_of(value) {
        Some(written) => meaning(key.row().choices, written),
        None => None,
    }
}

/// Returns the value at a key, if the key is present.
fn setting_at(table: &Table, key: ProfileKey) -> Result<Option<Setting>, ManifestFault>
    ensures { result ≡ profile_value (setting_in key) (names.OfProfile key) (table_view table.now) }
{
    match value_at(table, Key::OfProfile(key)) {
        None => Ok(None),
        Some(value) => match setting_in(key, value) {
            Some(found) => Ok(Some(found)),
            None => Err(ManifestFault::BadProfile),
        },
    }
}

/// Returns the keys that a profile or an override sets.
pub(crate) fn profile_keys(table: &Table) -> Result<ProfileKeys, ManifestFault>
    ensures { result ≡ profile_keys (table_view table.now) }
{
    let mut keys = ProfileKeys::none();
    for i in 0..COUNT {
        let value = setting_at(table, ProfileKey::at(i))?;
        keys.set(i, value);
    }
    Ok(keys)
}
