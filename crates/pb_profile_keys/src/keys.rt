//! What a profile or an override sets: for each key a value or no value.

ghost use Rattle.std.specs.Prelude.{◌≡◌, ◌<◌, length, set};
ghost use Rattle.pb_profile_keys.specs.Table.{keys};
ghost use Rattle.pb_profile_keys.specs.Keys.{Said, says, no_keys};

use crate::key::{COUNT, ProfileKey};
use crate::setting::Setting;
use std::marker::Model;

/// The keys that a profile or an override sets. A key that is not written has no value. Contracts
/// see a list with an optional value for each key.
#[derive(Clone, Copy)]
pub struct ProfileKeys {
    values: [Option<Setting>; COUNT],
}

impl Model for ProfileKeys {
    ghost Value = { Said };

    ghost view = { λ k. k.values };

    ghost inverse = { λ values. record { values = values } };
}

impl ProfileKeys {
    /// Returns keys without values.
    pub fn none() -> ProfileKeys
        ensures { result ≡ no_keys }
    {
        ProfileKeys {
            values: [None; COUNT],
        }
    }

    /// Returns the value of a key, if the key is set.
    pub fn get(&self, key: ProfileKey) -> Option<Setting>
        ensures { result ≡ says self.now key }
    {
        self.values[key.index()]
    }

    /// Sets the value of the key at an index.
    pub fn set(&mut self, i: usize, value: Option<Setting>)
        requires { i < length keys }
        ensures { self.new ≡ set self.old i value }
    {
        self.values[i] = value;
    }
}
