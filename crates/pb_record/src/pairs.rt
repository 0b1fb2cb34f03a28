//! Variables that a command sets.

ghost use Rattle.std.specs.Prelude.{◌≡◌, true, if◌then◌else◌, Some, None};
ghost use Rattle.pb_record.specs.Sorted.{are_sorted, leads};

use pb_data::{Items, Text};
use std::marker::Model;

/// Names and values of variables, sorted by name in byte order. Each name occurs once. Contracts
/// see the list of the pairs.
#[derive(Drop)]
pub struct Pairs {
    inside: Items<(Text, Text)>,
}

impl Model for Pairs {
    ghost use Rattle.std.specs.Prelude.{ℕ, List, ◌≡◌, true};

    ghost Value = { List (List ℕ × List ℕ) };

    ghost use Rattle.pb_record.specs.Sorted.{are_sorted};

    ghost view = { λ a. a.inside };

    ghost invariant = { λ a. are_sorted a.inside ≡ true };
}

/// Returns whether, in byte order, a name is before the name of the first of some pairs. Returns
/// true if there is no pair.
fn leads(name: &Text, pairs: &[(Text, Text)]) -> bool
    ensures { result ≡ leads name.now pairs.now }
{
    match pairs {
        [] => true,
        [next, ..] => name.cmp(&next.0).is_lt(),
    }
}

/// Returns whether each name is before the next name in byte order. The call takes no memory.
fn are_sorted(pairs: &[(Text, Text)]) -> bool
    ensures { result ≡ are_sorted pairs.now }
{
    let mut rest = pairs;
    while let [pair, after @ ..] = rest {
        if !leads(&pair.0, after) {
            return false;
        }
        rest = after;
    }
    true
}

impl Pairs {
    /// Returns the pairs of a list, or `None` if the list is not sorted by name or contains a name
    /// twice. The call takes no memory.
    pub fn of(inside: Items<(Text, Text)>) -> Option<Pairs>
        ensures { result ≡ (if are_sorted inside then Some inside else None) }
    {
        if !are_sorted(inside.as_slice()) {
            return None;
        }
        Some(Pairs { inside })
    }

    /// Returns the pairs.
    pub fn as_slice(&self) -> &[(Text, Text)]
        ensures pairs { result.now ≡ self.now }
        ensures sorted { are_sorted self.now ≡ true }
    {
        self.inside.as_slice()
    }

    /// Returns the pairs as borrowed items.
    pub(crate) fn as_items(&self) -> &Items<(Text, Text)>
        ensures pairs { result.now ≡ self.now }
        ensures sorted { are_sorted self.now ≡ true }
    {
        &self.inside
    }

    /// Returns the pairs as items. The call takes no memory.
    pub fn into_items(self) -> Items<(Text, Text)>
        ensures pairs { result ≡ self }
        ensures sorted { are_sorted self ≡ true }
    {
        self.inside
    }
}
