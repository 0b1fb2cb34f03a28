//! The children in flight at a place, and the starts that will fail at a place in memory.

ghost use Rattle.std.specs.Prelude.{◌≡◌, ℕ, true, false, IfSome, IfNone, Some, None, ◌<◌, ◌≤◌, ◌+◌, ◌==◌, length, take};
ghost use Rattle.std.specs.List.{list_any};
ghost use Rattle.pb_place_types.specs.Children.{is_flying, child_at};
ghost use Rattle.pb_place_types.specs.Counts.{without};
ghost use Rattle.pb_place.specs.InFlight.{children_in, entry_at, other_entries};
ghost use Rattle.pb_place.specs.Memory.{is_for, fate_of, other_deaths};

use pb_data::Text;
use pb_place_types::{ChildInFlight, PathText, StartFault};

/// A child in flight, and what a place stores with the child. A place in memory stores the fault
/// with which the child will end, if it will end with a fault. A real place stores the running
/// child.
#[derive(Drop)]
pub struct Flying<K> {
    /// The child.
    pub child: ChildInFlight,
    /// What the place stores with the child.
    pub kept: K,
}

/// A start that will fail: the next start whose folder has this name.
#[derive(Debug, Drop)]
pub struct Death {
    /// The name of the folder.
    pub key: Text,
    /// The fault with which the start fails.
    pub kind: StartFault,
}

/// Returns whether an entry has this ticket.
fn has_ticket<K>(flying: &[Flying<K>], ticket: u64) -> bool
    ensures { result ≡ list_any (λ f. f.child.ticket == ticket) flying.now }
{
    flying.iter().any(|f| f.child.ticket == ticket)
}

/// Returns whether a child with this ticket is in flight.
#[tactic(auto, using(crate::proofs::InFlight::flying_laws))]
pub fn flies<K>(flying: &[Flying<K>], ticket: u64) -> bool
    ensures { result ≡ is_flying ticket (children_in flying.now) }
{
    has_ticket(flying, ticket)
}

/// Returns the lowest number that no child in flight has. This number is at most the number of
/// children, so the result is never `None`. The contract promises less: if the result is `None`,
/// all numbers up to the number of children are taken.
#[tactic(auto, using(crate::proofs::InFlight::flying_laws))]
pub fn free_ticket<K>(flying: &[Flying<K>]) -> Option<u64>
    ensures free { IfSome result (λ ticket. is_flying ticket (children_in flying.now) ≡ false) }
    ensures lowest { IfSome result (λ ticket. (t : ℕ) → t < ticket
        → is_flying t (children_in flying.now) ≡ true) }
    ensures taken { (t : ℕ) → t ≤ length flying.now
        → IfNone result (is_flying t (children_in flying.now) ≡ true) }
{
    for ticket in 0..=flying.len() as u64 {
        if !flies(flying, ticket) {
            return Some(ticket);
        }
    }
    None
}

/// Returns the index of the first child with this ticket.
fn index_of_ticket<K>(flying: &[Flying<K>], ticket: u64) -> Option<usize>
    ensures some { IfSome result (λ i. (i < length flying.now)
        × (list_any (λ f. f.child.ticket == ticket) (take i flying.now) ≡ false)
        × (list_any (λ f. f.child.ticket == ticket) (take (i + 1) flying.now) ≡ true)) }
    ensures none { IfNone result (list_any (λ f. f.child.ticket == ticket) flying.now ≡ false) }
{
    for i in 0..flying.len() {
        if flying[i].child.ticket == ticket {
            return Some(i);
        }
    }
    None
}

/// Removes and returns the first child with this ticket. If there is no such child, nothing
/// changes.
pub fn take_out<K: Drop>(flying: &mut Vec<Flying<K>>, ticket: u64) -> Option<Flying<K>>
    ensures entry { IfSome result (λ f. (entry_at ticket flying.old.items ≡ Some f)
        × (flying.new.items ≡ other_entries ticket flying.old.items)) }
    ensures some { IfSome result
        (λ f. (child_at ticket (children_in flying.old.items) ≡ Some f.child)
        × (children_in flying.new.items ≡ without ticket (children_in flying.old.items))) }
    ensures none { IfNone result (is_flying ticket (children_in flying.old.items) ≡ false) }
    ensures kept { IfNone result (flying.new.items ≡ flying.old.items) }
{
    match index_of_ticket(flying.as_slice(), ticket) {
        Some(place) => Some(flying.remove(place)),
        None => None,
    }
}

/// Returns whether a planned fault (a death) waits for a child with this folder.
fn is_for(out: &Option<PathText>, death: &Death) -> bool
    ensures { result ≡ is_for out.now death.now }
{
    match out {
        Some(out) => death.key.as_str() == out.last_part(),
        None => false,
    }
}

/// Returns the index of the first death that waits for a child with this folder.
fn index_of_death(deaths: &[Death], out: &Option<PathText>) -> Option<usize>
    ensures some { IfSome result (λ i. (i < length deaths.now)
        × (list_any (is_for out.now) (take i deaths.now) ≡ false)
        × (list_any (is_for out.now) (take (i + 1) deaths.now) ≡ true)) }
    ensures none { IfNone result (list_any (is_for out.now) deaths.now ≡ false) }
{
    for i in 0..deaths.len() {
        if is_for(out, &deaths[i]) {
            return Some(i);
        }
    }
    None
}

/// Returns the fault with which the next start with this folder will fail, if a death waits for
/// this folder.
pub(crate) fn fate(deaths: &[Death], out: &Option<PathText>) -> Option<StartFault>
    ensures { result ≡ fate_of out.now deaths.now }
{
    match index_of_death(deaths, out) {
        Some(place) => Some(deaths[place].kind),
        None => None,
    }
}

/// Removes the first death that waits for this folder.
pub(crate) fn drop_death(deaths: &mut Vec<Death>, out: &Option<PathText>)
    ensures { deaths.new.items ≡ other_deaths out.now deaths.old.items }
{
    match index_of_death(deaths.as_slice(), out) {
        Some(place) => {
            deaths.remove(place);
        }
        None => {}
    }
}
