//! The fates of units if one of their reached units is not kept.

ghost use Rattle.std.specs.Prelude.{◌≡◌, option_map};
ghost use Rattle.pb_tool_preview.specs.Foreseeing.{ends_badly, first_unkept, is_kept, is_kept_at, waits_for};

use crate::fate::Fate;

/// Returns whether a unit is kept.
fn is_kept(fate: &Fate) -> bool
    ensures { result ≡ is_kept fate.now }
{
    matches!(fate, Fate::Kept)
}

/// Returns whether the unit at an index is kept.
fn is_kept_at(fates: &[Fate], index: usize) -> bool
    ensures { result ≡ is_kept_at fates.now index }
{
    match fates.get(index) {
        Some(fate) => is_kept(fate),
        None => false,
    }
}

/// Returns the first of these indices whose unit is not kept.
pub(crate) fn first_unkept(fates: &[Fate], reached: &[usize]) -> Option<usize>
    ensures { result ≡ first_unkept fates.now reached.now }
{
    reached
        .iter()
        .copied()
        .find(|index| !is_kept_at(fates, *index))
}

/// Returns whether a unit that reaches a unit of this fate never begins.
fn ends_badly(fate: Option<&Fate>) -> bool
    ensures { result ≡ ends_badly (option_map (λ fate. fate.now) fate.entry) }
{
    match fate {
        Some(Fate::Bad) => true,
        Some(Fate::Unreached(_)) => true,
        _ => false,
    }
}

/// Returns the fate of a unit if not all units that it reaches are kept. `index` is the index of
/// the first reached unit that is not kept.
pub(crate) fn waits_for(fates: &[Fate], index: usize) -> Fate
    ensures { result ≡ waits_for fates.now index }
{
    if ends_badly(fates.get(index)) {
        Fate::Unreached(index)
    } else {
        Fate::Waits(index)
    }
}
