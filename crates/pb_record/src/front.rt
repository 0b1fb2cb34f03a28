//! Reads the beginning of a text.

ghost use Rattle.std.specs.Prelude.{◌≡◌, ◌++◌, List, ℕ, MatchOption};

/// Returns what follows this front in a text, if the text begins with this front.
#[tactic(auto, using(crate::proofs::FrontLemmas::front_laws))]
pub(crate) fn after<'a>(front: &[u8], text: &'a [u8]) -> Option<&'a [u8]>
    ensures { MatchOption result ((rest : List ℕ) → text.now ≡ front.now ++ rest →
        ⊥) (λ rest. text.now ≡ front.now ++ rest.now) }
{
    text.strip_prefix(front)
}
