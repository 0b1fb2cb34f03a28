//! Laws about what a failing call of a place may leave. The definition allows at least these cases.

ghost use Rattle.std.specs.Prelude.{ℕ, List, take};
ghost use Rattle.std.specs.FinMap as map;
ghost use Rattle.pb_place_types.specs.World.{World, Torn, PartlyRemoved, written, removed};

use std::test::Fail;

/// A law: a write that failed may leave the old file, a prefix of the new bytes, or no file.
fn torn_writes()
    ensures old { (path bytes : List ℕ) (w : World) → Torn path bytes w w }
    ensures first { (path bytes : List ℕ) (n : ℕ) (w : World)
        → Torn path bytes w (written path (take n bytes) w) }
    ensures none { (path bytes : List ℕ) (w : World)
        → Torn path bytes w record w { files = map.remove w.files path } }
{}

/// A law: a removal that failed may leave every file, or none.
fn partial_removals()
    ensures all { (path : List ℕ) (w : World) → PartlyRemoved path w w }
    ensures none { (path : List ℕ) (w : World) → PartlyRemoved path w (removed path w) }
{}

/// Rules: `places.calls`.
#[test]
fn failing_calls(_rt: HostRuntime) -> Result<(), Fail> {
    torn_writes();
    partial_removals();
    Ok(())
}
