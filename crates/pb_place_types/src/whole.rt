//! Writing bytes into a sink, completely or as far as the sink takes them.

ghost use Rattle.std.specs.Prelude.{◌≡◌, ◌<◌, ◌≤◌, IsTrue, MatchOption, true, false, [], take, length};
ghost use Rattle.std.specs.Io.KnownBytes.{Appends};
ghost use Rattle.pb_place_types.specs.Counts.{up};
ghost use Rattle.pb_place_types.specs.Sinks.{TakesPart};

use crate::sink::Out;

/// Writes a prefix of some bytes, and returns its length, or `None` if the sink failed. A failing
/// sink takes nothing.
#[tactic(auto, using(crate::proofs::Wholes::took_laws))]
fn write_some<O: Out>(out: &mut O, bytes: &[u8]) -> Option<usize>
    requires { 0 < length bytes.now }
    ensures took { MatchOption result (Appends (O.heard out.old).taken (O.heard out.new).taken [])
        (λ n.
        (0 < n) × (n ≤ length bytes.now)
        × Appends (O.heard out.old).taken (O.heard out.new).taken (take n bytes.now)) }
    ensures faults { MatchOption result ((O.heard out.new).faults ≡ up (O.heard out.old).faults)
        (λ _. (O.heard out.new).faults ≡ (O.heard out.old).faults) }
{
    match out.write(bytes) {
        Some(count) => {
            if count == 0 {
                return None;
            }
            Some(count)
        }
        None => None,
    }
}

/// Writes all bytes, and returns whether the sink took them. If the sink did not take all bytes,
/// the sink counts more failures than before, and took only a prefix of the bytes. If there are no
/// bytes, the sink is not called.
pub fn write_all<O: Out>(out: &mut O, bytes: &[u8]) -> bool
    ensures all { IsTrue result
        → Appends (O.heard out.old).taken (O.heard out.new).taken bytes.now }
    ensures whole { IsTrue result → (O.heard out.new).faults ≡ (O.heard out.old).faults }
    ensures part { result ≡ false
        → TakesPart bytes.now (O.heard out.old).taken (O.heard out.new).taken }
    ensures fault { result ≡ false → (O.heard out.new).faults ≡ up (O.heard out.old).faults }
{
    let mut rest = bytes;
    while !rest.is_empty() {
        match write_some(out, rest) {
            Some(count) => rest = &rest[count..],
            None => return false,
        }
    }
    true
}
