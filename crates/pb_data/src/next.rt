//! Puts a value and the value of a next result together.

ghost use Rattle.std.specs.Prelude.{◌≡◌, Ok, Err, IfOk, IfErr, MatchResult};

/// Returns a value together with the next value, or the fault that came instead of the next value.
/// After such a fault, this function drops the first value. One proof covers this drop for all
/// types. A `?` in the caller would instead drop each field of the first value, and each drop would
/// need a proof of its own.
pub fn with_next<A: Drop, B: Drop, E: Drop>(value: A, next: Result<B, E>) -> Result<(A, B), E>
    ensures whole { MatchResult next (λ b. result ≡ Ok (value, b)) (λ e. result ≡ Err e) }
    ensures both { IfOk result (λ pair. (pair.0 ≡ value) × (next ≡ Ok pair.1)) }
    ensures fault { IfErr result (λ e. next ≡ Err e) }
{
    match next {
        Ok(next) => Ok((value, next)),
        Err(fault) => Err(fault),
    }
}
