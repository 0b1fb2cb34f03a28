//! The sentence about a fault that ends a build.

ghost use Rattle.std.specs.Prelude.{◌≡◌, IfOk, string_bytes};
ghost use Rattle.pb_build_result.specs.Sentence.{build_sentence};

use crate::failures::{device_sentence, start_sentence};
use crate::fault::BuildFault;
use crate::refusals::refusal_sentence;
use crate::texts::because;
use std::alloc::{AllocError, Global};

/// Returns why a build ends without a summary.
///
/// Errors: out of memory.
pub fn build_sentence(alloc: Global, fault: &BuildFault) -> Result<String, AllocError>
    ensures { IfOk result (λ text. string_bytes text ≡ build_sentence fault.now) }
{
    match fault {
        BuildFault::Plan(refusal) => refusal_sentence(alloc, refusal),
        BuildFault::Toolchain => String::from_str(
            alloc,
            "the compiler did not report its version and host",
        ),
        BuildFault::Child { unit, fault } => {
            let why = start_sentence(*fault);
            because(alloc, "`", unit.as_str(), "` gave no answer: ", why)
        }
        BuildFault::Device { unit, fault } => {
            let why = device_sentence(*fault);
            because(alloc, "a call for `", unit.as_str(), "` failed: ", why)
        }
        BuildFault::Sink => String::from_str(alloc, "the message lines cannot be written"),
        BuildFault::OutOfMemory => String::from_str(alloc, "out of memory"),
    }
}
