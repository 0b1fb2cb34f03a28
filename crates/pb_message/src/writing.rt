//! Writing lines into a sink.

ghost use Rattle.std.specs.Prelude.{◌≡◌, OnOk, OnErr};
ghost use Rattle.std.specs.Io.KnownBytes.{Appends};
ghost use Rattle.pb_place_types.specs.Counts.{up};
ghost use Rattle.pb_place_types.specs.Sinks.{TakesPart};

use pb_place_types::{Out, write_all};

/// The sink did not take all of the bytes.
#[derive(Clone, Copy, Debug, PartialEq, Eq)]
pub struct SinkFault;

/// Writes lines into a sink. After success all bytes are written. After an error a prefix of the
/// bytes is written, but not all of them.
///
/// Errors: `SinkFault`, if the sink fails, or takes no byte of a write. After this error the number
/// of the sink's failures has risen, and nothing more is written.
pub fn write_lines<O: Out>(out: &mut O, lines: &str) -> Result<(), SinkFault>
    ensures all { OnOk result (Appends (O.heard out.old).taken (O.heard out.new).taken lines.now) }
    ensures whole { OnOk result ((O.heard out.new).faults ≡ (O.heard out.old).faults) }
    ensures part { OnErr result
        (TakesPart lines.now (O.heard out.old).taken (O.heard out.new).taken) }
    ensures fault { OnErr result ((O.heard out.new).faults ≡ up (O.heard out.old).faults) }
{
    if write_all(out, lines.as_bytes()) {
        Ok(())
    } else {
        Err(SinkFault)
    }
}
