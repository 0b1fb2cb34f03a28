//! Sinks, to which message lines are written.

ghost use Rattle.std.specs.Prelude.{◌≡◌, ◌≤◌, length, take, MatchOption};
ghost use Rattle.std.specs.Io.KnownBytes.{Keeps, Appends};
ghost use Rattle.pb_place_types.specs.Sinks.{SinkState, sunk};

use std::io::Write;

/// A sink of bytes.
pub trait Out {
    /// The bytes that the sink took, if the sink reports them, and how many writes failed.
    ghost heard: { Self → SinkState };

    /// Takes a prefix of some bytes, and returns its length, or `None` if the write fails. A write
    /// that takes no byte although there are bytes has failed, too.
    fn write(&mut self, bytes: &[u8]) -> Option<usize>
        ensures bound { MatchOption result
            (Keeps (heard self.old).taken (heard self.new).taken)
            (λ n. (n ≤ length bytes.now)
            × Appends (heard self.old).taken (heard self.new).taken (take n bytes.now)) }
        ensures faults { (heard self.new).faults ≡ sunk result bytes.now (heard self.old).faults };

    /// Returns how many writes failed, at most `u64::MAX`. The call takes no memory.
    fn failures(&self) -> u64
        ensures { result ≡ (heard self.now).faults };
}

/// A sink over a writer of std. The writer is never flushed.
#[derive(Drop)]
pub struct Over<W> {
    writer: W,
    failures: u64,
}

impl<W: Write> Over<W> {
    /// Returns a sink over a writer, with no failure yet.
    pub fn new(writer: W) -> Over<W>
        ensures { ⟦<Over<W> as Out>⟧.heard result
            ≡ record { taken = W.contents writer; faults = 0 } }
    {
        Over {
            writer,
            failures: 0,
        }
    }
}

impl<W: Write> Out for Over<W> {
    ghost heard = { λ o. record { taken = W.contents o.writer; faults = o.failures } };

    fn write(&mut self, bytes: &[u8]) -> Option<usize> {
        match self.writer.write(bytes) {
            Ok(count) => {
                if count == 0 && !bytes.is_empty() {
                    self.failures = self.failures.saturating_add(1);
                }
                Some(count)
            }
            Err(_) => {
                self.failures = self.failures.saturating_add(1);
                None
            }
        }
    }

    fn failures(&self) -> u64 {
        self.failures
    }
}
