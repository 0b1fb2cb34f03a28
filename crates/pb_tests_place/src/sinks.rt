//! Sinks over writers of std.

use pb_place_types::{Out, Over};
use std::io::{self, Write};

/// A writer that takes at most three bytes of the first write and no byte of the second. All later
/// writes fail.
#[derive(Drop)]
struct Tiring {
    writes: u8,
}

impl Write for Tiring {
    fn write(&mut self, buf: &[u8]) -> io::Result<usize> {
        self.writes = self.writes.saturating_add(1);
        match self.writes {
            1 => Ok(buf.len().min(3)),
            2 => Ok(0),
            _ => Err(io::Error::from(io::ErrorKind::TimedOut)),
        }
    }

    fn flush(&mut self) -> io::Result<()> {
        Ok(())
    }
}

/// Returns whether a write takes this number of bytes, and whether this number of writes has failed
/// afterwards. `taken` is `None` if the write must fail.
fn takes<O: Out>(sink: &mut O, bytes: &str, taken: Option<usize>, failures: u64) -> bool {
    sink.write(bytes.as_bytes()) == taken && sink.failures() == failures
}

/// Writes to a list of bytes. For each write: its text, how many bytes are taken, and the number of
/// failures afterwards.
static OVER_BYTES: &[(&str, Option<usize>, u64)] = &[
    ("ab", Some(2), 0),
    ("", Some(0), 0),
    ("c", Some(1), 0),
];

/// The same, for a writer that tires.
static OVER_A_TIRING_WRITER: &[(&str, Option<usize>, u64)] = &[
    ("abcd", Some(3), 0),
    ("d", Some(0), 1),
    ("d", None, 2),
    ("", None, 3),
];

/// Returns whether each write takes what it is to take.
fn takes_all<O: Out>(sink: &mut O, cases: &[(&str, Option<usize>, u64)]) -> bool {
    for case in cases {
        let (bytes, taken, failures) = *case;
        if !takes(sink, bytes, taken, failures) {
            return false;
        }
    }
    true
}

/// Rules: `sinks.take`.
#[test]
fn sinks(rt: HostRuntime) {
    assert!(rt; takes_all(&mut Over::new(Vec::new(rt.alloc())), OVER_BYTES));
    assert!(rt; takes_all(&mut Over::new(Tiring { writes: 0 }), OVER_A_TIRING_WRITER));
}
