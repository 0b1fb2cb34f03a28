//! A sink on which the levels of lines have colours.

ghost use Rattle.std.specs.Prelude.{◌≡◌, ◌<◌, ◌==◌, Bool, false, length, None, IsTrue, IsFalse};
ghost use Rattle.pb_place_types.specs.Counts.{up};
ghost use Rattle.pb_place_types.specs.Sinks.{SinkState};

use pb_place_types::{Out, write_all};

/// The bytes that end a colour.
const PLAIN: &[u8] = b"\x1b[0m";

const RED: &[u8] = b"\x1b[1;31m";

const YELLOW: &[u8] = b"\x1b[1;33m";

const CYAN: &[u8] = b"\x1b[1;36m";

/// A sink for people that can also show levels in colours.
pub trait Coloring: Out {
    /// How colours are switched. The relation is between the sink before, a setting, and the sink
    /// after. The setting is whether the sink shows colours from then on.
    ghost colors: { Self → Bool → Self → Type 0 };

    /// Sets whether levels have colours from now on. The sink keeps what it has received.
    fn color(&mut self, on: bool)
        ensures colors { colors self.old on self.new }
        ensures heard { Self.heard self.new ≡ Self.heard self.old };
}

/// A sink over another sink. If colours are on, the level at the start of a line, as `warning` in
/// `warning: ..`, has a colour on the other sink. Each write starts a line. A write fails if and
/// only if a write of the other sink fails.
#[derive(Drop)]
pub struct Colored<S> {
    inside: S,
    /// Whether levels have colours.
    on: bool,
}

/// Returns the colour of a level, if the word is a level.
fn color_of(word: &[u8]) -> Option<&'static [u8]> {
    if word == b"error".as_slice() {
        return Some(RED);
    }
    if word == b"warning".as_slice() {
        return Some(YELLOW);
    }
    if word == b"note".as_slice() || word == b"help".as_slice() {
        return Some(CYAN);
    }
    None
}

/// Writes a line. If the line begins with a level, the level has a colour. Returns whether the
/// whole line was written.
fn write_line<S: Out>(sink: &mut S, line: &[u8]) -> bool
    ensures whole { IsTrue result → (S.heard sink.new).faults ≡ (S.heard sink.old).faults }
    ensures fault { result ≡ false → (S.heard sink.new).faults ≡ up (S.heard sink.old).faults }
{
    let end = line.iter().position(|byte| *byte == b':' || *byte == b'[');
    let (word, rest) = line.split_at(end.unwrap_or(0));
    match color_of(word) {
        Some(color) => {
            write_all(sink, color)
                && write_all(sink, word)
                && write_all(sink, PLAIN)
                && write_all(sink, rest)
        }
        None => write_all(sink, line),
    }
}

/// Returns the first line of some bytes, with its line feed, and the bytes that follow it.
fn first_line(bytes: &[u8]) -> (&[u8], &[u8])
    ensures { IsFalse (length bytes.now == 0) → length result.1.now < length bytes.now }
{
    match bytes.iter().position(|byte| *byte == b'\n') {
        Some(end) => bytes.split_at(end + 1),
        None => (bytes, &[]),
    }
}

/// Writes lines, each with its level in a colour. Returns whether all lines were written.
fn write_lines<S: Out>(sink: &mut S, lines: &[u8]) -> bool
    ensures whole { IsTrue result → (S.heard sink.new).faults ≡ (S.heard sink.old).faults }
    ensures fault { result ≡ false → (S.heard sink.new).faults ≡ up (S.heard sink.old).faults }
{
    let mut rest = lines;
    while !rest.is_empty() {
        let (line, after) = first_line(rest);
        if !write_line(sink, line) {
            return false;
        }
        rest = after;
    }
    true
}

impl<S: Out> Colored<S> {
    /// Returns a sink over another sink. The new sink shows no colours yet.
    pub fn new(inside: S) -> Colored<S> {
        Colored { inside, on: false }
    }
}

impl<S: Out> Out for Colored<S> {
    ghost heard = { λ c. record { taken = None; faults = (S.heard c.inside).faults } };

    fn write(&mut self, bytes: &[u8]) -> Option<usize> {
        let written = if self.on {
            write_lines(&mut self.inside, bytes)
        } else {
            write_all(&mut self.inside, bytes)
        };
        if written { Some(bytes.len()) } else { None }
    }

    fn failures(&self) -> u64 {
        self.inside.failures()
    }
}

impl<S: Out> Coloring for Colored<S> {
    ghost colors = { λ old on new. new ≡ record old { on = on } };

    fn color(&mut self, on: bool) {
        self.on = on;
    }
}
