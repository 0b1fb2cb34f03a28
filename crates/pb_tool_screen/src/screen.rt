//! A sink that shows received message lines as text.

ghost use Rattle.std.specs.Prelude.{◌≡◌, ◌≤◌, ◌++◌, Bool, false, length, take, MatchOption, OnOk};
ghost use Rattle.std.specs.Io.KnownBytes.{Keeps, Appends};
ghost use Rattle.pb_place_types.specs.Sinks.{SinkState, sunk};

use crate::colored::{Colored, Coloring};
use crate::line::ERASE;
use crate::rendering::line_shown;
use pb_place_types::{Out, write_all};
use std::alloc::{AllocError, Global};

/// A sink that receives message lines and can also show them as text.
pub trait Screen: Out {
    /// How the showing of lines is switched. The relation is between the sink before, three
    /// settings, and the sink after. The settings are whether the sink shows lines, whether it
    /// erases a status line, and whether levels have colours.
    ghost shows: { Self → Bool → Bool → Bool → Self → Type 0 };

    /// Sets whether lines are shown from now on, whether a status line is erased before each write,
    /// and whether levels have colours. The sink keeps what it has received.
    fn show(&mut self, on: bool, erases: bool, colors: bool)
        ensures shows { shows self.old on erases colors self.new }
        ensures heard { Self.heard self.new ≡ Self.heard self.old };
}

/// A sink that passes everything on to a second sink. If lines are to be shown, the text of each
/// whole line is also written to a third sink. The text is written as soon as the second sink has
/// taken the line. If memory runs out for a line, the loss is reported. The third sink may fail in
/// any way.
#[derive(Drop)]
pub struct Rendered<O, S> {
    /// The sink that receives the lines.
    out: O,
    /// The sink on which the lines are shown.
    aside: Colored<S>,
    /// Whether the lines are shown.
    on: bool,
    /// Whether a status line on the third sink is erased before each write.
    erases: bool,
    /// The received part of a line that has not ended.
    line: Vec<u8>,
    alloc: Global,
}

/// Shows the text of a line.
fn show_line<S: Out>(alloc: Global, aside: &mut S, line: &[u8]) {
    let Ok(line) = str::from_utf8(line) else {
        return;
    };
    match line_shown(alloc, line) {
        Ok(text) => write_all(aside, text.as_str().as_bytes()),
        Err(_) => write_all(aside, b"note: there is no memory to show a line as text\n"),
    };
}

/// Adds received bytes, and shows each line that these bytes complete.
fn follow<S: Out>(
    alloc: Global,
    aside: &mut S,
    line: &mut Vec<u8>,
    bytes: &[u8],
) -> Result<(), AllocError> {
    for byte in bytes {
        if *byte == b'\n' {
            show_line(alloc, aside, line.as_slice());
            line.clear();
        } else {
            line.push(*byte)?;
        }
    }
    Ok(())
}

impl<O: Out, S: Out> Rendered<O, S> {
    /// Returns a sink over these two sinks. The new sink shows nothing yet.
    pub fn new(alloc: Global, out: O, aside: S) -> Rendered<O, S>
        ensures { ⟦<Rendered<O, S> as Out>⟧.heard result ≡ O.heard out }
    {
        Rendered {
            out,
            aside: Colored::new(aside),
            on: false,
            erases: false,
            line: Vec::new(alloc),
            alloc,
        }
    }
}

impl<O: Out, S: Out> Out for Rendered<O, S> {
    ghost heard = { λ r. O.heard r.out };

    fn write(&mut self, bytes: &[u8]) -> Option<usize> {
        if self.erases {
            let _ = write_all(&mut self.aside, ERASE);
        }
        let taken = self.out.write(bytes);
        if !self.on {
            return taken;
        }
        if let Some(count) = taken {
            if follow(self.alloc, &mut self.aside, &mut self.line, &bytes[..count]).is_err() {
                self.line.clear();
            }
        }
        taken
    }

    fn failures(&self) -> u64 {
        self.out.failures()
    }
}

impl<O: Out, S: Out> Screen for Rendered<O, S> {
    ghost shows = { λ old on erases colors new. new ≡ record old {
      aside = record old.aside { on = colors };
      on = on;
      erases = erases;
    } };

    fn show(&mut self, on: bool, erases: bool, colors: bool) {
        self.aside.color(colors);
        self.on = on;
        self.erases = erases;
    }
}
