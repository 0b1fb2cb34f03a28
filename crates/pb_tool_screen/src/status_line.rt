//! A status line on a sink.

use crate::line::{ERASE, status_line};
use pb_place_types::{Out, write_all};
use std::alloc::Global;

/// How many units a finished build has built and kept.
#[derive(Clone, Copy, Debug)]
pub struct Counted {
    /// How many children were started for units.
    pub built: usize,
    /// How many units' records were replayed.
    pub kept: usize,
}

/// A line that says which unit begins, and how many have begun. Each new text overwrites the old
/// one. The line's sink may fail in any way. Nothing is shown until the line is switched on.
#[derive(Drop)]
pub struct StatusLine<S> {
    sink: S,
    alloc: Global,
    /// Whether units are shown.
    on: bool,
    /// Whether the end of a build is noted.
    counts: bool,
    /// Whether a line is on the sink.
    shown: bool,
    begun: usize,
    counted: Option<Counted>,
}

impl<S: Out> StatusLine<S> {
    /// Returns a status line that is switched off.
    pub fn new(alloc: Global, sink: S) -> StatusLine<S> {
        StatusLine {
            sink,
            alloc,
            on: false,
            counts: false,
            shown: false,
            begun: 0,
            counted: None,
        }
    }

    /// Sets whether units are shown from now on, and whether the end of a build is noted.
    pub fn switch(&mut self, on: bool, counts: bool) {
        self.on = on;
        self.counts = counts;
    }

    /// Returns whether the line is on.
    pub fn is_on(&self) -> bool {
        self.on
    }

    /// Shows that one more unit begins: the unit of this key, out of this number of units. If
    /// memory runs out for the line, nothing is shown.
    pub fn begins(&mut self, units: usize, key: &str) {
        self.begun = self.begun.saturating_add(1);
        if let Ok(line) = status_line(self.alloc, self.begun, units, key) {
            self.shown = true;
            let _ = write_all(&mut self.sink, line.as_bytes());
        }
    }

    /// Erases the line, if one is shown.
    pub fn erase(&mut self) {
        if self.shown {
            self.shown = false;
            let _ = write_all(&mut self.sink, ERASE);
        }
    }

    /// Notes how a build has ended, if the line is set to note this.
    pub fn note(&mut self, counted: Counted) {
        if self.counts {
            self.counted = Some(counted);
        }
    }

    /// Returns how the last build ended, if this was noted.
    pub fn last_count(&self) -> Option<Counted> {
        self.counted
    }
}
