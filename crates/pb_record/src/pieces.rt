//! A text in pieces. Small parts are copied one after another; a large value is a separate piece.

ghost use Rattle.std.specs.Prelude.{◌≡◌, ◌++◌, ◌∷◌, [], IfOk, OnOk};
ghost use Rattle.std.specs.List.{concat};

use crate::part::Part;
use pb_data::{Bytes, Items};
use std::alloc::{AllocError, Global};
use std::marker::Model;
use std::mem::replace;

/// A value with at least this number of bytes is a separate piece, and is not copied.
const LARGE: usize = 4096;

/// A run of copied parts ends as soon as it has at least this number of bytes.
const LONG_RUN: usize = 65_536;

/// A text in pieces, which grows at its end. Contracts see the text.
#[derive(Drop)]
pub struct Pieces {
    /// The pieces before the last one.
    done: Vec<Bytes>,
    /// The last piece, with copies of small parts.
    run: Vec<u8>,
    /// The allocator of the text.
    alloc: Global,
}

impl Model for Pieces {
    ghost use Rattle.std.specs.Prelude.{ℕ, List, ◌++◌};
    ghost use Rattle.std.specs.List.{concat};

    ghost Value = { List ℕ };

    ghost view = { λ a. concat a.done.items ++ a.run.items };
}

/// Ends a run of copied parts. The run becomes a piece, and a new, empty run begins.
fn end_run(alloc: Global, done: &mut Vec<Bytes>, run: &mut Vec<u8>) -> Result<(), AllocError>
    ensures done { OnOk result (done.new.items ≡ done.old.items ++ run.old.items ∷ []) }
    ensures run { OnOk result (run.new.items ≡ []) }
{
    let ended = replace(run, Vec::new(alloc));
    done.push(Bytes::new(ended))?;
    Ok(())
}

#[tactic(auto, using(crate::proofs::PieceLemmas::piece_laws))]
impl Pieces {
    /// Returns an empty text. The call takes no memory.
    pub(crate) fn new(alloc: Global) -> Pieces
        ensures { result ≡ [] }
    {
        Pieces {
            done: Vec::new(alloc),
            run: Vec::new(alloc),
            alloc,
        }
    }

    /// Ends the run of copied parts if it is long.
    fn end_long_run(&mut self) -> Result<(), AllocError>
        ensures { OnOk result (self.new ≡ self.old) }
    {
        if self.run.len() < LONG_RUN {
            return Ok(());
        }
        end_run(self.alloc, &mut self.done, &mut self.run)
    }

    /// Adds bytes, and copies them.
    ///
    /// Errors: only out of memory.
    pub(crate) fn push(&mut self, bytes: &[u8]) -> Result<(), AllocError>
        ensures { OnOk result (self.new ≡ self.old ++ bytes.now) }
    {
        self.run.extend_from_slice(bytes)?;
        self.end_long_run()
    }

    /// Adds a part of a record, and copies it.
    ///
    /// Errors: only out of memory.
    pub(crate) fn push_part<T: Part>(&mut self, part: &T) -> Result<(), AllocError>
        ensures added { OnOk result (self.new ≡ self.old ++ T.spelled part.now) }
        ensures is { OnOk result (T.is_part part.now) }
    {
        part.write(&mut self.run)?;
        self.end_long_run()
    }

    /// Adds bytes, and copies them only if they are few.
    ///
    /// Errors: only out of memory.
    pub(crate) fn push_value(&mut self, bytes: Bytes) -> Result<(), AllocError>
        ensures { OnOk result (self.new ≡ self.old ++ bytes) }
    {
        if bytes.as_slice().len() < LARGE {
            return self.push(bytes.as_slice());
        }
        end_run(self.alloc, &mut self.done, &mut self.run)?;
        self.done.push(bytes)?;
        Ok(())
    }

    /// Returns the pieces.
    ///
    /// Errors: only out of memory.
    pub(crate) fn into_items(self) -> Result<Items<Bytes>, AllocError>
        ensures { IfOk result (λ pieces. concat pieces ≡ self) }
    {
        let Pieces {
            mut done,
            mut run,
            alloc,
        } = self;
        end_run(alloc, &mut done, &mut run)?;
        Ok(Items::from_vec(done))
    }
}
