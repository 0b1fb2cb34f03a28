//! Parts of a record, put at the end of a text in pieces. Large values are moved.

ghost use Rattle.std.specs.Prelude.{◌≡◌, ◌++◌, OnOk};
ghost use Rattle.std.specs.List.{flat_map, AllByRecursion};

use crate::part::Part;
use crate::pieces::Pieces;
use crate::record::Input;
use crate::recorded_command::RecordedCommand;
use pb_data::{Bytes, Items, Text};
use pb_place_types::{PathText, RelativePath};
use std::alloc::AllocError;

/// A part that can be put at the end of a text in pieces.
pub trait Put: Part + Sized {
    /// Adds the bytes of the part, as `Part::write` does, and moves its large values.
    ///
    /// Errors: only out of memory.
    fn put(self, out: &mut Pieces) -> Result<(), AllocError>
        ensures added { OnOk result (out.new ≡ out.old ++ Self.spelled self) }
        ensures is { OnOk result (Self.is_part self) };
}

impl Put for u64 {
    fn put(self, out: &mut Pieces) -> Result<(), AllocError> {
        out.push_part(&self)
    }
}

impl Put for Text {
    fn put(self, out: &mut Pieces) -> Result<(), AllocError> {
        out.push_part(&self)
    }
}

impl Put for PathText {
    fn put(self, out: &mut Pieces) -> Result<(), AllocError> {
        out.push_part(&self)
    }
}

impl Put for RelativePath {
    fn put(self, out: &mut Pieces) -> Result<(), AllocError> {
        out.push_part(&self)
    }
}

impl Put for Option<Text> {
    fn put(self, out: &mut Pieces) -> Result<(), AllocError> {
        out.push_part(&self)
    }
}

impl Put for RecordedCommand {
    fn put(self, out: &mut Pieces) -> Result<(), AllocError> {
        out.push_part(&self)
    }
}

impl Put for Bytes {
    #[tactic(auto, unfolding(crate::specs::Grammar::block))]
    fn put(self, out: &mut Pieces) -> Result<(), AllocError> {
        let length = self.as_slice().len() as u64;
        out.push_part(&length)?;
        out.push_value(self)?;
        out.push(b"\n")
    }
}

impl<A: Put, B: Put> Put for (A, B) {
    fn put(self, out: &mut Pieces) -> Result<(), AllocError> {
        let (first, second) = self;
        first.put(out)?;
        second.put(out)?;
        Ok(())
    }
}

/// Adds parts, one after another.
fn put_items<T: Put>(items: Items<T>, out: &mut Pieces) -> Result<(), AllocError>
    ensures added { OnOk result (out.new ≡ out.old ++ flat_map T.spelled items) }
    ensures are { OnOk result (AllByRecursion T.is_part items) }
{
    for item in items.into_vec() {
        item.put(out)?;
    }
    Ok(())
}

impl<T: Put> Put for Items<T> {
    fn put(self, out: &mut Pieces) -> Result<(), AllocError> {
        let count = self.len() as u64;
        out.push_part(&count)?;
        put_items(self, out)?;
        Ok(())
    }
}

/// Adds a line and two parts after the line.
fn put_behind<A: Put, B: Put>(
    line: &[u8],
    first: A,
    second: B,
    out: &mut Pieces,
) -> Result<(), AllocError>
    ensures added { OnOk result (out.new
        ≡ out.old ++ (line.now ++ (A.spelled first ++ B.spelled second))) }
    ensures are { OnOk result (A.is_part first × B.is_part second) }
{
    out.push(line)?;
    first.put(out)?;
    second.put(out)?;
    Ok(())
}

impl Put for Input {
    fn put(self, out: &mut Pieces) -> Result<(), AllocError> {
        match self {
            Input::File(path, bytes) => put_behind(b"f\n", path, bytes, out),
            Input::Tree(path, files) => put_behind(b"t\n", path, files, out),
            Input::Value(name, value) => put_behind(b"v\n", name, value, out),
        }
    }
}
