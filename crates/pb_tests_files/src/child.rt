//! A child that prints nothing, for a place on which no child is started.

use pb_data::{Bytes, Items};
use pb_place_types::{Child, Command, Reply, View, ViewFault};
use std::alloc::Global;

/// A child that prints and leaves nothing.
#[derive(Clone, Copy, Debug)]
pub struct Silent;

impl Child for Silent {
    ghost use Rattle.std.specs.Prelude.{[], pos};

    ghost answers = { λ c w. record { status = pos 0; stdout = []; stderr = []; files = [] } };

    fn reply<V: View>(
        &self,
        alloc: Global,
        _command: &Command,
        _view: &V,
    ) -> Result<Reply, ViewFault> {
        let stdout = Bytes::from_slice(alloc, b"")?;
        let stderr = Bytes::from_slice(alloc, b"")?;
        Ok(Reply {
            status: 0,
            stdout,
            stderr,
            files: Items::new(alloc),
        })
    }
}
