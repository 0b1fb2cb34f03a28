//! What a script has written.

ghost use Rattle.std.specs.Prelude.{◌≡◌, IfOk};
ghost use Rattle.pb_mini.specs.Script.{no_output, before, ending};

use crate::buffer::Buffer;
use pb_data::{Bytes, Items};
use pb_place_types::{RelativePath, Reply};
use std::alloc::Global;

/// What a script has written so far.
#[derive(Drop)]
pub struct Output {
    /// All that the script wrote to standard output.
    pub stdout: Buffer,
    /// The files that the script put in its folder, by their names. If two files have the same
    /// name, the later file counts.
    pub files: Items<(RelativePath, Bytes)>,
}

impl Output {
    /// Returns no output. No memory is used.
    pub(crate) fn new(alloc: Global) -> Output
        ensures { result ≡ no_output }
    {
        Output {
            stdout: Buffer::new(alloc),
            files: Items::new(alloc),
        }
    }

    /// Returns the reply of a script that ends with this output and a status.
    pub(crate) fn into_reply(self, alloc: Global, status: u8) -> Reply
        ensures { result ≡ before self (ending status) }
    {
        Reply {
            status: i32::from(status),
            stdout: self.stdout.into_bytes(),
            stderr: Bytes::new(Vec::new(alloc)),
            files: self.files,
        }
    }
}
