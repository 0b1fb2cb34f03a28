//! A machine whose every call fails.

ghost use Rattle.std.specs.Prelude.{◌≡◌};

use std::alloc::{Allocator, Global};
use std::env::{Env, FillError};
use std::fs::{File, Files, Metadata, OpenOptions};
use std::io;
use std::io::{ErrorKind, Read};
use std::process::{Child, Command, ExitStatus, OpenProcess, Processes, Stdio};

/// A machine whose every call on files and children fails in one way, and whose variables are not
/// UTF-8.
#[derive(Drop)]
pub(crate) struct Broken {
    kind: ErrorKind,
    memory: Global,
    starts: bool,
}

impl Broken {
    /// Returns a machine that fails in this way.
    pub(crate) fn new(memory: Global, kind: ErrorKind) -> Broken {
        Broken {
            kind,
            memory,
            starts: false,
        }
    }

    /// Returns a machine that may start children, and fails in this way when it reads what the
    /// children write.
    pub(crate) fn with_start(memory: Global, kind: ErrorKind, starts: bool) -> Broken {
        Broken {
            kind,
            memory,
            starts,
        }
    }

    /// Returns the error of each call.
    fn error(&self) -> io::Error {
        io::Error::from(self.kind)
    }
}

impl Alloc for Broken {
    type A = Global;

    fn alloc(&self) -> Global {
        self.memory
    }
}

impl Files for Broken {
    type File = File;

    type Dir = File;

    fn open_file(&self, _: &OpenOptions, _: &str) -> io::Result<File> {
        Err(self.error())
    }

    fn open_dir(&self, _: &str) -> io::Result<File> {
        Err(self.error())
    }

    fn metadata(&self, _: &str) -> io::Result<Metadata> {
        Err(self.error())
    }

    fn symlink_metadata(&self, _: &str) -> io::Result<Metadata> {
        Err(self.error())
    }

    fn copy(&self, _: &str, _: &str) -> io::Result<u64> {
        Err(self.error())
    }

    fn rename(&self, _: &str, _: &str) -> io::Result<()> {
        Err(self.error())
    }

    fn remove_file(&self, _: &str) -> io::Result<()> {
        Err(self.error())
    }

    fn create_dir(&self, _: &str) -> io::Result<()> {
        Err(self.error())
    }

    fn remove_dir(&self, _: &str) -> io::Result<()> {
        Err(self.error())
    }

    fn remove_dir_all<B: Allocator>(&self, _: B, _: &str) -> io::Result<()> {
        Err(self.error())
    }
}

impl Env for Broken {
    fn arg(&self, _: usize, _: &mut [u8]) -> Result<usize, FillError> {
        Err(FillError::NotPresent)
    }

    fn var(&self, _: &str, buf: &mut [u8]) -> Result<usize, FillError> {
        match buf {
            [first, ..] => {
                *first = 0xff;
                Ok(1)
            }
            [] => Err(FillError::TooLong),
        }
    }

    fn var_at(&self, _: usize, _: &mut [u8]) -> Result<usize, FillError> {
        Err(FillError::NotPresent)
    }
}

/// A stream that cannot be read.
#[derive(Drop)]
pub(crate) struct Unreadable {
    kind: ErrorKind,
}

impl Read for Unreadable {
    fn read(&mut self, _: &mut [u8]) -> io::Result<usize> {
        Err(io::Error::from(self.kind))
    }
}

/// A child that ends at once, with status 0.
#[derive(Drop)]
pub(crate) struct Ending;

impl OpenProcess for Ending {
    type Stdin = Vec<u8>;

    type Stdout = Unreadable;

    type Stderr = Unreadable;

    fn id(&self) -> u32 {
        1
    }

    fn wait(&mut self) -> io::Result<ExitStatus> {
        Ok(ExitStatus::default())
    }
}

impl Processes for Broken {
    type Started = Ending;

    fn spawn<B: Allocator + Clone>(
        &self,
        _: &Command<B>,
        _: &Stdio,
        _: &Stdio,
        _: &Stdio,
    ) -> io::Result<Child<Ending>> {
        if !self.starts {
            return Err(self.error());
        }
        let stdout = Unreadable { kind: self.kind };
        let stderr = Unreadable { kind: self.kind };
        Ok(Child::from_parts(Ending, None, Some(stdout), Some(stderr)))
    }
}
