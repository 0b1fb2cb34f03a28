//! The guard of target folders on the machine.

ghost use Rattle.std.specs.Prelude.{⊤};

use crate::guard::Guard;
use pb_place_host::{TAG_LINE, TAG_NAME, TAG_TEXT, has_tag_line};
use pb_place_types::{Out, PathText, Place};
use std::fs::{File, TryLockError};
use std::io::ErrorKind;
use std::os::unix::fs::MetadataExt;
use std::{fs, io};

/// A lock of the operating system on a target folder itself. The lock leaves no file.
///
/// The lock lasts until this value is dropped or the process ends in any way. No child has the
/// lock. A folder that does not exist is made. A folder that cannot be made or locked is not
/// guarded: the build goes on and itself reports what is wrong with the folder.
///
/// The locked folder is the one to which the path leads once the lock is taken. If another folder
/// has replaced the first folder meanwhile, the new folder is locked.
///
/// A locked and empty folder gets the tag of a target folder, `CACHEDIR.TAG`. So backup programs
/// skip the folder, and builds do not mistake the folder for sources. The tag of another program
/// gets one more line. A folder with other files and without a tag gets no tag: it may be
/// somebody's own folder. If the tag cannot be written, the folder has no tag.
#[derive(Drop)]
pub(crate) struct FolderLock<'a> {
    runtime: &'a HostRuntime,
    path: Option<String>,
    folder: Option<File>,
}

impl<'a> FolderLock<'a> {
    /// Returns a guard that has no folder.
    pub(crate) fn new(runtime: &'a HostRuntime) -> FolderLock<'a> {
        FolderLock {
            runtime,
            path: None,
            folder: None,
        }
    }

    /// Makes a folder, and opens it.
    fn open(&self, path: &str) -> io::Result<File> {
        fs::create_dir_all(self.runtime, path)?;
        File::open(self.runtime, path)
    }

    /// Returns whether a path still leads to an open folder.
    fn leads_to(&self, path: &str, folder: &File) -> bool {
        match (fs::metadata(self.runtime, path), folder.metadata()) {
            (Ok(there), Ok(held)) => there.dev() == held.dev() && there.ino() == held.ino(),
            _ => false,
        }
    }

    /// Opens a folder and tries to lock it. Returns whether another process has locked the folder.
    fn try_lock(&mut self, path: &str) -> io::Result<bool> {
        for _ in 0..u64::MAX {
            let folder = self.open(path)?;
            match folder.try_lock() {
                Ok(()) if self.leads_to(path, &folder) => {
                    self.folder = Some(folder);
                    return Ok(false);
                }
                // Another folder is there now.
                Ok(()) => {}
                Err(TryLockError::WouldBlock) => return Ok(true),
                Err(TryLockError::Error(error)) => return Err(error),
            }
        }
        Ok(true)
    }

    /// Opens a folder and waits for its lock.
    fn lock(&mut self, path: &str) -> io::Result<()> {
        for _ in 0..u64::MAX {
            let folder = self.open(path)?;
            folder.lock()?;
            if self.leads_to(path, &folder) {
                self.folder = Some(folder);
                return Ok(());
            }
        }
        Ok(())
    }

    /// Returns whether a folder is empty.
    fn is_empty(&self, folder: &str) -> io::Result<bool> {
        let mut entries = fs::read_dir(&self.runtime, folder)?;
        Ok(entries.next().is_none())
    }

    /// Puts the tag into a locked folder that is empty or has the tag of another program.
    fn mark(&self, folder: &str) -> io::Result<()> {
        let path = format!(in self.runtime.alloc(); "{folder}/{TAG_NAME}")?;
        if self.is_empty(folder)? {
            return fs::write(self.runtime, path.as_str(), TAG_TEXT.as_bytes());
        }
        let old = match fs::read(self.runtime, path.as_str()) {
            Ok(old) => old,
            Err(error) if error.kind() == ErrorKind::NotFound => return Ok(()),
            Err(error) => return Err(error),
        };
        if has_tag_line(old.as_slice()) {
            return Ok(());
        }
        let mut new = old;
        new.extend_from_slice(b"\n")?;
        new.extend_from_slice(TAG_LINE.as_bytes())?;
        new.extend_from_slice(b"\n")?;
        fs::write(self.runtime, path.as_str(), new.as_slice())
    }
}

impl<'a, P: Place, E: Out> Guard<P, E> for FolderLock<'a> {
    ghost asks = { λ old folder counts heard taken new. ⊤ };

    ghost waits = { λ old counts heard new. ⊤ };

    fn is_taken(&mut self, place: &P, err: &E, folder: &PathText) -> bool {
        match self.try_lock(folder.as_str()) {
            Ok(false) => {
                let _ = self.mark(folder.as_str());
                false
            }
            Ok(true) => {
                self.path = String::from_str(self.runtime.alloc(), folder.as_str()).ok();
                true
            }
            Err(_) => false,
        }
    }

    fn wait(&mut self, place: &P, err: &E) {
        let Some(path) = self.path.take() else {
            return;
        };
        if self.lock(path.as_str()).is_ok() {
            let _ = self.mark(path.as_str());
        }
    }
}
