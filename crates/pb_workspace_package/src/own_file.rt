//! The files at fixed paths in a package's folder.

ghost use Rattle.std.specs.Prelude.{◌≡◌, IfOk};
ghost use Rattle.pb_place_types.specs.Paths.{below};
ghost use Rattle.pb_workspace_package.specs.OwnFile.{name_of, own_files};

use crate::source::own_path;
use pb_place_types::PathText;
use std::alloc::{AllocError, Global};

/// A file at a fixed path in a package's folder (The Cargo Book, Manifest Format, Cargo Targets,
/// Build Scripts).
#[derive(Clone, Copy, PartialEq, Eq)]
pub enum OwnFile {
    /// `README.md`.
    ReadmeMd,
    /// `README.txt`.
    ReadmeTxt,
    /// `README`.
    Readme,
    /// `build.rs`, the build script.
    BuildScript,
    /// `src/lib.rs`, the library.
    Library,
    /// `src/main.rs`, the binary that has the package's name.
    Main,
}

/// All files at fixed paths, in the order in which they are looked up.
pub const OWN_FILES: [OwnFile; 6] = [
    OwnFile::ReadmeMd,
    OwnFile::ReadmeTxt,
    OwnFile::Readme,
    OwnFile::BuildScript,
    OwnFile::Library,
    OwnFile::Main,
];

impl OwnFile {
    /// Returns the path of the file relative to the folder of the package, as a text.
    pub fn name(self) -> &'static str
        ensures { result.now ≡ name_of self }
    {
        match self {
            OwnFile::ReadmeMd => "README.md",
            OwnFile::ReadmeTxt => "README.txt",
            OwnFile::Readme => "README",
            OwnFile::BuildScript => "build.rs",
            OwnFile::Library => "src/lib.rs",
            OwnFile::Main => "src/main.rs",
        }
    }

    /// Returns the path of the file in this folder of a package.
    ///
    /// Errors: out of memory.
    #[tactic(auto, using(crate::proofs::OwnFiles::own_name_laws))]
    pub fn path(self, alloc: Global, folder: &PathText) -> Result<PathText, AllocError>
        ensures { IfOk result (λ path. path ≡ below folder.now (name_of self)) }
    {
        own_path(alloc, folder, self.name())
    }
}
