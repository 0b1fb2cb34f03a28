//! The nine keys of a profile.

ghost use Rattle.std.specs.Prelude.{◌≡◌, ◌<◌, Some, length, slice_get};
ghost use Rattle.pb_profile_keys.specs.Table.{keys, index};

/// A key of a profile. The cases are in byte order of the keys' names.
#[derive(Clone, Copy, Debug, PartialEq, Eq)]
pub enum ProfileKey {
    /// `codegen-units`.
    CodegenUnits,
    /// `debug`.
    Debug,
    /// `debug-assertions`.
    DebugAssertions,
    /// `lto`.
    Lto,
    /// `opt-level`.
    OptLevel,
    /// `overflow-checks`.
    OverflowChecks,
    /// `panic`.
    Panic,
    /// `rpath`.
    Rpath,
    /// `strip`.
    Strip,
}

/// How many keys there are.
pub const COUNT: usize = ProfileKey::ALL.len();

impl ProfileKey {
    /// All keys, in byte order of their names.
    pub const ALL: [ProfileKey; 9] = [
        ProfileKey::CodegenUnits,
        ProfileKey::Debug,
        ProfileKey::DebugAssertions,
        ProfileKey::Lto,
        ProfileKey::OptLevel,
        ProfileKey::OverflowChecks,
        ProfileKey::Panic,
        ProfileKey::Rpath,
        ProfileKey::Strip,
    ];

    /// Returns the key at an index in the list of all keys.
    pub fn at(i: usize) -> ProfileKey
        requires { i < length keys }
        ensures { slice_get keys i ≡ Some result }
    {
        ProfileKey::ALL[i]
    }

    /// Returns the index of the key among all keys.
    pub fn index(self) -> usize
        ensures is { result ≡ index self }
        ensures within { index self < length keys }
    {
        match self {
            ProfileKey::CodegenUnits => 0,
            ProfileKey::Debug => 1,
            ProfileKey::DebugAssertions => 2,
            ProfileKey::Lto => 3,
            ProfileKey::OptLevel => 4,
            ProfileKey::OverflowChecks => 5,
            ProfileKey::Panic => 6,
            ProfileKey::Rpath => 7,
            ProfileKey::Strip => 8,
        }
    }
}
