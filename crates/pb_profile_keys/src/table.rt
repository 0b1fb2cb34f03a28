//! The table of the keys, with a row for each key.

ghost use Rattle.std.specs.Prelude.{◌≡◌};
ghost use Rattle.pb_profile_keys.specs.Table.{row, choices, defaults, told};

use crate::key::ProfileKey;
use crate::setting::{Choice, Setting, Word};

/// The row of a key.
#[derive(Clone, Copy)]
pub struct Row {
    /// Its name in a manifest.
    pub name: &'static str,
    /// The values that the key may have.
    pub choices: &'static [Choice],
    /// Its value in `dev`.
    pub dev: Setting,
    /// Its value in `release`.
    pub release: Setting,
    /// The key's value in the host's role, if no override sets the key. `None` if there is no such
    /// value.
    pub beside_override: Option<Setting>,
    /// The value that the host's role fixes, whatever the manifest sets. `None` if there is no such
    /// value.
    pub in_hosts: Option<Setting>,
    /// Whether an override may set the key.
    pub in_override: bool,
    /// The beginning of the compiler's option for the key.
    pub option: &'static str,
    /// The option's value for `true`.
    pub yes: &'static str,
    /// The value for which the compiler gets no option. `None` if there is no such value.
    pub untold: Option<Setting>,
    /// Whether only the compile of a binary gets the option.
    pub of_binaries: bool,
}

const TRUTH: &[Choice] = &[
    Choice::Is(Setting::Truth(true)),
    Choice::Is(Setting::Truth(false)),
];

const UNITS: &[Choice] = &[Choice::Between(1, 65536)];

const DEBUG: &[Choice] = &[
    Choice::Means(Setting::Truth(false), Setting::Word(Word::Zero)),
    Choice::Means(Setting::Number(0), Setting::Word(Word::Zero)),
    Choice::Means(Setting::Word(Word::Nothing), Setting::Word(Word::Zero)),
    Choice::Means(Setting::Number(1), Setting::Word(Word::One)),
    Choice::Means(Setting::Word(Word::Limited), Setting::Word(Word::One)),
    Choice::Means(Setting::Truth(true), Setting::Word(Word::Two)),
    Choice::Means(Setting::Number(2), Setting::Word(Word::Two)),
    Choice::Means(Setting::Word(Word::Full), Setting::Word(Word::Two)),
    Choice::Is(Setting::Word(Word::LineTablesOnly)),
    Choice::Is(Setting::Word(Word::LineDirectivesOnly)),
];

const LTO: &[Choice] = &[
    Choice::Is(Setting::Truth(false)),
    Choice::Means(Setting::Truth(true), Setting::Word(Word::Fat)),
    Choice::Is(Setting::Word(Word::Fat)),
    Choice::Is(Setting::Word(Word::Thin)),
    Choice::Is(Setting::Word(Word::Off)),
];

const LEVELS: &[Choice] = &[
    Choice::Means(Setting::Number(0), Setting::Word(Word::Zero)),
    Choice::Means(Setting::Number(1), Setting::Word(Word::One)),
    Choice::Means(Setting::Number(2), Setting::Word(Word::Two)),
    Choice::Means(Setting::Number(3), Setting::Word(Word::Three)),
    Choice::Is(Setting::Word(Word::Size)),
    Choice::Is(Setting::Word(Word::SmallestSize)),
];

const PANIC: &[Choice] = &[
    Choice::Is(Setting::Word(Word::Unwind)),
    Choice::Is(Setting::Word(Word::Abort)),
];

const STRIP: &[Choice] = &[
    Choice::Means(Setting::Truth(false), Setting::Word(Word::Nothing)),
    Choice::Means(Setting::Truth(true), Setting::Word(Word::Symbols)),
    Choice::Is(Setting::Word(Word::Nothing)),
    Choice::Is(Setting::Word(Word::DebugInfo)),
    Choice::Is(Setting::Word(Word::Symbols)),
];

/// The plain row: a truth value that is false in `dev` and `release`, with nothing special.
const PLAIN: Row = Row {
    name: "",
    choices: TRUTH,
    dev: Setting::Truth(false),
    release: Setting::Truth(false),
    beside_override: None,
    in_hosts: None,
    in_override: true,
    option: "",
    yes: "on",
    untold: None,
    of_binaries: false,
};

/// The keys in the order of the compiler's options.
const TOLD: &[ProfileKey] = &[
    ProfileKey::OptLevel,
    ProfileKey::Debug,
    ProfileKey::DebugAssertions,
    ProfileKey::OverflowChecks,
    ProfileKey::CodegenUnits,
    ProfileKey::Panic,
    ProfileKey::Rpath,
    ProfileKey::Strip,
    ProfileKey::Lto,
];

/// Returns the keys in the order of the compiler's options.
pub fn told_keys() -> &'static [ProfileKey]
    ensures { result.now ≡ told }
{
    TOLD
}

impl ProfileKey {
    /// Returns the row of the key.
    #[tactic(auto, unfolding(crate::specs::Table::row, crate::specs::Table::choices, crate::specs::Table::defaults))]
    pub fn row(self) -> Row
        ensures name { result.name.now ≡ (row self).name }
        ensures choices { result.choices.now ≡ choices self }
        ensures dev { result.dev ≡ (defaults self).dev }
        ensures release { result.release ≡ (defaults self).release }
        ensures beside_override { result.beside_override ≡ (defaults self).beside_override }
        ensures in_hosts { result.in_hosts ≡ (defaults self).in_hosts }
        ensures in_override { result.in_override ≡ (row self).in_override }
        ensures option { result.option.now ≡ (row self).option }
        ensures yes { result.yes.now ≡ (row self).yes }
        ensures untold { result.untold ≡ (row self).untold }
        ensures of_binaries { result.of_binaries ≡ (row self).of_binaries }
    {
        match self {
            ProfileKey::CodegenUnits => Row {
                name: "codegen-units",
                choices: UNITS,
                dev: Setting::Number(256),
                release: Setting::Number(16),
                beside_override: Some(Setting::Number(256)),
                option: "codegen-units=",
                ..PLAIN
            },
            ProfileKey::Debug => Row {
                name: "debug",
                choices: DEBUG,
                dev: Setting::Word(Word::Two),
                release: Setting::Word(Word::Zero),
                beside_override: Some(Setting::Word(Word::Zero)),
                option: "debuginfo=",
                ..PLAIN
            },
            ProfileKey::DebugAssertions => Row {
                name: "debug-assertions",
                dev: Setting::Truth(true),
                option: "debug-assertions=",
                ..PLAIN
            },
            ProfileKey::Lto => Row {
                name: "lto",
                choices: LTO,
                in_override: false,
                option: "lto=",
                untold: Some(Setting::Truth(false)),
                of_binaries: true,
                ..PLAIN
            },
            ProfileKey::OptLevel => Row {
                name: "opt-level",
                choices: LEVELS,
                dev: Setting::Word(Word::Zero),
                release: Setting::Word(Word::Three),
                beside_override: Some(Setting::Word(Word::Zero)),
                option: "opt-level=",
                ..PLAIN
            },
            ProfileKey::OverflowChecks => Row {
                name: "overflow-checks",
                dev: Setting::Truth(true),
                option: "overflow-checks=",
                ..PLAIN
            },
            ProfileKey::Panic => Row {
                name: "panic",
                choices: PANIC,
                dev: Setting::Word(Word::Unwind),
                release: Setting::Word(Word::Unwind),
                in_hosts: Some(Setting::Word(Word::Unwind)),
                in_override: false,
                option: "panic=",
                ..PLAIN
            },
            ProfileKey::Rpath => Row {
                name: "rpath",
                in_override: false,
                option: "rpath=",
                yes: "yes",
                untold: Some(Setting::Truth(false)),
                ..PLAIN
            },
            ProfileKey::Strip => Row {
                name: "strip",
                choices: STRIP,
                dev: Setting::Word(Word::Nothing),
                release: Setting::Word(Word::Nothing),
                option: "strip=",
                untold: Some(Setting::Word(Word::Nothing)),
                ..PLAIN
            },
        }
    }
}
