//! What a line of a build script's output means.

use pb_data::{Items, Text};

/// What one line of a build script's output means (The Cargo Book, "Build Scripts"). A line
/// `rustc-flags` has a directive for each of its flags.
#[derive(Drop)]
pub enum Directive {
    /// `rerun-if-changed`: a path whose change makes the script run again.
    RerunIfChanged(Text),
    /// `rerun-if-env-changed`: a variable whose change makes the script run again.
    RerunIfEnvChanged(Text),
    /// `rustc-link-arg`: a flag for the linker, for binaries.
    LinkArg(Text),
    /// `rustc-link-arg-bins`: a flag for the linker, for binaries.
    LinkArgBins(Text),
    /// `rustc-link-arg-cdylib`: a flag that has no effect here.
    LinkArgCdylib(Text),
    /// `rustc-link-arg-tests`: a flag that has no effect here.
    LinkArgTests(Text),
    /// `rustc-link-arg-examples`: a flag that has no effect here.
    LinkArgExamples(Text),
    /// `rustc-link-arg-benches`: a flag that has no effect here.
    LinkArgBenches(Text),
    /// `rustc-link-arg-bin`: a binary's name, and a flag for the linker of this binary.
    LinkArgBin(Text, Text),
    /// `rustc-link-lib`: a library to link.
    LinkLib(Text),
    /// `rustc-link-search`: a folder in which libraries are looked for.
    LinkSearch(Text),
    /// `rustc-cfg`: a condition that is set.
    Cfg(Text),
    /// `rustc-check-cfg`: conditions that are expected.
    CheckCfg(Text),
    /// `rustc-env`: a variable's name and value.
    Env(Text, Text),
    /// A key and a value of metadata, for the scripts of direct dependents.
    Metadata(Text, Text),
    /// `warning`: a text for the user.
    Warning(Text),
    /// `error`: a text for the user. The script then counts as failed, whatever its exit status.
    Error(Text),
}

/// What the lines of a build script's output mean, in printed order.
pub type Directives = Items<Directive>;

/// A key that a line may have (The Cargo Book, "Build Scripts").
#[derive(Clone, Copy, PartialEq, Eq)]
pub enum Key {
    /// `rerun-if-changed`
    RerunIfChanged,
    /// `rerun-if-env-changed`
    RerunIfEnvChanged,
    /// `rustc-link-arg`
    LinkArg,
    /// `rustc-link-arg-bins`
    LinkArgBins,
    /// `rustc-link-arg-cdylib`
    LinkArgCdylib,
    /// `rustc-link-arg-tests`
    LinkArgTests,
    /// `rustc-link-arg-examples`
    LinkArgExamples,
    /// `rustc-link-arg-benches`
    LinkArgBenches,
    /// `rustc-link-arg-bin`
    LinkArgBin,
    /// `rustc-link-lib`
    LinkLib,
    /// `rustc-link-search`
    LinkSearch,
    /// `rustc-cfg`
    Cfg,
    /// `rustc-check-cfg`
    CheckCfg,
    /// `rustc-flags`
    Flags,
    /// `rustc-env`
    Env,
    /// `metadata`, a key only after `cargo::`
    Metadata,
    /// `warning`
    Warning,
    /// `error`, a key only after `cargo::`
    Error,
}
