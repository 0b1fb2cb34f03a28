//! The keys of a build script's output, by their names.

ghost use Rattle.std.specs.Prelude.{◌≡◌};
ghost use Rattle.pb_directive.specs.Directives.{key_of, new_key_of};

use crate::directive::Key;

/// Returns the key that has this name both after `cargo::` and after `cargo:`, if there is such a
/// key.
pub fn key_of(name: &str) -> Option<Key>
    ensures { result ≡ key_of name.now }
{
    match name {
        "rerun-if-changed" => Some(Key::RerunIfChanged),
        "rerun-if-env-changed" => Some(Key::RerunIfEnvChanged),
        "rustc-link-arg" => Some(Key::LinkArg),
        "rustc-link-arg-bins" => Some(Key::LinkArgBins),
        "rustc-link-arg-cdylib" => Some(Key::LinkArgCdylib),
        "rustc-link-arg-tests" => Some(Key::LinkArgTests),
        "rustc-link-arg-examples" => Some(Key::LinkArgExamples),
        "rustc-link-arg-benches" => Some(Key::LinkArgBenches),
        "rustc-link-arg-bin" => Some(Key::LinkArgBin),
        "rustc-link-lib" => Some(Key::LinkLib),
        "rustc-link-search" => Some(Key::LinkSearch),
        "rustc-cfg" => Some(Key::Cfg),
        "rustc-check-cfg" => Some(Key::CheckCfg),
        "rustc-flags" => Some(Key::Flags),
        "rustc-env" => Some(Key::Env),
        "warning" => Some(Key::Warning),
        _ => None,
    }
}

/// Returns the key that has this name after `cargo::`.
pub fn new_key_of(name: &str) -> Option<Key>
    ensures { result ≡ new_key_of name.now }
{
    match name {
        "metadata" => Some(Key::Metadata),
        "error" => Some(Key::Error),
        _ => key_of(name),
    }
}
