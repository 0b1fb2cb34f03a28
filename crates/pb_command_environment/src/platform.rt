//! The compiler's host platform, and the word of a profile: `release` or `debug`.

ghost use Rattle.std.specs.Prelude.{◌≡◌, IfOk, map, codes, Ok};
ghost use Rattle.std.specs.List.{list_any};
ghost use Rattle.std.specs.Option.{option_copied};
ghost use Rattle.std.specs.Str.{bytes_eq};
ghost use Rattle.pb_profile.specs.Line.{seen};
ghost use Rattle.pb_command_environment.specs.Pairs.{unless_empty, host_in, triple_of, is_released, released_text, profile_word};

use pb_command_types::Project;
use pb_directive::lines::lines_of;
use pb_directive::texts::{after_prefix, text_of};
use pb_profile::{Ancestor, ProfileFault, line_of};
use std::alloc::{AllocError, Global};

/// Returns a text, or none if the text is absent or empty.
fn unless_empty(text: Option<&str>) -> Option<&str>
    ensures { option_copied result ≡ unless_empty (option_copied text.entry) }
{
    match text {
        Some(text) => { if text.is_empty() { None } else { Some(text) } }
        None => None,
    }
}

/// Returns the host that a line names after `host: `, if the line is UTF-8 and the host is not
/// empty.
fn host_in(line: &[u8]) -> Option<&str>
    ensures { option_copied result ≡ host_in line.now }
{
    match text_of(line) {
        Some(line) => unless_empty(after_prefix("host: ", line)),
        None => None,
    }
}

/// Returns the compiler's host triple, or an empty text if no line names a host.
pub(crate) fn triple_of(toolchain: &[u8]) -> &str
    ensures { result.now ≡ triple_of toolchain.now }
{
    for line in lines_of(toolchain) {
        if let Some(triple) = host_in(line) {
            return triple;
        }
    }
    ""
}

/// Returns whether one of these profiles is `release`.
fn has_release(line: &[Ancestor]) -> bool
    ensures { result ≡ list_any (λ ancestor.
        bytes_eq (seen ancestor).name (codes "release")) line.now }
{
    line.iter().any(|ancestor| ancestor.name == "release")
}

/// Returns whether a profile in a line of inheritance is `release`.
#[tactic(auto, using(crate::proofs::Released::released_laws))]
fn is_released(line: &[Ancestor]) -> bool
    ensures { result ≡ is_released (map seen line.now) }
{
    has_release(line)
}

/// Returns the word, `release` or `debug`, of a line of inheritance.
fn released_text(line: &[Ancestor]) -> &'static str
    ensures { result.now ≡ released_text (Ok (map seen line.now)) }
{
    if is_released(line) {
        "release"
    } else {
        "debug"
    }
}

/// Returns the word of the profile. The word is `release` for `release` and for all profiles that
/// inherit from `release`, and `debug` for any other profile.
pub(crate) fn profile_word(alloc: Global, project: &Project) -> Result<&'static str, AllocError>
    ensures { IfOk result (λ text. text.now ≡ profile_word project.now) }
{
    let profiles = project.workspace.profiles.as_slice();
    match line_of(alloc, profiles, project.profile.as_str()) {
        Ok(line) => Ok(released_text(line.as_slice())),
        Err(ProfileFault::OutOfMemory) => Err(AllocError),
        Err(_) => Ok("debug"),
    }
}
