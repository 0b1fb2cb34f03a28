//! Reads a session file: the steps of a session, one after another.

ghost use Rattle.std.specs.Prelude.{◌≡◌, ℕ, List};
ghost use Rattle.serde_json.specs.View.{view, items_view};
ghost use Rattle.pb_build_session.specs.Faults.{UnlessOom, GivesAs};
ghost use Rattle.pb_build_session.specs.Options.{options_of, pick_or_first};
ghost use Rattle.pb_build_session.specs.Sessions.{write_of, set_of, build_of, die_of, step_named, step_of, steps_of, document_in, session_of};

use crate::death::death_named;
use crate::fault::BadSession;
use crate::options::{options_of, pick_in};
use crate::step::SessionStep;
use crate::value::{array_of, number_of, only_member, pair_of, path_in, path_of, text_of};
use pb_data::Items;
use serde_json::Value;
use std::alloc::Global;

/// Returns the step that writes a file.
fn write_of(alloc: Global, value: &Value) -> Result<SessionStep, BadSession>
    ensures { UnlessOom result (write_of (view value.now)) }
{
    let (path, text) = pair_of(alloc, value)?;
    let path = path_in(alloc, path.as_str())?;
    Ok(SessionStep::Write(path, text))
}

/// Returns the step that sets a variable.
fn set_of(alloc: Global, value: &Value) -> Result<SessionStep, BadSession>
    ensures { UnlessOom result (set_of (view value.now)) }
{
    let (name, text) = pair_of(alloc, value)?;
    Ok(SessionStep::Set(name, text))
}

/// Returns the step that builds.
fn build_of(alloc: Global, value: &Value) -> Result<SessionStep, BadSession>
    ensures { UnlessOom result (build_of (view value.now)) }
{
    let options = options_of(alloc, value)?;
    let pick = pick_in(value)?;
    Ok(SessionStep::Build(options, pick))
}

/// Returns the step that sets a start to fail.
fn die_of(alloc: Global, value: &Value) -> Result<SessionStep, BadSession>
    ensures { UnlessOom result (die_of (view value.now)) }
{
    let (key, kind) = pair_of(alloc, value)?;
    let death = death_named(kind.as_str())?;
    Ok(SessionStep::Die(key, death))
}

/// Returns the step that has this name.
fn step_named(alloc: Global, name: &str, value: &Value) -> Result<SessionStep, BadSession>
    ensures { UnlessOom result (step_named name.now (view value.now)) }
{
    match name {
        "write" => write_of(alloc, value),
        "remove" => {
            let path = path_of(alloc, value)?;
            Ok(SessionStep::Remove(path))
        }
        "set" => set_of(alloc, value),
        "unset" => {
            let name = text_of(alloc, value)?;
            Ok(SessionStep::Unset(name))
        }
        "build" => build_of(alloc, value),
        "die" => die_of(alloc, value),
        "fuse" => {
            let number = number_of(value)?;
            Ok(SessionStep::Fuse(number))
        }
        _ => Err(BadSession::BadForm),
    }
}

/// Returns a step: an object with one key, the step's name.
fn step_of(alloc: Global, value: &Value) -> Result<SessionStep, BadSession>
    ensures { UnlessOom result (step_of (view value.now)) }
{
    let map = match value.as_object() {
        Some(map) => map,
        None => return Err(BadSession::BadForm),
    };
    match only_member(map) {
        Some((name, value)) => step_named(alloc, name, value),
        None => Err(BadSession::BadForm),
    }
}

/// Returns the steps of a list, in the order of the list.
fn steps_of(alloc: Global, values: &[Value]) -> Result<Items<SessionStep>, BadSession>
    ensures { UnlessOom result (steps_of (items_view values.now)) }
{
    let mut steps = Items::new(alloc);
    for value in values {
        steps.push(step_of(alloc, value)?)?;
    }
    Ok(steps)
}

/// Returns the JSON value of some bytes.
#[tactic(auto, using(crate::proofs::Utf8::utf8_laws))]
fn document_in(alloc: Global, bytes: &[u8]) -> Result<Value, BadSession>
    ensures { GivesAs (λ v. view v) result (document_in bytes.now) }
{
    let text = match str::from_utf8(bytes) {
        Ok(text) => text,
        Err(_) => return Err(BadSession::BadForm),
    };
    match Value::from_str(alloc, text) {
        Ok(value) => Ok(value),
        Err(fault) => {
            if fault.is_memory() {
                Err(BadSession::OutOfMemory)
            } else {
                Err(BadSession::BadForm)
            }
        }
    }
}

/// Returns the steps of a session file. The file's form is our own: a JSON list of steps, each an
/// object with one key.
///
/// - `{"write":[PATH,TEXT]}` writes a file; `{"remove":PATH}` removes a file and all below it.
/// - `{"set":[NAME,VALUE]}` sets a variable; `{"unset":NAME}` removes a variable.
/// - `{"die":[KEY,KIND]}` makes a start fail: the next start whose output folder has the name KEY.
///   The way of failing, KIND, is `CannotStart`, `Died` or `Capture`.
/// - `{"fuse":N}` makes a call fail: the Nth call to the outside world in the next build. 0 removes
///   the fuse.
/// - `{"build":OPTIONS}` builds. The builder is called `cargo`, and build scripts are run by `mini
///   --run`.
///
/// OPTIONS is an object with any of these keys:
///
/// - `manifest`: the path of the root manifest (default `/w/Cargo.toml`).
/// - `profile`: a text (default `dev`).
/// - `packages`, `features` and `bin`: lists of texts.
/// - `workspace`, `all_features`, `no_default_features`, `lib` and `bins`: truth values.
/// - `jobs`: how many units may be in flight at a time (default 1).
/// - `pick`: the choice among the units that may begin, `first` (the default) or `last`.
///
/// A path is an absolute text without byte 0. A number consists of digits only, and is at most
/// 18446744073709551615. If an object has a key twice, the last value counts, as `serde_json` reads
/// it.
///
/// Errors: `BadForm` if the bytes are of any other form; `OutOfMemory`.
pub fn read_session(alloc: Global, bytes: &[u8]) -> Result<Items<SessionStep>, BadSession>
    ensures { UnlessOom result (session_of bytes.now) }
{
    let value = document_in(alloc, bytes)?;
    let steps = steps_of(alloc, array_of(&value)?)?;
    Ok(steps)
}
