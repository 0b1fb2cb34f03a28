//! The unit of the tests: its key, its needed unit, its command and its answer.

ghost use Rattle.std.specs.Prelude.{◌≡◌, true, IfOk, Some, All};
ghost use Rattle.pb_record.specs.Sorted.{are_sorted};
ghost use Rattle.pb_store_soundness.specs.Records.{is_key, out_of};

use crate::stores::world::{OWN, replace_once};
use pb_data::{Bytes, Items, Text, TryCopy};
use pb_place_types::{Command, Ended, PathFault, PathText, RelativePath};
use pb_record::{InputName, Record, RecordedCommand, read_record};
use pb_store::Key;
use std::alloc::{AllocError, Global};
use std::test::Fail;

/// Returns the key of the unit.
#[tactic(auto, unfolding(pb_store_soundness::specs::Records::is_key))]
pub fn own_key(alloc: Global) -> Result<Key, AllocError> {
    let text = Text::from_str(alloc, "a.target.lib")?;
    Ok(Key::new(text))
}

/// Returns the keys of the units that it needs.
#[tactic(auto, unfolding(pb_store_soundness::specs::Records::is_key))]
pub fn needs(alloc: Global) -> Result<Items<Text>, AllocError>
    ensures { IfOk result (λ needs. All (λ key. is_key key ≡ true) needs) }
{
    let key = Text::from_str(alloc, "b.target.lib")?;
    let mut needs = Items::new(alloc);
    needs.push(key)?;
    Ok(needs)
}

/// Its inputs: paths, and variables.
static INPUTS: &[&str] = &["/w/a", "/w/d", "V", "U"];

/// Returns the names of its inputs.
pub fn input_names(alloc: Global) -> Result<Items<InputName>, PathFault> {
    let mut names = Items::new(alloc);
    for input in INPUTS {
        names.push(if input.starts_with("/") {
            InputName::Path(PathText::parse(alloc, *input)?)
        } else {
            InputName::Variable(Text::from_str(alloc, *input)?)
        })?;
    }
    Ok(names)
}

/// Returns how its child ended.
pub fn end_of_child(alloc: Global) -> Result<Ended, AllocError> {
    let stdout = Bytes::from_slice(alloc, b"out")?;
    let stderr = Bytes::from_slice(alloc, b"err")?;
    Ok(Ended {
        status: 0,
        stdout,
        stderr,
    })
}

/// Returns what was requested, from the text of a record.
fn asked_in(alloc: Global, text: &str) -> Result<RecordedCommand, Fail> {
    match read_record(alloc, text.as_bytes())? {
        Some(kept) => {
            let Record {
                key,
                asked,
                inputs,
                needed,
                stdout,
                stderr,
            } = kept;
            drop(key);
            drop(inputs);
            drop(needed);
            drop(stdout);
            drop(stderr);
            Ok(asked)
        }
        None => Err(Fail::from("no record")),
    }
}

/// Returns the unit's command after one text in its record is replaced by another.
pub fn command_with(alloc: Global, old: &str, new: &str) -> Result<Command, Fail> {
    let text = replace_once(alloc, OWN, old, new)?;
    let asked = asked_in(alloc, text.as_str());
    drop(text);
    Ok(asked?.into_command())
}

/// Returns what was requested, as a command that writes into this folder.
fn with_out(asked: RecordedCommand, out: PathText) -> Command
    ensures out { result.out ≡ Some out }
    ensures sorted { are_sorted result.pairs ≡ true }
{
    Command {
        program: asked.program,
        words: asked.words,
        folder: asked.folder,
        pairs: asked.pairs.into_items(),
        out: Some(out),
        target: asked.target,
        toolchain: asked.toolchain,
        reads: asked.reads,
    }
}

/// Returns the output folder of a unit.
fn out_path(alloc: Global, folder: &PathText, key: &Key) -> Result<PathText, Fail>
    ensures { IfOk result (λ path. path ≡ out_of folder.now key.now) }
{
    let relative = RelativePath::of(key.as_text().copy(alloc)?).ok_or("no path")?;
    let path = folder.below(alloc, &relative);
    drop(relative);
    Ok(path?)
}

/// Returns the unit's command, which writes into its folder.
pub fn own_command(alloc: Global, folder: &PathText, key: &Key) -> Result<Command, Fail>
    ensures out { IfOk result (λ c. c.out ≡ Some (out_of folder.now key.now)) }
    ensures sorted { IfOk result (λ c. are_sorted c.pairs ≡ true) }
{
    let out = out_path(alloc, folder, key)?;
    let asked = asked_in(alloc, OWN)?;
    Ok(with_out(asked, out))
}
