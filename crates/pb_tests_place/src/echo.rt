//! A child that prints what it sees.

ghost use Rattle.std.specs.Prelude.{◌≡◌, ◌++◌, ◌∷◌, [], true, codes, Option, IfOk, OnOk};
ghost use Rattle.std.specs.Option.{unwrap_or};
ghost use Rattle.pb_place_types.specs.Paths.{is_relative};

use pb_data::{Bytes, Items, Text, TryCopy};
use pb_place_types::{Child, Command, PathFault, PathText, RelativePath, Reply, View, ViewFault};
use std::alloc::{AllocError, Global};

/// A child that writes the file that it sees at the command's folder to standard output, and the
/// variable that the program names to standard error. It leaves the two at `a` and `d/b`, and then
/// the first at `d/b` again. Its status is 7.
#[derive(Clone, Copy, Debug)]
pub struct Echo;

/// Returns the bytes that were found, or none.
fn bytes_of(alloc: Global, found: Option<Bytes>) -> Result<Bytes, AllocError>
    ensures { IfOk result (λ bytes. bytes ≡ unwrap_or found []) }
{
    match found {
        Some(bytes) => Ok(bytes),
        None => Bytes::from_slice(alloc, b""),
    }
}

/// Returns the bytes of the text that was found, or none.
fn text_of(alloc: Global, found: Option<Text>) -> Result<Bytes, AllocError>
    ensures { IfOk result (λ bytes. bytes ≡ unwrap_or found []) }
{
    match found {
        Some(text) => Bytes::from_slice(alloc, text.as_str().as_bytes()),
        None => Bytes::from_slice(alloc, b""),
    }
}

/// Adds a file with a copy of these bytes.
fn leave(
    alloc: Global,
    files: &mut Items<(RelativePath, Bytes)>,
    name: &str,
    bytes: &Bytes,
) -> Result<(), AllocError>
    requires { is_relative name.now ≡ true }
    ensures { OnOk result (files.new ≡ files.old ++ (name.now, bytes.now) ∷ []) }
{
    let name = RelativePath::name(alloc, name)?;
    let bytes = bytes.copy(alloc)?;
    files.push((name, bytes))
}

/// Returns what the child leaves if it sees this file and this variable.
fn files_left(
    alloc: Global,
    file: &Bytes,
    value: &Bytes,
) -> Result<Items<(RelativePath, Bytes)>, AllocError>
    ensures { IfOk result (λ files. files
        ≡ (codes "a", file.now) ∷ (codes "d/b", value.now) ∷ (codes "d/b", file.now) ∷ []) }
{
    let mut files = Items::new(alloc);
    leave(alloc, &mut files, "a", file)?;
    leave(alloc, &mut files, "d/b", value)?;
    leave(alloc, &mut files, "d/b", file)?;
    Ok(files)
}

impl Child for Echo {
    ghost use Rattle.std.specs.Prelude.{[], ◌∷◌, pos, codes};
    ghost use Rattle.std.specs.Option.{unwrap_or};
    ghost use Rattle.std.specs.FinMap as map;

    ghost answers = { λ c w.
        let file = unwrap_or (map.get w.files c.folder) [] in
        let value = unwrap_or (map.get w.variables c.program) [] in
        record { status = pos 7; stdout = file; stderr = value; files = (codes "a", file) ∷ (codes "d/b", value) ∷ (codes "d/b", file) ∷ [] } };

    fn reply<V: View>(
        &self,
        alloc: Global,
        command: &Command,
        view: &V,
    ) -> Result<Reply, ViewFault> {
        let stdout = bytes_of(alloc, view.file(alloc, &command.folder)?)?;
        let stderr = text_of(alloc, view.variable(alloc, command.program.as_str())?)?;
        let files = files_left(alloc, &stdout, &stderr)?;
        Ok(Reply {
            status: 7,
            stdout,
            stderr,
            files,
        })
    }
}

/// Returns a command without words and pairs, that may read nothing in its target folder.
fn command_of(
    alloc: Global,
    program: Text,
    folder: PathText,
    out: PathText,
    target: PathText,
) -> Command {
    Command {
        program,
        words: Items::new(alloc),
        folder,
        pairs: Items::new(alloc),
        out: Some(out),
        target,
        toolchain: Bytes::new(Vec::new(alloc)),
        reads: Items::new(alloc),
    }
}

/// Returns a command with the variable NAME in the target folder `/w/target`.
fn in_target(alloc: Global, folder: &str, out: &str) -> Result<Command, PathFault> {
    let program = Text::from_str(alloc, "NAME")?;
    let folder = PathText::parse(alloc, folder)?;
    let out = PathText::parse(alloc, out)?;
    let target = PathText::parse(alloc, "/w/target")?;
    Ok(command_of(alloc, program, folder, out, target))
}

/// Adds a path.
fn add_path(alloc: Global, paths: &mut Items<PathText>, path: &str) -> Result<(), PathFault> {
    let path = PathText::parse(alloc, path)?;
    Ok(paths.push(path)?)
}

/// Returns a command for the child: it prints the file at `folder` and the variable NAME, and
/// writes into `out`. In the target folder `/w/target`, the child sees only what is below
/// `/w/target/dep`.
pub fn say(alloc: Global, folder: &str, out: &str) -> Result<Command, PathFault> {
    let mut command = in_target(alloc, folder, out)?;
    match add_path(alloc, &mut command.reads, "/w/target/dep") {
        Ok(()) => Ok(command),
        Err(fault) => {
            drop(command);
            Err(fault)
        }
    }
}
