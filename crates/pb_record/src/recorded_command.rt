//! What was requested of a child.

ghost use Rattle.std.specs.Prelude.{◌≡◌, ◌++◌, OnOk};
ghost use Rattle.std.specs.List.{AllByRecursion};
ghost use Rattle.std.specs.Str.{IsUtf8};
ghost use Rattle.pb_record.specs.Grammar.{◌⨾◌, block, both, listed};
ghost use Rattle.pb_record.specs.Parts.{ArePairs, IsUtf8Path};
ghost use Rattle.pb_record.specs.Whole.{asked_of};

use crate::pairs::Pairs;
use crate::part::Part;
use pb_data::{Bytes, Items, Text};
use pb_place_types::PathText;
use std::alloc::{AllocError, Global};

/// What was requested of a unit's child: a command with an output folder and sorted variables.
#[derive(Drop)]
pub struct RecordedCommand {
    /// The program: a path, or a name that the system looks up.
    pub program: Text,
    /// The arguments after the program, in order.
    pub words: Items<Text>,
    /// The folder in which the child starts.
    pub folder: PathText,
    /// The variables that are set in addition to the inherited variables.
    pub pairs: Pairs,
    /// The folder into which the child writes.
    pub out: PathText,
    /// The target folder. The child sees only those parts of this folder that `reads` names.
    pub target: PathText,
    /// The compiler's output about its version.
    pub toolchain: Bytes,
    /// The folders below the target folder whose files the child may read.
    pub reads: Items<PathText>,
}

/// The parts of a request, in the order of a record's text.
type AskedParts = (
    Text,
    (
        Items<Text>,
        (
            PathText,
            (Pairs, (PathText, (PathText, (Bytes, Items<PathText>)))),
        ),
    ),
);

/// Returns the request that consists of these parts.
fn asked_of(parts: AskedParts) -> RecordedCommand
    ensures { result ≡ asked_of parts }
{
    let (program, (words, (folder, (pairs, (out, (target, (toolchain, reads))))))) = parts;
    RecordedCommand {
        program,
        words,
        folder,
        pairs,
        out,
        target,
        toolchain,
        reads,
    }
}

/// Adds the program, its arguments, the folder and the variables.
fn write_command(asked: &RecordedCommand, out: &mut Vec<u8>) -> Result<(), AllocError>
    ensures written { OnOk result (out.new.items ≡ out.old.items
        ++ (block asked.now.program ⨾ listed block asked.now.words ⨾ block asked.now.folder ⨾ listed
        (both block block) asked.now.pairs)) }
    ensures are { OnOk result (IsUtf8 asked.now.program × AllByRecursion IsUtf8 asked.now.words
        × IsUtf8Path asked.now.folder × ArePairs asked.now.pairs) }
{
    asked.program.write(out)?;
    asked.words.write(out)?;
    asked.folder.write(out)?;
    asked.pairs.write(out)?;
    Ok(())
}

/// Adds the folder into which the child writes, the compiler's version, and what the child may
/// read.
fn write_paths(asked: &RecordedCommand, out: &mut Vec<u8>) -> Result<(), AllocError>
    ensures written { OnOk result (out.new.items ≡ out.old.items
        ++ (block asked.now.out ⨾ block asked.now.target ⨾ block asked.now.toolchain ⨾ listed block
        asked.now.reads)) }
    ensures are { OnOk result (IsUtf8Path asked.now.out × IsUtf8Path asked.now.target
        × AllByRecursion IsUtf8Path asked.now.reads) }
{
    asked.out.write(out)?;
    asked.target.write(out)?;
    asked.toolchain.write(out)?;
    asked.reads.write(out)?;
    Ok(())
}

impl Part for RecordedCommand {
    ghost use Rattle.pb_record.specs.Grammar.{asked_bytes};
    ghost use Rattle.pb_record.specs.Parts.{IsAsked};

    ghost is_part = { IsAsked };

    ghost spelled = { asked_bytes };

    fn read(alloc: Global, text: &[u8]) -> Result<Option<(RecordedCommand, &[u8])>, AllocError> {
        match <AskedParts as Part>::read(alloc, text) {
            Ok(Some((parts, rest))) => Ok(Some((asked_of(parts), rest))),
            Ok(None) => Ok(None),
            Err(fault) => Err(fault),
        }
    }

    fn skip(alloc: Global, text: &[u8]) -> Result<Option<&[u8]>, AllocError> {
        match <AskedParts as Part>::skip(alloc, text) {
            Ok(Some(rest)) => Ok(Some(rest)),
            Ok(None) => Ok(None),
            Err(fault) => Err(fault),
        }
    }

    fn write(&self, out: &mut Vec<u8>) -> Result<(), AllocError> {
        write_command(self, out)?;
        write_paths(self, out)?;
        Ok(())
    }

    #[tactic(auto, using(crate::proofs::WholeLemmas::asked_spelling))]
    fn spells() {}
}
