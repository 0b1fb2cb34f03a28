//! Inputs and variables as parts of a record.

ghost use Rattle.std.specs.Prelude.{◌≡◌, ◌++◌, codes, IfOk, OnOk, MatchOption};
ghost use Rattle.pb_record.specs.Grammar.{line, input_bytes};
ghost use Rattle.pb_record.specs.Parts.{IsInput};
ghost use Rattle.pb_record.specs.Reading.{BeginsWith, StandsNone, StandsSome};

use crate::front::after;
use crate::pairs::Pairs;
use crate::part::Part;
use crate::record::Input;
use pb_data::{Bytes, Items, Text};
use pb_place_types::{PathText, RelativePath};
use std::alloc::{AllocError, Global};

impl Part for Option<Text> {
    ghost use Rattle.pb_record.specs.Grammar.{perhaps};
    ghost use Rattle.pb_record.specs.Parts.{IsPerhaps};

    ghost is_part = { IsPerhaps };

    ghost spelled = { perhaps };

    fn read(alloc: Global, text: &[u8]) -> Result<Option<(Option<Text>, &[u8])>, AllocError> {
        if let Some(rest) = after(b"0\n", text) {
            return Ok(Some((None, rest)));
        }
        let Some(behind) = after(b"1\n", text) else {
            return Ok(None);
        };
        match Text::read(alloc, behind) {
            Ok(Some((inside, rest))) => Ok(Some((Some(inside), rest))),
            Ok(None) => Ok(None),
            Err(fault) => Err(fault),
        }
    }

    fn write(&self, out: &mut Vec<u8>) -> Result<(), AllocError> {
        match self {
            None => {
                out.extend_from_slice(b"0\n")?;
                Ok(())
            }
            Some(inside) => {
                out.extend_from_slice(b"1\n")?;
                inside.write(out)
            }
        }
    }

    #[tactic(auto, using(crate::proofs::InputLemmas::perhaps_spelling))]
    fn spells() {}
}

impl Part for Pairs {
    ghost use Rattle.pb_record.specs.Grammar.{listed, both, block};
    ghost use Rattle.pb_record.specs.Parts.{ArePairs};

    ghost is_part = { ArePairs };

    ghost spelled = { listed (both block block) };

    fn read(alloc: Global, text: &[u8]) -> Result<Option<(Pairs, &[u8])>, AllocError> {
        let found: Option<(Items<(Text, Text)>, &[u8])> = Part::read(alloc, text)?;
        match found {
            Some((items, rest)) => match Pairs::of(items) {
                Some(pairs) => Ok(Some((pairs, rest))),
                None => Ok(None),
            },
            None => Ok(None),
        }
    }

    fn write(&self, out: &mut Vec<u8>) -> Result<(), AllocError> {
        self.as_items().write(out)
    }

    #[tactic(auto, using(crate::proofs::InputLemmas::pairs_spelling))]
    fn spells() {}
}

/// Reads a file after its letter: returns the file, and what follows the file in the text.
fn file_at(alloc: Global, text: &[u8]) -> Result<Option<(Input, &[u8])>, AllocError>
    ensures { IfOk result (λ found.
        MatchOption found (StandsNone IsInput input_bytes (line (codes "f") ++ text.now)) (λ p.
        BeginsWith IsInput input_bytes (line (codes "f") ++ text.now) p.0 p.1.now)) }
{
    match <(PathText, Bytes) as Part>::read(alloc, text) {
        Ok(Some((file, rest))) => Ok(Some((Input::File(file.0, file.1), rest))),
        Ok(None) => Ok(None),
        Err(fault) => Err(fault),
    }
}

/// Reads a folder after its letter: returns the folder, and what follows the folder in the text.
fn tree_at(alloc: Global, text: &[u8]) -> Result<Option<(Input, &[u8])>, AllocError>
    ensures { IfOk result (λ found.
        MatchOption found (StandsNone IsInput input_bytes (line (codes "t") ++ text.now)) (λ p.
        BeginsWith IsInput input_bytes (line (codes "t") ++ text.now) p.0 p.1.now)) }
{
    match <(PathText, Items<(RelativePath, Bytes)>) as Part>::read(alloc, text) {
        Ok(Some((tree, rest))) => Ok(Some((Input::Tree(tree.0, tree.1), rest))),
        Ok(None) => Ok(None),
        Err(fault) => Err(fault),
    }
}

/// Reads a variable after its letter: returns the variable, and what follows the variable in the
/// text.
fn value_at(alloc: Global, text: &[u8]) -> Result<Option<(Input, &[u8])>, AllocError>
    ensures { IfOk result (λ found.
        MatchOption found (StandsNone IsInput input_bytes (line (codes "v") ++ text.now)) (λ p.
        BeginsWith IsInput input_bytes (line (codes "v") ++ text.now) p.0 p.1.now)) }
{
    match <(Text, Option<Text>) as Part>::read(alloc, text) {
        Ok(Some((pair, rest))) => Ok(Some((Input::Value(pair.0, pair.1), rest))),
        Ok(None) => Ok(None),
        Err(fault) => Err(fault),
    }
}

/// Skips a file after its letter: returns what follows the file in the text.
fn skip_file(alloc: Global, text: &[u8]) -> Result<Option<&[u8]>, AllocError>
    ensures { IfOk result (λ found. MatchOption found
        (StandsNone IsInput input_bytes (line (codes "f") ++ text.now))
        (λ rest. StandsSome IsInput input_bytes (line (codes "f") ++ text.now) rest.now)) }
{
    match <(PathText, Bytes) as Part>::skip(alloc, text) {
        Ok(Some(rest)) => Ok(Some(rest)),
        Ok(None) => Ok(None),
        Err(fault) => Err(fault),
    }
}

/// Skips a folder after its letter: returns what follows the folder in the text.
fn skip_tree(alloc: Global, text: &[u8]) -> Result<Option<&[u8]>, AllocError>
    ensures { IfOk result (λ found. MatchOption found
        (StandsNone IsInput input_bytes (line (codes "t") ++ text.now))
        (λ rest. StandsSome IsInput input_bytes (line (codes "t") ++ text.now) rest.now)) }
{
    match <(PathText, Items<(RelativePath, Bytes)>) as Part>::skip(alloc, text) {
        Ok(Some(rest)) => Ok(Some(rest)),
        Ok(None) => Ok(None),
        Err(fault) => Err(fault),
    }
}

/// Skips a variable after its letter: returns what follows the variable in the text.
fn skip_value(alloc: Global, text: &[u8]) -> Result<Option<&[u8]>, AllocError>
    ensures { IfOk result (λ found. MatchOption found
        (StandsNone IsInput input_bytes (line (codes "v") ++ text.now))
        (λ rest. StandsSome IsInput input_bytes (line (codes "v") ++ text.now) rest.now)) }
{
    match <(Text, Option<Text>) as Part>::skip(alloc, text) {
        Ok(Some(rest)) => Ok(Some(rest)),
        Ok(None) => Ok(None),
        Err(fault) => Err(fault),
    }
}

/// Adds a line and two parts after the line.
fn write_behind<A: Part, B: Part>(
    line: &[u8],
    first: &A,
    second: &B,
    out: &mut Vec<u8>,
) -> Result<(), AllocError>
    ensures written { OnOk result (out.new.items ≡ out.old.items
        ++ (line.now ++ (A.spelled first.now ++ B.spelled second.now))) }
    ensures are { OnOk result (A.is_part first.now × B.is_part second.now) }
{
    out.extend_from_slice(line)?;
    first.write(out)?;
    second.write(out)?;
    Ok(())
}

impl Part for Input {
    ghost use Rattle.pb_record.specs.Grammar.{input_bytes};
    ghost use Rattle.pb_record.specs.Parts.{IsInput};

    ghost is_part = { IsInput };

    ghost spelled = { input_bytes };

    fn read(alloc: Global, text: &[u8]) -> Result<Option<(Input, &[u8])>, AllocError> {
        if let Some(rest) = after(b"f\n", text) {
            return file_at(alloc, rest);
        }
        if let Some(rest) = after(b"t\n", text) {
            return tree_at(alloc, rest);
        }
        if let Some(rest) = after(b"v\n", text) {
            return value_at(alloc, rest);
        }
        Ok(None)
    }

    fn skip(alloc: Global, text: &[u8]) -> Result<Option<&[u8]>, AllocError> {
        if let Some(rest) = after(b"f\n", text) {
            return skip_file(alloc, rest);
        }
        if let Some(rest) = after(b"t\n", text) {
            return skip_tree(alloc, rest);
        }
        if let Some(rest) = after(b"v\n", text) {
            return skip_value(alloc, rest);
        }
        Ok(None)
    }

    fn write(&self, out: &mut Vec<u8>) -> Result<(), AllocError> {
        match self {
            Input::File(path, bytes) => write_behind(b"f\n", path, bytes, out),
            Input::Tree(path, files) => write_behind(b"t\n", path, files, out),
            Input::Value(name, value) => write_behind(b"v\n", name, value, out),
        }
    }

    #[tactic(auto, using(crate::proofs::InputLemmas::input_spelling))]
    fn spells() {}
}
