//! Numbers, bytes, texts and paths as parts of a record.

ghost use Rattle.std.specs.Prelude.{◌≡◌};

use crate::block::{block_at, push_block, text_at};
use crate::number::{number_at, push_number};
use crate::part::Part;
use pb_data::{Bytes, Text};
use pb_place_types::{PathText, RelativePath};
use std::alloc::{AllocError, Global};

impl Part for u64 {
    ghost use Rattle.pb_record.specs.Grammar.{number};
    ghost use Rattle.pb_record.specs.Parts.{IsNumber};

    ghost is_part = { IsNumber };

    ghost spelled = { number };

    fn read(_alloc: Global, text: &[u8]) -> Result<Option<(u64, &[u8])>, AllocError> {
        Ok(number_at(text))
    }

    fn write(&self, out: &mut Vec<u8>) -> Result<(), AllocError> {
        push_number(out, *self)
    }

    #[tactic(auto, using(crate::proofs::NumberLemmas::number_spelling))]
    fn spells() {}
}

impl Part for Bytes {
    ghost use Rattle.pb_record.specs.Grammar.{block};
    ghost use Rattle.pb_record.specs.Parts.{IsAny};

    ghost is_part = { IsAny };

    ghost spelled = { block };

    fn read(alloc: Global, text: &[u8]) -> Result<Option<(Bytes, &[u8])>, AllocError> {
        match block_at(text) {
            Some((bytes, rest)) => {
                let made = Bytes::from_slice(alloc, bytes)?;
                Ok(Some((made, rest)))
            }
            None => Ok(None),
        }
    }

    fn skip(_alloc: Global, text: &[u8]) -> Result<Option<&[u8]>, AllocError> {
        match block_at(text) {
            Some((_, rest)) => Ok(Some(rest)),
            None => Ok(None),
        }
    }

    fn write(&self, out: &mut Vec<u8>) -> Result<(), AllocError> {
        push_block(out, self.as_slice())
    }

    #[tactic(auto, using(crate::proofs::BlockLemmas::block_spelling))]
    fn spells() {}
}

impl Part for Text {
    ghost use Rattle.std.specs.Str.{IsUtf8};
    ghost use Rattle.pb_record.specs.Grammar.{block};

    ghost is_part = { IsUtf8 };

    ghost spelled = { block };

    fn read(alloc: Global, text: &[u8]) -> Result<Option<(Text, &[u8])>, AllocError> {
        match text_at(text) {
            Some((inside, rest)) => {
                let made = Text::from_str(alloc, inside)?;
                Ok(Some((made, rest)))
            }
            None => Ok(None),
        }
    }

    fn skip(_alloc: Global, text: &[u8]) -> Result<Option<&[u8]>, AllocError> {
        match text_at(text) {
            Some((_, behind)) => Ok(Some(behind)),
            None => Ok(None),
        }
    }

    fn write(&self, out: &mut Vec<u8>) -> Result<(), AllocError> {
        push_block(out, self.as_str().as_bytes())
    }

    #[tactic(auto, using(crate::proofs::BlockLemmas::block_spelling))]
    fn spells() {}
}

impl Part for PathText {
    ghost use Rattle.pb_record.specs.Grammar.{block};
    ghost use Rattle.pb_record.specs.Parts.{IsUtf8Path};

    ghost is_part = { IsUtf8Path };

    ghost spelled = { block };

    fn read(alloc: Global, text: &[u8]) -> Result<Option<(PathText, &[u8])>, AllocError> {
        match text_at(text) {
            Some((inside, rest)) => {
                let made = Text::from_str(alloc, inside)?;
                match PathText::of(made) {
                    Some(path) => Ok(Some((path, rest))),
                    None => Ok(None),
                }
            }
            None => Ok(None),
        }
    }

    fn write(&self, out: &mut Vec<u8>) -> Result<(), AllocError> {
        push_block(out, self.as_str().as_bytes())
    }

    #[tactic(auto, using(crate::proofs::BlockLemmas::block_spelling))]
    fn spells() {}
}

impl Part for RelativePath {
    ghost use Rattle.pb_record.specs.Grammar.{block};
    ghost use Rattle.pb_record.specs.Parts.{IsInside};

    ghost is_part = { IsInside };

    ghost spelled = { block };

    fn read(alloc: Global, text: &[u8]) -> Result<Option<(RelativePath, &[u8])>, AllocError> {
        match text_at(text) {
            Some((inside, rest)) => {
                let made = Text::from_str(alloc, inside)?;
                match RelativePath::of(made) {
                    Some(path) => Ok(Some((path, rest))),
                    None => Ok(None),
                }
            }
            None => Ok(None),
        }
    }

    fn write(&self, out: &mut Vec<u8>) -> Result<(), AllocError> {
        push_block(out, self.as_str().as_bytes())
    }

    #[tactic(auto, using(crate::proofs::BlockLemmas::block_spelling))]
    fn spells() {}
}
