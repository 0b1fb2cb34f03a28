//! Two parts one after the other, and lists of parts.

ghost use Rattle.std.specs.Prelude.{◌≡◌, ◌++◌, IfOk, OnOk, MatchOption};
ghost use Rattle.std.specs.List.{flat_map, AllByRecursion};
ghost use Rattle.pb_record.specs.Reading.{BeginsWith, StandsNone, StandsSome, HasCount};

use crate::number::{number_at, push_number};
use crate::part::Part;
use pb_data::Items;
use std::alloc::{AllocError, Global};

impl<A: Part, B: Part> Part for (A, B) {
    ghost use Rattle.pb_record.specs.Grammar.{both};
    ghost use Rattle.pb_record.specs.Parts.{AreBoth};

    ghost is_part = { AreBoth A.is_part B.is_part };

    ghost spelled = { both A.spelled B.spelled };

    fn read(alloc: Global, text: &[u8]) -> Result<Option<((A, B), &[u8])>, AllocError> {
        A::spells();
        match A::read(alloc, text) {
            Ok(Some((first, after))) => match B::read(alloc, after) {
                Ok(Some((second, rest))) => Ok(Some(((first, second), rest))),
                Ok(None) => Ok(None),
                Err(fault) => Err(fault),
            },
            Ok(None) => Ok(None),
            Err(fault) => Err(fault),
        }
    }

    fn skip(alloc: Global, text: &[u8]) -> Result<Option<&[u8]>, AllocError> {
        A::spells();
        match A::skip(alloc, text) {
            Ok(Some(after)) => B::skip(alloc, after),
            Ok(None) => Ok(None),
            Err(fault) => Err(fault),
        }
    }

    fn write(&self, out: &mut Vec<u8>) -> Result<(), AllocError> {
        self.0.write(out)?;
        self.1.write(out)?;
        Ok(())
    }

    #[tactic(auto, using(crate::proofs::PartLemmas::both_spelling))]
    fn spells() {
        A::spells();
        B::spells();
    }
}

/// Returns n parts with which a text begins, and what follows these parts.
fn read_items<T: Part>(
    alloc: Global,
    text: &[u8],
    count: u64,
) -> Result<Option<(Items<T>, &[u8])>, AllocError>
    ensures { IfOk result (λ found.
        MatchOption found (StandsNone (HasCount T.is_part count) (flat_map T.spelled) text.now)
        (λ p. BeginsWith (HasCount T.is_part count) (flat_map T.spelled) text.now p.0 p.1.now)) }
{
    T::spells();
    let mut items = Items::new(alloc);
    let mut rest = text;
    for _ in 0..count {
        match T::read(alloc, rest)? {
            Some((item, after)) => {
                items.push(item)?;
                rest = after;
            }
            None => return Ok(None),
        }
    }
    Ok(Some((items, rest)))
}

/// Returns what follows n parts with which a text begins.
fn skip_items<T: Part>(alloc: Global, text: &[u8], number: u64) -> Result<Option<&[u8]>, AllocError>
    ensures { IfOk result (λ found. MatchOption found
        (StandsNone (HasCount T.is_part number) (flat_map T.spelled) text.now)
        (λ rest. StandsSome (HasCount T.is_part number) (flat_map T.spelled) text.now rest.now)) }
{
    T::spells();
    let mut rest = text;
    for _ in 0..number {
        match T::skip(alloc, rest)? {
            Some(after) => rest = after,
            None => return Ok(None),
        }
    }
    Ok(Some(rest))
}

/// Adds parts at the end of a text, one after another.
fn write_items<T: Part>(items: &[T], out: &mut Vec<u8>) -> Result<(), AllocError>
    ensures written { OnOk result (out.new.items ≡ out.old.items ++ flat_map T.spelled items.now) }
    ensures are { OnOk result (AllByRecursion T.is_part items.now) }
{
    for item in items {
        item.write(out)?;
    }
    Ok(())
}

impl<T: Part> Part for Items<T> {
    ghost use Rattle.std.specs.List.{AllByRecursion};
    ghost use Rattle.pb_record.specs.Grammar.{listed};

    ghost is_part = { AllByRecursion T.is_part };

    ghost spelled = { listed T.spelled };

    fn read(alloc: Global, text: &[u8]) -> Result<Option<(Items<T>, &[u8])>, AllocError> {
        T::spells();
        match number_at(text) {
            Some((count, after)) => read_items(alloc, after, count),
            None => Ok(None),
        }
    }

    fn skip(alloc: Global, text: &[u8]) -> Result<Option<&[u8]>, AllocError> {
        T::spells();
        match number_at(text) {
            Some((count, after)) => skip_items::<T>(alloc, after, count),
            None => Ok(None),
        }
    }

    fn write(&self, out: &mut Vec<u8>) -> Result<(), AllocError> {
        push_number(out, self.len() as u64)?;
        write_items(self.as_slice(), out)?;
        Ok(())
    }

    #[tactic(auto, using(crate::proofs::PartLemmas::list_spelling))]
    fn spells() {
        T::spells();
    }
}
