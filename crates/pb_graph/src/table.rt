//! Rules, each written with two premises, and what follows from the rules.

ghost use Rattle.std.specs.Prelude.{◌<◌, IfOk, All, Contains};
ghost use Rattle.pb_graph.specs.Closure.{Least, IsLeast, is_on};
ghost use Rattle.pb_graph.specs.Table.{joined_by, IsInRange};

use crate::closure::{Rules, least};
use crate::index::{Index, index_of, put_linked};
use std::alloc::{AllocError, Global};

/// A rule: two things that together yield a third. A rule with one premise names this premise
/// twice.
#[derive(Clone, Copy)]
pub struct Rule {
    pub first: usize,
    pub second: usize,
    pub gives: usize,
}

/// Rules, and their index.
#[derive(Drop)]
struct Indexed<'a> {
    rules: &'a [Rule],
    index: &'a Index,
}

impl<'a> Rules for Indexed<'a> {
    ghost use Rattle.std.specs.Prelude.{length};
    ghost use Rattle.pb_graph.specs.Table.{joined_by};
    ghost use Rattle.pb_graph.specs.Index.{IsIndex, either_way};

    ghost count = { λ a. length a.index.now.heads.items };

    ghost joins = { λ a. joined_by a.rules.now };

    ghost is_fit = { λ a. IsIndex (length a.index.now.heads.items) (either_way a.rules.now) a.index.now.heads.items a.index.now.links.items };

    fn count_things(&self) -> usize {
        self.index.heads.len()
    }

    fn put_given(
        &self,
        known: &[bool],
        thing: usize,
        given: &mut Vec<usize>,
    ) -> Result<(), AllocError> {
        let head = self.index.heads[thing];
        put_linked(known, self.index.links.as_slice(), head, given)?;
        Ok(())
    }
}

/// Returns what follows from the seeds by the rules, among the things from 0 up to a count. Each
/// rule is looked at once for each of its premises.
///
/// Errors: out of memory.
pub fn derive(
    alloc: Global,
    count: usize,
    seeds: &[usize],
    rules: &[Rule],
) -> Result<Vec<bool>, AllocError>
    requires seeds { All (λ x. x < count) seeds.now }
    requires rules { All (IsInRange count) rules.now }
    ensures { IfOk result
        (λ marks. IsLeast (Least (Contains seeds.now) (joined_by rules.now)) (is_on marks.items)) }
{
    let index = index_of(alloc, count, rules)?;
    let indexed = Indexed {
        rules,
        index: &index,
    };
    let marks = least(alloc, &indexed, seeds)?;
    Ok(marks)
}
