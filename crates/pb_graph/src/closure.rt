//! The least set that rules yield. The set is computed with a list of the things that must still be
//! looked at.

ghost use Rattle.std.specs.Prelude.{◌≡◌, ℕ, ◌+◌, ◌<◌, IfOk, OnOk, All, Contains, IsTrue, length};
ghost use Rattle.pb_graph.specs.Closure.{Least, IsYielded, IsLeast, is_on, with_mark, with_marks};

use std::alloc::{AllocError, Global};
use std::collections::VecDeque;

/// Rules over the things from 0 up to a count, each with at most two premises.
pub trait Rules {
    /// The number of things.
    ghost count: { Self → ℕ };

    /// Two things together yield a third. A rule with one premise joins a thing with itself.
    ghost joins: { Self → ℕ → ℕ → ℕ → Type 0 };

    /// The rules are well formed, as `put_given` requires.
    ghost is_fit: { Self → Type 0 };

    /// Returns the number of things.
    fn count_things(&self) -> usize
        ensures { result ≡ count self.now };

    /// Replaces the contents of a buffer by what a known thing yields together with the known
    /// things. The buffer may also get other things that follow from known things.
    fn put_given(
        &self,
        known: &[bool],
        thing: usize,
        given: &mut Vec<usize>,
    ) -> Result<(), AllocError>
        requires known { length known.now ≡ count self.now }
        requires thing { IsTrue (is_on known.now thing) }
        requires fit { is_fit self.now }
        ensures within { OnOk result (All (λ z. z < count self.now) given.new.items) }
        ensures given { OnOk result
            (IsYielded (joins self.now) (is_on known.now) thing given.new.items) };
}

/// Marks a thing and puts it on the list, unless the thing is marked already.
fn mark_one(
    marks: &mut Vec<bool>,
    todo: &mut VecDeque<usize>,
    thing: usize,
) -> Result<(), AllocError>
    requires { thing < length marks.old.items }
    ensures long { length marks.new.items ≡ length marks.old.items }
    ensures marked { OnOk result ((marks.new.items, todo.new.items)
        ≡ with_mark (marks.old.items, todo.old.items) thing) }
{
    if marks[thing] {
        return Ok(());
    }
    todo.push_back(thing)?;
    marks[thing] = true;
    Ok(())
}

/// Marks things, and puts each thing that was not marked before on the list.
fn mark(
    marks: &mut Vec<bool>,
    todo: &mut VecDeque<usize>,
    things: &[usize],
) -> Result<(), AllocError>
    requires { All (λ x. x < length marks.old.items) things.now }
    ensures long { length marks.new.items ≡ length marks.old.items }
    ensures marked { OnOk result ((marks.new.items, todo.new.items)
        ≡ with_marks (marks.old.items, todo.old.items) things.now) }
{
    for thing in things {
        mark_one(marks, todo, *thing)?;
    }
    Ok(())
}

/// Returns for each thing whether the thing is in the least set that contains the seeds and is
/// closed under the rules. Each thing is looked at once, in the order in which the things are
/// found. This order is fast because things that are found together are mostly close in memory.
///
/// Errors: out of memory.
pub fn least<R: Rules>(alloc: Global, rules: &R, seeds: &[usize]) -> Result<Vec<bool>, AllocError>
    requires seeds { All (λ x. x < R.count rules.now) seeds.now }
    requires fit { R.is_fit rules.now }
    ensures { IfOk result
        (λ marks. IsLeast (Least (Contains seeds.now) (R.joins rules.now)) (is_on marks.items)) }
{
    let mut marks = vec![in alloc; false; rules.count_things()]?;
    let mut todo = VecDeque::new(alloc);
    let mut given = Vec::new(alloc);
    mark(&mut marks, &mut todo, seeds)?;
    while let Some(thing) = todo.pop_front() {
        rules.put_given(marks.as_slice(), thing, &mut given)?;
        mark(&mut marks, &mut todo, given.as_slice())?;
    }
    Ok(marks)
}
