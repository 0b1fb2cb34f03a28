//! Turns, which decide the next step, and picks, which decide which unit begins.

ghost use Rattle.std.specs.Prelude.{◌≡◌, ◌<◌, ◌+◌, ℕ, List, length};
ghost use Rattle.pb_run_flight.specs.declared.turn.Step.{Step};
ghost use Rattle.pb_run_flight.specs.Steps.{IsWithin, PicksFirst, PicksLast, PicksLent, TurnsOfJobs};

/// A step of a build: a unit begins or a unit answers. A turn gets two lists: the first contains
/// the units that may begin, the second the units in flight.
#[derive(Clone, Copy, Debug)]
pub enum Step {
    /// The unit at this index of the first list begins.
    Begin(usize),
    /// The unit at this index of the second list answers.
    Answer(usize),
}

/// Decides each step of a build. A turn may have a state, which each step may change.
pub trait Turn {
    /// How the turn's state, the two lists, the step and the turn's new state are related.
    ghost turns: { Self → List ℕ → List ℕ → Step → Self → Type 0 };

    /// Returns the next step. `ready` contains the units that may begin, in plan order. `flying`
    /// contains the units that have begun and not answered, in the order in which they began. At
    /// least one of the two lists contains a unit. The step has an index of `ready` for `Begin`,
    /// and of `flying` for `Answer`. No memory is used.
    fn turn(&mut self, ready: &[usize], flying: &[usize]) -> Step
        requires some { 0 < length ready.now + length flying.now }
        ensures turned { turns self.old ready.now flying.now result self.new }
        ensures within { IsWithin (length ready.now) (length flying.now) result };
}

/// Decides which unit begins. A pick may have a state, which each call may change.
pub trait Pick {
    /// How the pick's state, the list, the answer and the pick's new state are related.
    ghost picks: { Self → List ℕ → ℕ → Self → Type 0 };

    /// Returns an index of a list that is not empty. The list contains the units that may begin, in
    /// plan order. The unit at the returned index begins. No memory is used.
    fn pick(&mut self, ready: &[usize]) -> usize
        requires some { 0 < length ready.now }
        ensures picked { picks self.old ready.now result self.new }
        ensures within { result < length ready.now };
}

/// A borrowed pick chooses as the pick itself does. The reference stays the same.
impl<P: Pick> Pick for &mut P {
    ghost picks = { PicksLent P.picks };

    fn pick(&mut self, ready: &[usize]) -> usize {
        (**self).pick(ready)
    }
}

/// Picks the first unit in plan order.
#[derive(Drop)]
pub struct First {}

impl Pick for First {
    ghost picks = { λ old ready place new. PicksFirst ready place };

    fn pick(&mut self, ready: &[usize]) -> usize {
        0
    }
}

/// Picks the last unit in plan order.
#[derive(Drop)]
pub struct Last {}

impl Pick for Last {
    ghost picks = { λ old ready place new. PicksLast ready place };

    fn pick(&mut self, ready: &[usize]) -> usize {
        ready.len() - 1
    }
}

/// A turn that a number of jobs and a pick determine. If a unit may begin and the number of units
/// in flight is less than the number of jobs, the picked unit begins. Otherwise the unit that has
/// been in flight longest answers. Zero jobs count as one job (our own choice).
#[derive(Drop)]
pub struct Jobs<P> {
    /// Which unit begins.
    pub pick: P,
    /// How many units may be in flight at a time.
    pub jobs: u64,
}

impl<P: Pick> Turn for Jobs<P> {
    ghost turns = { TurnsOfJobs P.picks };

    fn turn(&mut self, ready: &[usize], flying: &[usize]) -> Step {
        if !ready.is_empty() && (flying.len() as u64) < self.jobs.max(1) {
            Step::Begin(self.pick.pick(ready))
        } else {
            Step::Answer(0)
        }
    }
}
