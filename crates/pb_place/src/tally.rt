//! The counters of a place whose calls may fail.

ghost use Rattle.std.specs.Prelude.{◌≡◌, IfOk, IfErr, OnOk, OnErr, Ok};
ghost use Rattle.pb_place_types.specs.Counts.{no_calls, past_call, past_fault, counted, counted_start};
ghost use Rattle.pb_place_types.specs.declared.place.PlaceFault.TheVariants as place_fault;
ghost use Rattle.pb_place.specs.Tallies.{past_finish, one_setting};

use pb_place_types::{Call, Failure, PlaceFault, StartFault};
use std::alloc::AllocError;
use std::marker::Model;

/// The counters of a place, the fault of the last call that failed, and the last failing call on
/// files or variables. Contracts see the counters without children in flight, since the place
/// itself reports these children.
#[derive(Debug, Drop)]
pub struct Tally {
    calls: u64,
    failures: u64,
    starts: u64,
    settings: u64,
    late: u64,
    last: Option<Failure>,
    failing: Option<Call>,
}

impl Model for Tally {
    ghost use Rattle.std.specs.Prelude.{[]};
    ghost use Rattle.pb_place_types.specs.Counts.{Counts};
    ghost use Rattle.pb_place.specs.Codes.{counts_code};

    ghost Value = { Counts };

    ghost coded = { counts_code };

    ghost view = { λ t. record {
      calls = t.calls;
      failures = t.failures;
      starts = record { count = t.starts; flying = []; settings = t.settings };
      late = t.late;
      last = t.last;
      failing = t.failing;
    } };
}

impl Tally {
    /// Returns the counters before any call. The call takes no memory.
    pub fn new() -> Tally
        ensures { result ≡ no_calls }
    {
        Tally {
            calls: 0,
            failures: 0,
            starts: 0,
            settings: 0,
            late: 0,
            last: None,
            failing: None,
        }
    }

    /// Returns the number of calls that failed.
    pub fn failures(&self) -> u64
        ensures { result ≡ self.now.failures }
    {
        self.failures
    }

    /// Returns the number of children that were requested.
    pub fn starts(&self) -> u64
        ensures { result ≡ self.now.starts.count }
    {
        self.starts
    }

    /// Returns the number of calls since the last failure.
    pub fn late(&self) -> u64
        ensures { result ≡ self.now.late }
    {
        self.late
    }

    /// Counts a call of `fuse` or `die` that sets which call fails.
    #[tactic(auto, unfolding(crate::specs::Tallies::next_setting))]
    pub fn set(&mut self)
        ensures { self.new ≡ one_setting self.old }
    {
        self.settings = self.settings.saturating_add(1);
    }

    /// Counts a call that did not fail.
    pub fn pass(&mut self)
        ensures { self.new ≡ past_call self.old }
    {
        self.calls = self.calls.saturating_add(1);
        if self.failures != 0 {
            self.late = self.late.saturating_add(1);
        } else {
            self.late = 0;
        }
    }

    /// Counts a fault of the outside world. The call itself is counted separately.
    pub fn fail(&mut self, failure: Failure)
        ensures { self.new ≡ past_fault failure self.old }
    {
        self.failures = self.failures.saturating_add(1);
        self.late = 0;
        self.last = Some(failure);
    }

    /// Returns the call that is made next, as a value.
    ///
    /// Errors: `OutOfMemory`, if there was no memory for this value. Then the call is counted, but
    /// not as a failure.
    pub fn note_call(&mut self, call: Result<Call, AllocError>) -> Result<Call, PlaceFault>
        ensures same { IfOk result (λ it. call ≡ Ok it) }
        ensures keeps { IfOk call (λ it. result ≡ Ok it) }
        ensures ok { OnOk result (self.new ≡ self.old) }
        ensures memory { IfErr result (λ e. e ≡ place_fault.OutOfMemory) }
        ensures err { OnErr result (self.new ≡ past_call self.old) }
    {
        match call {
            Ok(call) => Ok(call),
            Err(_) => {
                self.pass();
                Err(PlaceFault::OutOfMemory)
            }
        }
    }

    /// Counts a call on files or variables, as its result requires, and returns the result.
    pub fn count<T>(&mut self, call: Call, answer: Result<T, PlaceFault>) -> Result<T, PlaceFault>
        ensures same { result ≡ answer }
        ensures counts { self.new ≡ counted call answer self.old }
    {
        match answer {
            Ok(value) => {
                self.pass();
                Ok(value)
            }
            Err(PlaceFault::OutOfMemory) => {
                self.pass();
                Err(PlaceFault::OutOfMemory)
            }
            Err(fault) => {
                self.calls = self.calls.saturating_add(1);
                self.fail(Failure::Called(fault));
                self.failing = Some(call);
                Err(fault)
            }
        }
    }

    /// Counts a call that requests a child, as its result requires, and returns the result.
    pub fn count_start<T>(&mut self, answer: Result<T, StartFault>) -> Result<T, StartFault>
        ensures same { result ≡ answer }
        ensures counts { self.new ≡ counted_start answer self.old }
    {
        self.starts = self.starts.saturating_add(1);
        match answer {
            Ok(value) => {
                self.pass();
                Ok(value)
            }
            Err(StartFault::OutOfMemory) => {
                self.pass();
                Err(StartFault::OutOfMemory)
            }
            Err(fault) => {
                self.calls = self.calls.saturating_add(1);
                self.fail(Failure::Started(fault));
                Err(fault)
            }
        }
    }

    /// Counts a call of `finish` if it failed, and returns its result. Running out of memory is not
    /// counted.
    pub fn count_finish<T>(&mut self, answer: Result<T, StartFault>) -> Result<T, StartFault>
        ensures same { result ≡ answer }
        ensures counts { self.new ≡ past_finish answer self.old }
    {
        match answer {
            Ok(value) => Ok(value),
            Err(StartFault::OutOfMemory) => Err(StartFault::OutOfMemory),
            Err(fault) => {
                self.fail(Failure::Started(fault));
                Err(fault)
            }
        }
    }
}
