//! Which calls fail, and how many were made; and calls that are repeated while each of their
//! requests for memory, reads or writes fails in turn.

ghost use Rattle.std.specs.Prelude.{◌≡◌, ◌+◌, ◌-◌, ◌^◌, ◌||◌, min};
ghost use Rattle.pg_testing.specs.Ledger.{fails_next, before_calls, after_call};

/// Which calls fail. Calls are numbered from 0.
#[derive(Clone, Copy)]
pub enum Rule {
    /// No call fails.
    Never,
    /// The call of this number fails, and each later one.
    FromOn(u64),
    /// The call of this number fails, and no other.
    Only(u64),
}

/// A rule, and what is known of the calls so far.
#[derive(Clone, Copy)]
pub struct Ledger {
    /// Which calls fail.
    pub rule: Rule,
    /// How many calls were made. The count stops at `u64::MAX`.
    pub calls: u64,
    /// Whether one of them failed.
    pub has_failed: bool,
}

impl Ledger {
    /// The ledger before the first call.
    pub fn new(rule: Rule) -> Ledger
        ensures { result ≡ before_calls rule }
    {
        Ledger {
            rule,
            calls: 0,
            has_failed: false,
        }
    }

    /// Whether the next call fails.
    pub fn fails_next(self) -> bool
        ensures { result ≡ fails_next self }
    {
        match self.rule {
            Rule::Never => false,
            Rule::FromOn(first) => self.calls >= first,
            Rule::Only(one) => self.calls == one,
        }
    }

    /// The ledger after one more call.
    pub fn after_call(self) -> Ledger
        ensures { result ≡ after_call self }
    {
        Ledger {
            rule: self.rule,
            calls: self.calls.saturating_add(1),
            has_failed: self.has_failed || self.fails_next(),
        }
    }
}

/// How a call ends.
#[derive(Clone, Copy, PartialEq, Eq)]
pub enum Outcome {
    /// Nothing failed, and all is as expected.
    Whole,
    /// Something failed, and the call reports it and leaves what is expected then.
    Failed,
    /// Anything else.
    Wrong,
}

/// More failures than a call has.
const MANY: u64 = 100_000;

/// A call that is repeated.
pub trait Trial {
    /// How the call ends if the request, the read or the write of this number fails.
    fn outcome(&mut self, number: u64) -> Outcome;

    /// The first failure after which the call doesn't end as expected: each fails in turn, up to
    /// the first number that the call doesn't reach. `Ok` is how many failed.
    fn failures(&mut self) -> Result<u64, u64> {
        for number in 0..MANY {
            match self.outcome(number) {
                Outcome::Failed => {}
                Outcome::Whole => return Ok(number),
                Outcome::Wrong => return Err(number),
            }
        }
        Err(MANY)
    }
}
