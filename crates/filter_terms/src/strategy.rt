//! Limits with a closure that gives advice within them.

ghost use Rattle.std.specs.Prelude.{◌≡◌, Some, None};
ghost use Rattle.std.specs.Option.{IsSomeAnd};
ghost use Rattle.filter_terms.specs.Allowed.{IsAllowed};
ghost use Rattle.filter_terms.specs.StoredStrategies.{AlwaysAllowed, KeepsLimits, KeepsLimits-prop};

use crate::advice::{Advice, Limits};
use crate::stored_strategy::{AdviceFn, StoredStrategy};
use feed_types::Notice;

/// Limits, and what gives advice within them: the caller's closure, or nothing, and then the advice
/// is to hold.
#[derive(Drop)]
pub struct Strategy {
    pub limits: Limits,
    pub stored: Option<StoredStrategy>,
    ghost right: { KeepsLimits limits stored } by { KeepsLimits-prop limits stored },
}

impl Strategy {
    ghost use Rattle.filter_terms.specs.Strategies.{closure_of, Advises};

    /// A strategy that asks the closure. The closure may be called on every notice, again after
    /// each call, and each advice that it gives is allowed by the limits.
    pub fn new(limits: Limits, advise: AdviceFn) -> Strategy
        requires callable { AdviceFn.IsAlwaysCallable advise }
        requires right { AlwaysAllowed AdviceFn.FnMut limits advise }
        ensures limits { result.limits ≡ limits }
        ensures closure { IsSomeAnd (closure_of result) (λ stored. stored.advise ≡ advise) }
    {
        let stored = Some(StoredStrategy::new(advise));
        Strategy { limits, stored }
    }

    /// A strategy that always holds, with a limit of 0 shares.
    pub fn holding() -> Strategy
        ensures limits { result.limits ≡ record { max_size = 0 } }
        ensures closure { closure_of result ≡ None }
    {
        let limits = Limits { max_size: 0 };
        let stored = None;
        Strategy { limits, stored }
    }

    /// Returns what the strategy advises on the notice: its closure's advice, which is allowed.
    pub fn advise(&mut self, notice: &Notice) -> Advice
        ensures allowed { IsAllowed self.old.limits notice.now result }
        ensures asked { Advises self.old notice.entry result self.new }
    {
        match &mut self.stored {
            Some(stored) => stored.ask(notice),
            None => Advice::Hold,
        }
    }

    /// The limits that the strategy was made with.
    pub fn limits(&self) -> Limits
        ensures { result ≡ self.now.limits }
    {
        self.limits
    }
}
