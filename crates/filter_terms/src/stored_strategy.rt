//! A stored closure that gives advice.

use crate::advice::Advice;
use feed_types::Notice;

/// A closure that gives advice on a notice.
pub type AdviceFn = Box<dyn FnMut(&Notice) -> Advice + Send>;

/// A closure that may always be called, and again after each call.
#[derive(Drop)]
pub struct StoredStrategy {
    pub advise: AdviceFn,
    ghost callable: { AdviceFn.IsAlwaysCallable advise },
}

impl StoredStrategy {
    ghost use Rattle.std.specs.Prelude.{◌≡◌};
    ghost use Rattle.filter_terms.specs.StoredStrategies.{MayAdvise};

    pub(crate) fn new(advise: AdviceFn) -> StoredStrategy
        requires { AdviceFn.IsAlwaysCallable advise }
        ensures { result.advise ≡ advise }
    {
        StoredStrategy { advise }
    }

    pub(crate) fn ask(&mut self, notice: &Notice) -> Advice
        ensures { MayAdvise self.old notice.entry result self.new }
    {
        (self.advise)(notice)
    }
}
