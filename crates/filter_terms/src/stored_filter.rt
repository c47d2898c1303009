//! A stored closure that answers notices.

use feed_types::Notice;

/// A closure that answers whether a notice is wanted.
pub type FilterFn = Box<dyn Fn(&Notice) -> bool + Send>;

/// A closure that may always be called.
#[derive(Drop)]
pub(crate) struct StoredFilter {
    pub(crate) answers: FilterFn,
    ghost callable: { FilterFn.IsAlwaysCallable answers },
}

impl StoredFilter {
    ghost use Rattle.filter_terms.specs.StoredFilters.{MayAnswer};

    pub(crate) fn ask(&self, notice: &Notice) -> bool
        ensures { MayAnswer self.now notice.entry result }
    {
        (self.answers)(notice)
    }
}
