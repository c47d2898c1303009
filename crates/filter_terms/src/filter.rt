//! Terms with a closure that answers them.

ghost use Rattle.std.specs.Prelude.{◌≡◌, Bool, Some, None};
ghost use Rattle.std.specs.Option.{ForSome};
ghost use Rattle.std.specs.Borrow.{Bor};
ghost use Rattle.feed_types.specs.declared.journal.Notice.{Notice};
ghost use Rattle.filter_terms.specs.Terms.{meets};
ghost use Rattle.filter_terms.specs.StoredFilters.{AnswersFor};

use crate::stored_filter::{FilterFn, StoredFilter};
use crate::terms::Terms;
use feed_types::Notice;

/// Terms, and what answers them: the caller's closure, or the terms themselves.
#[derive(Drop)]
pub struct Filter {
    terms: Terms,
    stored: Option<StoredFilter>,
    ghost right: { ForSome stored (AnswersFor terms) },
}

impl Filter {
    ghost use Rattle.filter_terms.specs.Filters.{terms_of};

    /// A filter that asks the closure. The closure may be called on every notice, and answers
    /// whether the notice meets the terms.
    pub fn new(terms: Terms, answers: FilterFn) -> Filter
        requires callable { FilterFn.IsAlwaysCallable answers }
        requires right { (notice : Bor Notice) (answer : Bool) → FilterFn.post answers notice answer
            → answer ≡ meets terms notice.now }
        ensures { terms_of result ≡ terms }
    {
        let stored = Some(StoredFilter { answers });
        Filter { terms, stored }
    }

    /// A filter that answers by the terms themselves, without a closure.
    pub fn of(terms: Terms) -> Filter
        ensures { terms_of result ≡ terms }
    {
        let stored = None;
        Filter { terms, stored }
    }

    /// Whether the notice meets the filter's terms, as its closure says.
    pub fn answer(&self, notice: &Notice) -> bool
        ensures { result ≡ meets (terms_of self.now) notice.now }
    {
        match &self.stored {
            Some(stored) => stored.ask(notice),
            None => self.terms.meets(notice),
        }
    }

    /// Whether the notice meets these terms, of which the filter's own are a copy. Its closure is
    /// asked, where there is one; another answer than theirs, which no run meets, doesn't count.
    pub fn answer_for(&self, terms: &Terms, notice: &Notice) -> bool
        ensures { result ≡ meets terms.now notice.now }
    {
        let meets = terms.meets(notice);
        match &self.stored {
            Some(stored) => {
                let answer = stored.ask(notice);
                if answer == meets { answer } else { meets }
            }
            None => meets,
        }
    }

    /// The terms that the filter was made with.
    pub fn terms(&self) -> &Terms
        ensures { result.now ≡ terms_of self.now }
    {
        &self.terms
    }
}
