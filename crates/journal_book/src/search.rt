//! The search for the next notice that a subscriber wants.

ghost use Rattle.std.specs.Prelude.{◌≡◌, ◌≤◌, length, slice_get};
ghost use Rattle.filter_terms.specs.Terms.{meets};
ghost use Rattle.journal_book.specs.Places.{IsNextPlace};

use feed_types::Notice;
use filter_terms::{Filter, Terms};

/// Whether the notice is wanted: the filter is asked, where there is one.
fn is_wanted(filter: Option<&Filter>, terms: &Terms, notice: &Notice) -> bool
    ensures { result ≡ meets terms.now notice.now }
{
    match filter {
        Some(filter) => filter.answer_for(terms, notice),
        None => terms.meets(notice),
    }
}

/// Returns the place of the first of `notices` from `from` on that meets `terms`, or the end. The
/// filter is asked about each notice on the way; its terms are these, or a copy of them.
#[inline(never)]
fn search_from(filter: Option<&Filter>, terms: &Terms, notices: &[Notice], from: usize) -> usize
    requires { from ≤ length notices.now }
    ensures next { IsNextPlace (meets terms.now) notices.now from result }
    ensures forth { from ≤ result }
{
    for place in from..notices.len() {
        if is_wanted(filter, terms, &notices[place]) {
            return place;
        }
    }
    notices.len()
}

/// Does the same, and searches only past a first one that isn't wanted.
#[inline(always)]
pub(crate) fn next_wanted(
    filter: Option<&Filter>,
    terms: &Terms,
    notices: &[Notice],
    from: usize,
) -> usize
    requires { from ≤ length notices.now }
    ensures next { IsNextPlace (meets terms.now) notices.now from result }
    ensures forth { from ≤ result }
{
    if from == notices.len() || is_wanted(filter, terms, &notices[from]) {
        return from;
    }
    search_from(filter, terms, notices, from + 1)
}

/// Returns the notice at `place`, `None` where that is the end.
pub(crate) fn notice_at(notices: &[Notice], place: usize) -> Option<Notice>
    ensures { result ≡ slice_get notices.now place }
{
    notices.get(place).copied()
}
