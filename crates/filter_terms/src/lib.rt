//! The notices that a subscriber asks for, and the answers of its strategy.
//!
//! [`Terms`] say which notices are wanted. A [`Filter`] is terms with a closure that answers them,
//! a [`Strategy`] is limits with a closure that gives advice within them: callers box the
//! closures, and prove once, where they hand one over, that it keeps its word. Nothing here takes
//! memory but a copy of terms.
//!
//! Contract: an answer of a filter is what its terms say, for every notice; an advice is what the
//! strategy's closure gave, and is allowed by its limits, after any number of calls. Begin at
//! `terms.rt` with `specs/Terms.antt`, then `advice.rt` with `specs/Allowed.antt`.
#![tactic(auto)]

mod advice;
mod filter;
mod stored_filter;
mod stored_strategy;
mod strategy;
mod terms;
mod text;

pub use advice::{Advice, Limits};
pub use filter::Filter;
pub use stored_filter::FilterFn;
pub use stored_strategy::{AdviceFn, StoredStrategy};
pub use strategy::Strategy;
pub use terms::Terms;
