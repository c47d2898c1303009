//! That other threads may have an open feed by reference.
//!
//! The prover finds it of the feed's parts one after the other, and not of the whole at once.

ghost use Rattle.std.specs.Thread.{IsSend, IsSync};

use crate::feed::log_size::LogSize;
use crate::feed::open_feed::OpenFeed;
use crate::hub_cell::HubCell;
use crate::hub_lock::HubLock;
use crossbeam_utils::CachePadded;
use feed_steps::FeedName;
use feed_types::Genuine;
use filter_terms::Filter;
use hub_lanes::ConsolidatorState;
use std::sync::Mutex;
use venue_lines::VenueLocks;

/// A value to which each thread may have a reference.
pub trait Shareable {
    /// Does nothing: it says that a reference to the value may go to another thread. The prover
    /// doesn't find that by itself where the thread is started, so a call of this stands before.
    fn show_shareable(&self)
        ensures { IsSync Self.row };
}

impl<G: Genuine + Send + Sync, N: FeedName + Send + Sync> Shareable for OpenFeed<G, N> {
    fn show_shareable(&self) {
        ConsolidatorState::<G, N>::show_sendable();
        show_sent::<Vec<Filter>>();
        show_sent::<HubCell<G, N>>();
        show_shared::<Mutex<HubCell<G, N>>>();
        show_shared::<HubLock<G, N>>();
        show_shared::<CachePadded<HubLock<G, N>>>();
        show_shared::<VenueLocks<G, N>>();
        show_shared::<LogSize<N>>();
        show_shared_value(self);
    }
}

/// A type whose values may go to another thread.
trait Sendable {
    /// Does nothing: it says so.
    fn show_sendable()
        ensures { IsSend Self.row };
}

impl<G: Genuine + Send + Sync, N: FeedName + Send + Sync> Sendable for ConsolidatorState<G, N> {
    fn show_sendable() {
        show_sent::<ConsolidatorState<G, N>>();
    }
}

/// Does nothing: it says that values of the type may go to another thread.
fn show_sent<T: Send>()
    ensures { IsSend T.row }
{}

/// Does nothing: it says that references to values of the type may go to another thread.
fn show_shared<T: Sync>()
    ensures { IsSync T.row }
{}

/// Does nothing: it says the same of the value's type.
fn show_shared_value<T: Sync>(_value: &T)
    ensures { IsSync T.row }
{}
