//! A feed that isn't open yet.

ghost use Rattle.std.specs.Prelude.{◌≡◌, ◌≤◌, [], length, IfOk, IfErr, None, OnOk, Some, slice_set};
ghost use Rattle.journal_book.specs.Configs.{IsGood, Explains};
ghost use Rattle.venue_lines.specs.NextSessions.{AreNextNames};
ghost use Rattle.venue_lines.specs.Starts.{AreNamed, followed_at, none_next};
ghost use Rattle.live_feed.specs.feed.Feeds.{configured_setting, feed_setting_of};

pub(crate) mod log_size;
pub(crate) mod open_feed;
mod reading;
pub(crate) mod sharing;

use crate::feed::log_size::LogSize;
use crate::feed::open_feed::OpenFeed;
use crate::hub_cell::HubCell;
use crate::hub_lock::HubLock;
use crossbeam_utils::CachePadded;
use feed_steps::FeedName;
use feed_types::{FeedConfig, Genuine, MAX_SUBSCRIBERS, Numbered, SessionName, VenueId};
use fifo_lane::{Receiver, VenueItems};
use hub_lanes::{ConsolidatorState, SpareLane, new_spares};
use journal_book::{CoreFault, Journal, new_journal, new_keeping_journal};
use live_wakeups::{FeedTimes, Wakeups};
use std::alloc::{AllocError, Global};
use std::collections::VecDeque;
use std::marker::Model;
use std::sync::Arc;
use venue_lines::{VenueLocks, VenueStart, new_starts};

/// How many items of a venue are neither held nor in its lane, and not journaled: End or what is
/// said of skipped messages, the one that was taken out of the lane last, and the next one.
const FURTHER_ITEMS: usize = 3;

/// A feed that isn't open yet, to which nothing came. Contracts see it as its lanes, its setting
/// and the names of the sessions that follow its venues' first ones.
#[derive(Drop)]
pub struct LiveFeed<G: Genuine> {
    starts: Vec<VenueStart<G>>,
    from_venues: Vec<Receiver<Numbered, VenueItems<G>>>,
    kept: Journal,
    spare_lanes: VecDeque<SpareLane>,
    window: u32,
    lane: u32,
    log_lines: u32,
    wakeups: Arc<Wakeups, Global>,
}

impl<G: Genuine> Model for LiveFeed<G> {
    ghost use Rattle.feed_steps.specs.Lanes.{FeedLanes};
    ghost use Rattle.live_feed.specs.feed.Feeds.{IsClosed, lanes_of, feed_setting_of, feed_lanes_code};

    ghost Value = { FeedLanes };

    ghost coded = { feed_lanes_code };

    ghost view = { λ f. lanes_of f.from_venues.items f.spare_lanes.items
        (feed_setting_of f.kept f.window f.lane f.log_lines) f.starts.items };

    ghost invariant = { λ f. IsClosed (feed_setting_of f.kept f.window f.lane f.log_lines)
        f.starts.items f.from_venues.items f.kept f.spare_lanes.items };
}

/// Names the sessions that follow the first one of the venue at its place, if there is one.
fn follow_at<G: Genuine>(starts: &mut [VenueStart<G>], venue: VenueId, names: Vec<SessionName>)
    requires { AreNextNames G.sessions venue names.items }
    ensures { starts.new ≡ followed_at starts.old venue names.items }
{
    let place = venue.index();
    if place < starts.len() {
        starts[place].follow_by(venue, names);
    }
}

impl<G: Genuine> LiveFeed<G> {
    /// A feed of this configuration, with the lanes of its venues and of 32 subscribers. The lines
    /// may use its names for the venues' first sessions. All entries and changes are kept.
    ///
    /// BadConfig carries the first fault that fits, in the order of [`journal_book::ConfigFault`];
    /// NoMemory comes where memory was refused.
    pub fn new(alloc: Global, config: &FeedConfig<'_>) -> Result<LiveFeed<G>, CoreFault>
        requires { AreNamed G.sessions config.now.sessions.now }
        ensures venues { IfOk result (λ feed. length feed.venues
            ≡ length config.now.sessions.now) }
        ensures subscribers { IfOk result (λ feed. length feed.subscribers ≡ 32) }
        ensures setting { IfOk result
            (λ feed. feed.setting ≡ configured_setting config.now None) }
        ensures next { IfOk result
            (λ feed. feed.next ≡ none_next (length config.now.sessions.now)) }
        ensures good { OnOk result (IsGood config.now) }
        ensures fault { IfErr result (Explains config.now) }
    {
        let journal = new_journal(alloc, config)?;
        match LiveFeed::with_journal(alloc, config, journal) {
            Ok(feed) => Ok(feed),
            Err(_) => Err(CoreFault::NoMemory),
        }
    }

    /// The same, but no entry is kept, and of the changes only those that some subscriber still
    /// wants. A subscriber may be behind by `kept` changes: nothing more is journaled then until it
    /// goes on. No subscriber is taken after the first change. The memory for entries and changes
    /// is all asked for here, so that it doesn't grow with their number.
    pub fn keeping(
        alloc: Global,
        config: &FeedConfig<'_>,
        kept: u32,
    ) -> Result<LiveFeed<G>, CoreFault>
        requires { AreNamed G.sessions config.now.sessions.now }
        ensures venues { IfOk result (λ feed. length feed.venues
            ≡ length config.now.sessions.now) }
        ensures subscribers { IfOk result (λ feed. length feed.subscribers ≡ 32) }
        ensures setting { IfOk result
            (λ feed. feed.setting ≡ configured_setting config.now (Some kept)) }
        ensures next { IfOk result
            (λ feed. feed.next ≡ none_next (length config.now.sessions.now)) }
        ensures good { OnOk result (IsGood config.now) }
        ensures fault { IfErr result (Explains config.now) }
    {
        let journal = new_keeping_journal(alloc, config, kept)?;
        match LiveFeed::with_journal(alloc, config, journal) {
            Ok(feed) => Ok(feed),
            Err(_) => Err(CoreFault::NoMemory),
        }
    }

    /// Makes the feed of this configuration that has this journal, in which there is nothing yet.
    fn with_journal(
        alloc: Global,
        config: &FeedConfig<'_>,
        journal: Journal,
    ) -> Result<LiveFeed<G>, AllocError>
        requires few { length config.now.sessions.now ≤ 16 }
        requires named { AreNamed G.sessions config.now.sessions.now }
        requires empty { (journal.entries ≡ []) × (journal.cursors ≡ []) }
        requires journal_venues { journal.venues ≡ length config.now.sessions.now }
        ensures venues { IfOk result (λ feed. length feed.venues
            ≡ length config.now.sessions.now) }
        ensures subscribers { IfOk result (λ feed. length feed.subscribers ≡ 32) }
        ensures setting { IfOk result (λ feed. feed.setting
            ≡ feed_setting_of journal config.now.window config.now.lane config.now.log) }
        ensures next { IfOk result
            (λ feed. feed.next ≡ none_next (length config.now.sessions.now)) }
    {
        let (starts, from_venues) = new_starts(alloc, config)?;
        let spare_lanes = new_spares(alloc, config.lane)?;
        let wakeups = Arc::new(alloc, Wakeups::new(FeedTimes::none(alloc)))?;
        Ok(LiveFeed {
            starts,
            from_venues,
            kept: journal,
            spare_lanes,
            window: config.window,
            lane: config.lane,
            log_lines: config.log,
            wakeups,
        })
    }

    /// Has the feed keep times: of each of the latest `changes` changes that of the datagram which
    /// brought the item that caused it, with the time that [`Datagram::received_at`] gave it
    /// ([`SubscriberLog::time_of`](crate::SubscriberLog::time_of)). Where memory for them is
    /// refused, it keeps those that it kept before: none, unless this was called before.
    ///
    /// [`Datagram::received_at`]: crate::Datagram::received_at
    pub fn keep_times(&mut self, alloc: Global, changes: usize) -> Result<(), AllocError>
        ensures { self.new ≡ self.old }
    {
        let items = self.window as usize + self.lane as usize + FURTHER_ITEMS;
        let times = FeedTimes::new(alloc, self.starts.len(), items, changes)?;
        self.wakeups = Arc::new(alloc, Wakeups::new(times))?;
        Ok(())
    }

    /// Names the sessions that follow the venue's first one, in order, in place of those that were
    /// named before. Each begins at the first packet that comes of it once the one before is over
    /// and all of it was sent. Where the feed has no such venue nothing is named.
    pub fn name_next(&mut self, venue: VenueId, names: Vec<SessionName>)
        requires { AreNextNames G.sessions venue names.items }
        ensures { self.new ≡ record self.old {
          next = slice_set self.old.next venue names.items;
        } }
    {
        follow_at(self.starts.as_mut_slice(), venue, names);
    }

    /// Puts the venues and the journal under their locks. N names this feed's lanes. Where memory
    /// was refused, the feed comes back as it was.
    pub fn open<N: FeedName>(self, alloc: Global) -> Result<OpenFeed<G, N>, LiveFeed<G>>
        requires { self ≡ N.lanes }
        ensures { IfErr result (λ feed. feed ≡ self) }
    {
        let (Ok(venues), Ok(senders), Ok(filters)) = (
            Vec::with_capacity(alloc, self.starts.len()),
            Vec::with_capacity(alloc, MAX_SUBSCRIBERS),
            Vec::with_capacity(alloc, MAX_SUBSCRIBERS),
        ) else {
            return Err(self);
        };
        let LiveFeed {
            starts,
            from_venues,
            kept,
            spare_lanes,
            window: _,
            lane: _,
            log_lines,
            wakeups,
        } = self;
        let core = ConsolidatorState::new(kept, from_venues, senders, spare_lanes);
        let hub = CachePadded::new(HubLock::new(HubCell {
            core,
            filters,
            next: 0,
        }));
        let venues = VenueLocks::open(starts, venues, wakeups);
        let log_size = LogSize::new(log_lines);
        Ok(OpenFeed {
            venues,
            hub,
            log_size,
        })
    }
}
