//! What the venues of a run in ITCH show, for the thread beside it.
ghost use Rattle.std.specs.Prelude.{◌≡◌, ◌<◌, IfOk, IfSome, is_some, map};
ghost use Rattle.udp_listening.specs.ItchReports.{IsReportedOf, reported_at};
ghost use Rattle.udp_listening.specs.ItchShown.{AreSeen, HasSeenNothing, at_venue, noted_then, shown_beside};

use feed_types::{MAX_VENUES, MissingRange, VenueId};
use itch_lines::{GivenUp, ItchStatus, StatusSource, VenueShare, given_up_messages};
use std::alloc::{AllocError, Global};
use venue_lines::VenueStatus;

/// What venues in ITCH have shown, of no venue.
const NONE_SEEN: [Option<ItchStatus>; MAX_VENUES] = [None; MAX_VENUES];

/// What the venues of a run in ITCH have shown at the last look, and what was reported of them.
#[derive(Drop)]
pub struct ItchStatuses<S> {
    /// What shows each of the venues.
    sources: Vec<S>,
    /// Of each venue what it has shown; None where it isn't in ITCH, or its normaliser has failed.
    seen: [Option<ItchStatus>; MAX_VENUES],
    /// Of each venue the gap that was reported to be given up last.
    reported: [Option<GivenUp>; MAX_VENUES],
}

/// Returns what is shown of a venue: what the feed shows, and where the venue is in ITCH the
/// session, the cursors and the gap of the exchange's own packets.
fn shown_beside(itch: Option<ItchStatus>, feed: Option<VenueStatus>) -> Option<VenueStatus>
    ensures { result ≡ shown_beside itch feed }
{
    match (itch, feed) {
        (Some(itch), Some(feed)) => Some(itch.over(&feed)),
        (_, feed) => feed,
    }
}

/// Notes what was shown, at its venue's place.
fn note(seen: &mut [Option<ItchStatus>; MAX_VENUES], shown: Option<ItchStatus>)
    ensures noted { seen.new ≡ noted_then shown seen.old }
    ensures in_range { IfSome shown (λ status. status.venue < 16) }
{
    if let Some(status) = shown {
        let place = status.venue.index();
        seen[place] = Some(status);
    }
}

/// Returns what each of the venues shows that these are the sources of.
fn seen_by<S: StatusSource>(sources: &[S]) -> [Option<ItchStatus>; MAX_VENUES]
    ensures { AreSeen S.shows sources.now result }
{
    let mut seen = NONE_SEEN;
    for source in sources {
        note(&mut seen, source.status());
    }
    seen
}

/// Returns the same shares, for another thread.
fn shared(alloc: Global, shares: &[VenueShare]) -> Result<Vec<VenueShare>, AllocError>
    ensures { IfOk result (λ own.
        map (λ share. share.venue) own.items ≡ map (λ share. share.venue) shares.now) }
{
    let mut own = Vec::new(alloc);
    for share in shares {
        own.push(share.share()?)?;
    }
    Ok(own)
}

impl ItchStatuses<VenueShare> {
    /// Returns those of the venues whose lines share these, at which nobody has looked.
    pub fn of(alloc: Global, shares: &[VenueShare]) -> Result<ItchStatuses<VenueShare>, AllocError>
        ensures venues { IfOk result (λ statuses. map (λ share. share.venue) statuses.sources.items
            ≡ map (λ share. share.venue) shares.now) }
        ensures none { IfOk result HasSeenNothing }
    {
        Ok(ItchStatuses {
            sources: shared(alloc, shares)?,
            seen: NONE_SEEN,
            reported: [None; MAX_VENUES],
        })
    }
}

impl<S: StatusSource> ItchStatuses<S> {
    /// Looks at what each of the venues shows.
    pub fn look(&mut self)
        ensures seen { AreSeen S.shows self.old.sources.items self.new.seen }
        ensures kept { self.new ≡ record self.old { seen = self.new.seen } }
    {
        self.seen = seen_by(self.sources.as_slice());
    }
}

impl<S> ItchStatuses<S> {
    /// Whether the venue is in ITCH, and has shown something at the last look.
    pub fn has(&self, venue: VenueId) -> bool
        ensures { result ≡ is_some (at_venue self.now.seen venue) }
    {
        self.seen[venue.index()].is_some()
    }

    /// Returns what is shown of the venue, of which the feed shows this.
    pub fn over(&self, venue: VenueId, feed: Option<VenueStatus>) -> Option<VenueStatus>
        ensures { result ≡ shown_beside (at_venue self.now.seen venue) feed }
    {
        shown_beside(self.seen[venue.index()], feed)
    }

    /// Returns the messages of a gap that the venue had given up at the last look, unless that was
    /// returned before.
    pub fn take_given_up(&mut self, venue: VenueId) -> Option<MissingRange>
        ensures reports { IsReportedOf (at_venue self.old.seen venue)
            (at_venue self.old.reported venue) result }
        ensures noted { self.new ≡ record self.old {
          reported = reported_at venue self.old.seen self.old.reported;
        } }
    {
        let Some(status) = self.seen[venue.index()] else {
            return None;
        };
        let is_reported = status.given_up == self.reported[venue.index()];
        self.reported[venue.index()] = status.given_up;
        if is_reported {
            None
        } else {
            given_up_messages(status.given_up)
        }
    }
}
