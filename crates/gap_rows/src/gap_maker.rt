//! What makes the rows of gaps.
ghost use Rattle.std.specs.Prelude.{◌≡◌, ℕ, [], length, Some};
ghost use Rattle.event_sinks.specs.SinkEvents.{TimedEvent, timed_event, told_before, told_by};
ghost use Rattle.report_rows.specs.RowSinks.{IsNewRowSink};
ghost use Rattle.report_rows.specs.RowTexts.{header_text};
ghost use Rattle.gap_rows.specs.GapCells.{gap_names};
ghost use Rattle.gap_rows.specs.GapMakers.{EndsIn, one_of, said_at, said_by, shown_in, venue_in};

use crate::gap_row::{gap_names, write_gaps};
use event_sinks::{ReplayedEvent, SinkStop, TextPage};
use feed_types::VenueId;
use line_gaps::{EndedGaps, VenueGaps};
use report_rows::{RowMaker, RowSink};
use run_settings::RowFormat;
use text_out::TextOut;

/// What makes the rows of the gaps of venues, as they end, and at the end of the capture those of
/// the gaps that are open.
#[derive(Drop)]
pub struct GapMaker {
    pub format: RowFormat,
    pub venues: Vec<VenueGaps>,
    /// The gaps that the latest event ended.
    pub ended: EndedGaps,
}

/// Returns the venue that an event is of, if gaps have a part in it.
#[inline(always)]
fn venue_of(event: &ReplayedEvent<'_>) -> Option<VenueId>
    ensures venue { venue_in (told_by event.now) ≡ result }
    ensures shown { shown_in (told_by event.now) ≡ result }
    ensures before { venue_in (told_before (told_by event.now)) ≡ result }
    ensures said { said_by (told_by event.now) ≡ told_by event.now }
{
    match event {
        ReplayedEvent::Packet { venue, .. } => Some(*venue),
        ReplayedEvent::Renewal { venue, .. } => Some(*venue),
        ReplayedEvent::Skip { venue, .. } => Some(*venue),
        ReplayedEvent::Last { venue, .. } => Some(*venue),
        ReplayedEvent::Item { .. } => None,
        ReplayedEvent::Refusal { .. } => None,
        ReplayedEvent::Best { .. } => None,
        ReplayedEvent::Gap { .. } => None,
        ReplayedEvent::Declaration { .. } => None,
    }
}

/// Has a venue take an event of it, and appends the gaps that it ends.
#[inline(always)]
fn take_at(
    venues: &mut Vec<VenueGaps>,
    venue: VenueId,
    time: Option<u64>,
    event: &ReplayedEvent<'_>,
    ended: &mut EndedGaps,
)
    requires { ended.old.gaps.items ≡ [] }
    ensures { (e : TimedEvent) → said_at e ≡ timed_event time (told_by event.now)
        → EndsIn e (one_of (length venues.old.items) (Some venue)) venues.old.items
        venues.new.items ended.new.gaps.items }
{
    let place = venue.index();
    if place < venues.len() {
        venues[place].take(time, event, ended);
    }
}

impl GapMaker {
    /// Of these venues.
    pub fn new(format: RowFormat, venues: Vec<VenueGaps>) -> GapMaker
        ensures format { result.format ≡ format }
        ensures venues { result.venues ≡ venues }
    {
        GapMaker {
            format,
            venues,
            ended: EndedGaps::new(),
        }
    }

    /// Takes an event, and returns its venue, if it has one. What it ends are the gaps that ended.
    #[inline(always)]
    fn take_event(&mut self, time: Option<u64>, event: &ReplayedEvent<'_>) -> VenueId
        ensures format { self.new.format ≡ self.old.format }
        ensures ends { (e : TimedEvent) → said_at e ≡ timed_event time (told_by event.now)
            → EndsIn e (one_of (length self.old.venues.items) (venue_in (told_by event.now)))
            self.old.venues.items self.new.venues.items self.new.ended.gaps.items }
        ensures said { said_by (told_by event.now) ≡ told_by event.now }
        ensures venue { (n : ℕ) → venue_in (told_by event.now) ≡ Some n → result ≡ n }
        ensures shown { shown_in (told_by event.now) ≡ venue_in (told_by event.now) }
    {
        self.ended.clear();
        match venue_of(event) {
            None => VenueId::at(0),
            Some(venue) => {
                take_at(&mut self.venues, venue, time, event, &mut self.ended);
                venue
            }
        }
    }
}

/// Makes the sink of the rows of gaps of these venues.
pub fn new_gap_rows<W>(
    page: TextPage<W>,
    format: RowFormat,
    venues: Vec<VenueGaps>,
) -> RowSink<W, GapMaker>
    requires { page.text.items ≡ [] }
    ensures sink { IsNewRowSink page.writer result.maker (header_text format gap_names) result }
    ensures format { result.maker.format ≡ format }
    ensures venues { result.maker.venues ≡ venues }
{
    RowSink::new(page, GapMaker::new(format, venues), format, &gap_names())
}

impl RowMaker for GapMaker {
    ghost use Rattle.gap_rows.specs.GapMakers.{MakesGaps, TellsGaps};
    ghost use Rattle.gap_rows.specs.GapMakerLaws.{makes_more_gaps, makes_no_gaps, tells_after_gaps, tells_no_gaps};

    ghost tells = { TellsGaps };

    ghost makes = { MakesGaps };

    #[inline(always)]
    fn make<W: TextOut>(
        &mut self,
        page: &mut TextPage<W>,
        time: Option<u64>,
        event: &ReplayedEvent<'_>,
    ) -> Result<(), SinkStop> {
        let venue = self.take_event(time, event);
        write_gaps(page, &self.format, venue, self.ended.as_slice())
    }

    fn pass(&mut self, time: Option<u64>, event: &ReplayedEvent<'_>) {
        let _venue = self.take_event(time, event);
    }

    ghost makes_none = { makes_no_gaps };

    ghost makes_more = { makes_more_gaps };

    ghost tells_none = { tells_no_gaps };

    ghost tells_after = { tells_after_gaps };
}
