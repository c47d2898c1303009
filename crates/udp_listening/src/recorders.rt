//! What of a run is recorded.
ghost use Rattle.std.specs.Prelude.{◌≡◌, All, IfOk, OnOk, map};
ghost use Rattle.udp_listening.specs.Bound.{HasRecorder, bound_line};

use crate::listen_sockets::{BoundLine, ListenSockets};
use feed_types::VenueId;
use line_recordings::{SkipRecords, VenueRecords, recorder_pair};
use std::alloc::{AllocError, Global};
use std::mem;

/// How many datagrams of a line may wait to be written.
const LINE_ROOM: usize = 16_384;

/// How many skips of a venue may wait to be written.
const SKIP_ROOM: usize = 1_024;

/// What comes of the venues of a run, and where it hands over its skips.
#[derive(Drop)]
struct RunRecords {
    venues: Vec<VenueRecords>,
    skips: SkipRecords,
}

/// Returns what comes of each of `venues` venues, whose lines aren't heard yet.
fn records_of(alloc: Global, venues: usize) -> Result<RunRecords, AllocError> {
    let mut records = RunRecords {
        venues: Vec::new(alloc),
        skips: SkipRecords::none(alloc),
    };
    for place in 0..venues {
        if let Some(venue) = VenueId::from_index(place) {
            let (sender, of_skips) = recorder_pair(alloc, SKIP_ROOM)?;
            records.skips.push(sender)?;
            let of_venue = VenueRecords::new(alloc, venue, of_skips)?;
            records.venues.push(of_venue)?;
        }
    }
    Ok(records)
}

/// Has the line hand over what its venue took, to what comes of that.
fn record_line(
    alloc: Global,
    venues: &mut [VenueRecords],
    bound: BoundLine,
) -> Result<BoundLine, AllocError>
    ensures line { IfOk result (λ line. line ≡ record bound { records = line.records }) }
    ensures recorded { IfOk result HasRecorder }
{
    let (sender, source) = recorder_pair(alloc, LINE_ROOM)?;
    if let Some(of_venue) = venues.get_mut(bound.venue.index()) {
        of_venue.hear(bound.line, source);
    }
    Ok(BoundLine {
        records: Some(sender),
        ..bound
    })
}

/// Has each of these lines hand over what its venue took.
#[tactic(auto, using(crate::proofs::Recorded::line_more, crate::proofs::Recorded::recorded_more))]
fn lines_recorded(
    alloc: Global,
    venues: &mut [VenueRecords],
    lines: Vec<BoundLine>,
) -> Result<Vec<BoundLine>, AllocError>
    ensures lines { IfOk result (λ recorded. map bound_line recorded.items
        ≡ map bound_line lines.items) }
    ensures recorded { IfOk result (λ recorded. All HasRecorder recorded.items) }
{
    let mut recorded = Vec::new(alloc);
    for bound in lines {
        let line = record_line(alloc, venues, bound)?;
        recorded.push(line)?;
    }
    Ok(recorded)
}

/// Has the lines of these sockets hand over what their venues took, and the run its skips. Returns
/// where that comes out, of each of `venues` venues. Where memory was refused the sockets' lines
/// are gone.
pub fn record_lines(
    alloc: Global,
    venues: usize,
    sockets: &mut ListenSockets,
) -> Result<Vec<VenueRecords>, AllocError>
    ensures lines { OnOk result (map bound_line sockets.new.lines.items
        ≡ map bound_line sockets.old.lines.items) }
    ensures recorded { OnOk result (All HasRecorder sockets.new.lines.items) }
{
    let mut records = records_of(alloc, venues)?;
    let lines = mem::replace(&mut sockets.lines, Vec::new(alloc));
    sockets.lines = lines_recorded(alloc, records.venues.as_mut_slice(), lines)?;
    sockets.skips = records.skips;
    Ok(records.venues)
}
