//! What the venues of a run in ITCH have come to.
ghost use Rattle.text_out.specs.Members.{writing_of};
ghost use Rattle.std.specs.Prelude.{◌≡◌, ◌++◌, ◌∷◌, ℕ, List, [], IfOk, OnOk, flat_map, map};
ghost use Rattle.event_sinks.specs.VenueGaps.{venue_gap};
ghost use Rattle.text_out.specs.StandardError.{SaysEach};
ghost use Rattle.udp_listening.specs.ItchEnds.{AreItchEnds, book_fault_texts_if, unquoted_texts_if, itch_lacks, itch_texts};

use crate::listening::ListenFault;
use event_sinks::VenueGap;
use feed_types::{MissingRange, VenueId};
use itch_book::BookFault;
use itch_lines::{ItchVenueEnd, VenueShare};
use run_notes::{write_book_fault, write_unquoted};
use run_settings::VenueNames;
use std::alloc::{AllocError, Global};
use text_out::TextOut;

/// Appends what the venue has come to whose lines share this. Unsettled where it can't say that,
/// which no run meets.
#[tactic(auto, using(crate::proofs::Ended::one_more_end))]
fn append_end(ends: &mut Vec<ItchVenueEnd>, share: &VenueShare) -> Result<(), ListenFault>
    ensures { OnOk result ((venues : List ℕ) → AreItchEnds venues ends.old.items
        → AreItchEnds (venues ++ share.now.venue ∷ []) ends.new.items) }
{
    let Some(end) = share.end() else {
        return Err(ListenFault::Unsettled);
    };
    match ends.push(end) {
        Ok(()) => Ok(()),
        Err(_) => Err(ListenFault::NoMemory),
    }
}

/// Returns what the venues in ITCH have come to, by what their lines share, in order. Faults are
/// those of `report_of`.
pub(crate) fn itch_ends(
    alloc: Global,
    shares: &[VenueShare],
) -> Result<Vec<ItchVenueEnd>, ListenFault>
    ensures { IfOk result (λ ends.
        AreItchEnds (map (λ share. share.venue) shares.now) ends.items) }
{
    let mut ends = Vec::new(alloc);
    for share in shares {
        append_end(&mut ends, share)?;
    }
    Ok(ends)
}

/// Appends what a venue lacks, if it lacks anything.
fn append_lack(lacking: &mut Vec<VenueGap>, end: &ItchVenueEnd) -> Result<(), AllocError>
    ensures { OnOk result (lacking.new.items
        ≡ lacking.old.items ++ venue_gap end.now.venue end.now.missing) }
{
    if let Some(gap) = &end.missing {
        lacking.push(VenueGap::of(end.venue, gap))?;
    }
    Ok(())
}

/// Appends what the venues lack, in order, of each that lacks anything.
pub(crate) fn append_itch_lacks(
    lacking: &mut Vec<VenueGap>,
    ends: &[ItchVenueEnd],
) -> Result<(), AllocError>
    ensures { OnOk result (lacking.new.items ≡ lacking.old.items ++ itch_lacks ends.now) }
{
    for end in ends {
        append_lack(lacking, end)?;
    }
    Ok(())
}

/// Writes which messages were given up, if some were.
fn write_given_up<E: TextOut>(
    names: &VenueNames,
    venue: VenueId,
    given_up: Option<MissingRange>,
    errors: &mut E,
)
    ensures { SaysEach (writing_of E.TextOut)
        (unquoted_texts_if names.now venue given_up) errors.old errors.new }
{
    if let Some(messages) = given_up {
        write_unquoted(names, &VenueGap { venue, messages }, errors);
    }
}

/// Writes why a venue's normaliser has failed, if it has.
fn write_failed_book<E: TextOut>(
    names: &VenueNames,
    venue: VenueId,
    fault: Option<BookFault>,
    errors: &mut E,
)
    ensures { SaysEach (writing_of E.TextOut)
        (book_fault_texts_if names.now venue fault) errors.old errors.new }
{
    if let Some(fault) = fault {
        write_book_fault(names, venue, fault, errors);
    }
}

/// Writes what is said of a venue.
fn write_end<E: TextOut>(names: &VenueNames, end: &ItchVenueEnd, errors: &mut E)
    ensures { SaysEach (writing_of E.TextOut)
        (itch_texts names.now end.now) errors.old errors.new }
{
    write_given_up(names, end.venue, end.given_up, errors);
    write_failed_book(names, end.venue, end.fault, errors);
}

/// Writes what was given up of each venue, and why its normaliser has failed, if it has.
pub(crate) fn write_itch_ends<E: TextOut>(names: &VenueNames, ends: &[ItchVenueEnd], errors: &mut E)
    ensures { SaysEach (writing_of E.TextOut)
        (flat_map (itch_texts names.now) ends.now) errors.old errors.new }
{
    for end in ends {
        write_end(names, end, errors);
    }
}
