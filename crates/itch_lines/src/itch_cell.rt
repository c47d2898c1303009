//! What the lock of a venue in ITCH guards.
ghost use Rattle.std.specs.Prelude.{◌≡◌, ℕ, ◌≤◌, true, false, List, [], ◌^◌, ◌-◌, IfOk, IfSome, None, Ok, OnErr, OnOk, is_some, not};
ghost use Rattle.feed_types.specs.declared.item.Numbered.{Numbered};
ghost use Rattle.line_arbiter.specs.Packets.{Input};
ghost use Rattle.line_arbiter.specs.Pacing.{IsPaced};
ghost use Rattle.line_arbiter.specs.States.{ordinal_of};
ghost use Rattle.line_arbiter.specs.Streams.{gap_of};
ghost use Rattle.venue_normaliser.specs.Outputs.{IsPutOut};
ghost use Rattle.venue_normaliser.specs.States.{FitsPackets};
ghost use Rattle.item_packets.specs.Packed.{bytes_of_each};
ghost use Rattle.itch_lines.specs.Cells.{HasBeenGiven, given_up_then};
ghost use Rattle.itch_lines.specs.Ends.{given_up_messages};
ghost use Rattle.itch_lines.specs.Sections.{BringsEnd, BringsSkip, MakesOfDatagram, gap_asked};
ghost use Rattle.itch_lines.specs.Shown.{AwaitsReply, ShowsNormaliser, gap_at_end};

use crate::itch_status::ItchStatus;
use crate::itch_venue::ItchVenue;
use crate::venue_end::{GivenUp, ItchVenueEnd, given_up_messages};
use feed_types::{LineId, MissingRange, SessionName, VenueId};
use itch_book::BookFault;
use line_arbiter::Pacer;
use mold_packet::Request;
use std::alloc::{AllocError, Global};
use std::collections::VecDeque;
use std::marker::Model;
use venue_lines::Looked;
use venue_normaliser::VenueNormaliser;

/// The time in milliseconds until the same gap is asked for again.
const REQUEST_INTERVAL_MS: u64 = 250;

/// A venue in ITCH: its normaliser and what it makes, and its gaps.
///
/// Whenever the lock is free there are packets and skips that the normaliser was given, unless it
/// has failed (`HasBeenGiven` in `specs/Cells.antt`).
#[derive(Drop)]
pub(crate) struct ItchCell {
    venue: ItchVenue,
    /// Lets requests out.
    asking: Pacer,
    /// Lets gaps go that have stood long enough.
    leaving: Pacer,
    /// Lets a gap go that has stood long enough since the session's end came.
    parting: Pacer,
    fault: Option<BookFault>,
    /// The first gap of a session that was given up last.
    given_up: Option<GivenUp>,
    /// How many datagrams were made.
    tickets: u64,
    /// How many datagrams were taken.
    places: u64,
}

impl Model for ItchCell {
    ghost use Rattle.std.specs.Prelude.{◌≡◌, false, is_some};
    ghost use Rattle.itch_lines.specs.Cells.{HasBeenGiven, ItchState};

    ghost Value = { ItchState };

    ghost view = { λ c. record {
      normaliser = c.venue.normaliser;
      names = c.venue.names.items;
      asked = c.asking;
      left = c.leaving;
      parted = c.parting;
      given_up = c.given_up;
      failed = is_some c.fault;
    } };

    ghost invariant = { λ c. is_some c.fault ≡ false → HasBeenGiven c.venue.normaliser };
}

/// What a section has come to.
#[derive(Clone, Copy, Debug)]
pub(crate) struct SectionDone {
    /// What the line sees of its venue then.
    pub(crate) looked: Looked,
    /// The place of the first datagram that it made among all that were made of the venue.
    pub(crate) ticket: u64,
}

/// What a section has come to in which the normaliser has failed, or before which it had.
#[derive(Clone, Copy, Debug)]
pub(crate) struct SectionFailed {
    /// What the line sees of its venue then.
    pub(crate) looked: Looked,
    /// The place of the first datagram that it made among all that were made of the venue.
    pub(crate) ticket: u64,
}

impl ItchCell {
    /// Makes the cell of a venue to which nothing came.
    pub(crate) fn new(
        alloc: Global,
        normaliser: VenueNormaliser,
        names: Vec<SessionName>,
    ) -> Result<ItchCell, AllocError>
        requires { FitsPackets normaliser [] }
        ensures { IfOk result (λ c. (c.normaliser ≡ normaliser) × (c.names ≡ names.items)
            × (c.failed ≡ false)) }
    {
        Ok(ItchCell {
            venue: ItchVenue::new(alloc, normaliser, names)?,
            asking: Pacer::new(REQUEST_INTERVAL_MS),
            leaving: Pacer::new(u64::MAX),
            parting: Pacer::new(0),
            fault: None,
            given_up: None,
            tickets: 0,
            places: 0,
        })
    }

    /// The venue whose cell it is.
    pub(crate) fn venue(&self) -> VenueId
        ensures { result ≡ self.now.normaliser.lines.venue }
    {
        self.venue.normaliser.venue()
    }

    /// Does nothing: it says what is so whenever the venue's lock is free.
    #[inline(always)]
    pub(crate) fn show_lock_invariant(&self)
        ensures { self.now.failed ≡ false → HasBeenGiven self.now.normaliser }
    {
        // for the prover: the invariant is known where a field is used
        let _ = &self.fault;
    }

    /// Returns what a line sees of the venue, and where what was made stands among all.
    fn done(&mut self, begun: Option<SessionName>, made: usize) -> SectionDone
        ensures { self.new ≡ self.old }
    {
        let ticket = self.tickets;
        self.tickets = ticket.saturating_add(made as u64);
        SectionDone {
            looked: Looked {
                gap: self.venue.normaliser.gap().is_some(),
                place: self.places,
                begun,
            },
            ticket,
        }
    }

    /// Ends what was put out of the venue, whose normaliser has failed.
    fn fail(&mut self, made: &mut VecDeque<Vec<u8>>) -> SectionFailed
        requires { self.old.failed ≡ true }
        ensures end { BringsEnd (bytes_of_each made.new.items) }
        ensures failed { self.new.failed ≡ true }
        ensures venue { self.new.normaliser ≡ self.old.normaliser }
    {
        self.venue.end_output(made);
        let done = self.done(None, made.len());
        SectionFailed {
            looked: done.looked,
            ticket: done.ticket,
        }
    }

    /// Takes a datagram that came on a line of the venue, before which the next session begins
    /// where it is due, and makes the datagrams that carry what is put out more. An `Err` where the
    /// normaliser fails, or has failed.
    pub(crate) fn take(
        &mut self,
        line: LineId,
        bytes: &[u8],
        made: &mut VecDeque<Vec<u8>>,
    ) -> Result<SectionDone, SectionFailed>
        requires none { made.old.items ≡ [] }
        ensures took { OnOk result ((packets : List Input) (put : List Numbered)
            → FitsPackets self.old.normaliser packets
            → IsPutOut self.old.normaliser.book.keys packets put
            → MakesOfDatagram self.old.names line bytes.now self.old.normaliser
            self.new.normaliser packets put (bytes_of_each made.new.items)) }
        ensures sound { OnOk result ((self.old.failed ≡ false) × (self.new.failed ≡ false)) }
        ensures venue { OnOk result
            (self.new.normaliser.lines.venue ≡ self.old.normaliser.lines.venue) }
        ensures names { OnOk result (self.new.names ≡ self.old.names) }
        ensures failed { OnErr result (self.new.failed ≡ true) }
        ensures end { OnErr result (BringsEnd (bytes_of_each made.new.items)) }
    {
        self.places = self.places.saturating_add(1);
        if self.fault.is_some() {
            return Err(SectionFailed {
                looked: Looked {
                    gap: false,
                    place: self.places,
                    begun: None,
                },
                ticket: self.tickets,
            });
        }
        match self.venue.take(line, bytes, made) {
            Ok(taken) => Ok(self.done(taken.begun, made.len())),
            Err(fault) => {
                self.fault = Some(fault);
                Err(self.fail(made))
            }
        }
    }

    /// Returns the run of messages that is asked for: the first one that is missing. None where a
    /// gap of the session was given up.
    fn gap_asked(&self) -> Option<Request>
        ensures { (packets : List Input) → FitsPackets self.now.normaliser packets
            → result ≡ gap_asked self.now.normaliser packets }
    {
        if self.venue.normaliser.has_given_up() {
            None
        } else {
            self.venue.normaliser.gap()
        }
    }

    /// Returns the request for what is missing that is to be sent now, if any, where a gap waits so
    /// many milliseconds; none where a gap of the session was given up.
    pub(crate) fn request_due(&mut self, now_ms: u64, wait_ms: u64) -> Option<Request>
        ensures paced { (packets : List Input) → FitsPackets self.old.normaliser packets
            → IsPaced self.old.asked (gap_asked self.old.normaliser packets) now_ms wait_ms result
            self.new.asked }
        ensures kept { self.new ≡ record self.old { asked = self.new.asked } }
    {
        let gap = self.gap_asked();
        self.asking.due_after(gap, now_ms, wait_ms)
    }

    /// Returns the run of messages that is asked for once the session's end is known, if any.
    fn gap_at_end(&self) -> Option<Request>
        ensures { (packets : List Input) → FitsPackets self.now.normaliser packets
            → result ≡ gap_at_end self.now.normaliser packets }
    {
        if self.venue.normaliser.status().end.is_some() {
            self.gap_asked()
        } else {
            None
        }
    }

    /// Returns whether the venue's lines read on after the session's end, since a reply may come:
    /// what is asked for has been missing for less than `wait_ms` milliseconds since the end came,
    /// or since something came of it.
    pub(crate) fn awaits_reply(&mut self, now_ms: u64, wait_ms: u64) -> bool
        ensures awaits { (packets : List Input) → FitsPackets self.old.normaliser packets
            → AwaitsReply self.old.parted (gap_at_end self.old.normaliser packets) now_ms wait_ms
            result self.new.parted }
        ensures kept { self.new ≡ record self.old { parted = self.new.parted } }
    {
        let gap = self.gap_at_end();
        let over = self.parting.due_after(gap, now_ms, wait_ms);
        gap.is_some() && !over.is_some()
    }

    /// Notes which gap of a session was given up first, where none was before.
    fn note_given_up(&mut self, ordinal: u64, gap: Option<Request>)
        ensures { self.new ≡ record self.old {
          given_up = given_up_then ordinal gap self.old.given_up;
        } }
    {
        if let Some(gap) = gap {
            let messages = MissingRange {
                first: gap.number,
                count: u64::from(gap.count),
            };
            self.given_up = Some(GivenUp { ordinal, messages });
        }
    }

    /// Gives up the gap, where one has stood for `after_ms` milliseconds at `now_ms`, and makes the
    /// datagram that carries the end of what is put out. Returns `None` where no gap has.
    pub(crate) fn give_up_due(
        &mut self,
        now_ms: u64,
        after_ms: u64,
        made: &mut VecDeque<Vec<u8>>,
    ) -> Result<Option<SectionDone>, SectionFailed>
        requires none { made.old.items ≡ [] }
        ensures gave { IfOk result (λ given. IfSome given (λ _. (number : ℕ)
            × ((packets : List Input) (put : List Numbered)
            → FitsPackets self.old.normaliser packets
            → IsPutOut self.old.normaliser.book.keys packets put
            → BringsSkip number self.old.normaliser self.new.normaliser packets put
            (bytes_of_each made.new.items)))) }
        ensures none { result ≡ Ok None → made.new.items ≡ [] }
        ensures sound { IfOk result (λ given. IfSome given (λ _.
            (self.old.failed ≡ false) × (self.new.failed ≡ false))) }
        ensures noted { IfOk result (λ given. IfSome given (λ _. (packets : List Input)
            → FitsPackets self.old.normaliser packets
            → self.new.given_up ≡ given_up_then (ordinal_of self.old.normaliser.lines)
            (gap_asked self.old.normaliser packets) self.old.given_up)) }
        ensures venue { OnOk result
            (self.new.normaliser.lines.venue ≡ self.old.normaliser.lines.venue) }
        ensures end { OnErr result (BringsEnd (bytes_of_each made.new.items)) }
    {
        if self.fault.is_some() {
            return Ok(None);
        }
        let gap = self.venue.normaliser.gap();
        let Some(left) = self.leaving.due_after(gap, now_ms, after_ms) else {
            return Ok(None);
        };
        let next = left.number.saturating_add(u64::from(left.count));
        let first = self.gap_asked();
        let ordinal = self.venue.normaliser.ordinal();
        match self.venue.skip_to(next, made) {
            Ok(Ok(())) => {
                self.note_given_up(ordinal, first);
                Ok(Some(self.done(None, made.len())))
            }
            Ok(Err(_)) => Ok(None),
            Err(fault) => {
                self.fault = Some(fault);
                Err(self.fail(made))
            }
        }
    }

    /// Returns what the venue shows; None where its normaliser has failed.
    pub(crate) fn status(&self) -> Option<ItchStatus>
        ensures shows { IfSome result (λ status. (packets : List Input)
            → FitsPackets self.now.normaliser packets
            → ShowsNormaliser self.now.normaliser packets status) }
        ensures given_up { IfSome result (λ status. status.given_up ≡ self.now.given_up) }
        ensures failed { is_some result ≡ not self.now.failed }
    {
        if self.fault.is_some() {
            return None;
        }
        Some(ItchStatus {
            venue: self.venue(),
            ordinal: self.venue.normaliser.ordinal(),
            session: self.venue.normaliser.session(),
            cursors: self.venue.normaliser.status(),
            gap: self.gap_asked(),
            given_up: self.given_up,
        })
    }

    /// Returns what the venue has come to.
    pub(crate) fn end(&self) -> ItchVenueEnd
        ensures venue { result.venue ≡ self.now.normaliser.lines.venue }
        ensures given_up { result.given_up ≡ given_up_messages self.now.given_up }
        ensures missing { (packets : List Input) → FitsPackets self.now.normaliser packets
            → result.missing ≡ gap_asked self.now.normaliser packets }
        ensures failed { is_some result.fault ≡ self.now.failed }
    {
        ItchVenueEnd {
            venue: self.venue(),
            given_up: given_up_messages(self.given_up),
            missing: self.gap_asked(),
            fault: self.fault,
        }
    }
}
