//! What the lines of a venue in ITCH share.
ghost use Rattle.std.specs.Prelude.{◌≡◌, [], None, Ok, IfOk, IfSome, OnErr, OnOk};
ghost use Rattle.venue_normaliser.specs.States.{FitsPackets};
ghost use Rattle.item_packets.specs.Packed.{bytes_of_each};
ghost use Rattle.itch_lines.specs.Ends.{MayEndAs};
ghost use Rattle.itch_lines.specs.Lines.{IsPossibleSkip, IsPossibleTaking};
ghost use Rattle.itch_lines.specs.Sections.{BringsEnd};
ghost use Rattle.itch_lines.specs.Shown.{MayShow};

use crate::itch_cell::{ItchCell, SectionDone, SectionFailed};
use crate::itch_rules::ItchRules;
use crate::itch_status::ItchStatus;
use crate::status_source::StatusSource;
use crate::venue_end::ItchVenueEnd;
use feed_types::{LineId, SessionName, VenueId};
use mold_packet::Request;
use std::alloc::{AllocError, Global};
use std::collections::VecDeque;
use std::sync::atomic::{AtomicBool, AtomicU64, Ordering};
use std::sync::{Arc, Mutex, MutexGuard};
use std::{hint, thread};
use venue_lines::Looked;
use venue_normaliser::VenueNormaliser;

/// How often a thread tries a lock, or looks whether it is its turn, before it lets others run.
const TRIES: u32 = 64;

/// What is returned where no venue has taken anything.
const NOT_TAKEN: SectionFailed = SectionFailed {
    looked: Looked {
        gap: false,
        place: 0,
        begun: None,
    },
    ticket: 0,
};

/// A venue under its lock, and whose turn it is to bring what was made.
#[derive(Drop)]
struct SharedVenue {
    cell: Mutex<ItchCell>,
    /// The ticket of the datagram that is brought next. The line that has brought it passes it on.
    turn: AtomicU64,
    /// Whether a reply is awaited, for which the lines read on after the session's end.
    awaited: Arc<AtomicBool, Global>,
}

/// What the lines of a venue in ITCH share: its normaliser under a lock, and the order in which
/// they bring what was made.
#[derive(Drop)]
pub struct VenueShare {
    /// The venue.
    venue: VenueId,
    shared: Arc<SharedVenue, Global>,
}

/// Takes a datagram in a venue's cell, where it is of this venue. An `Err` where it isn't, which no
/// run meets, or where the normaliser fails or has failed.
fn take_at(
    cell: &mut ItchCell,
    venue: VenueId,
    line: LineId,
    bytes: &[u8],
    made: &mut VecDeque<Vec<u8>>,
) -> Result<SectionDone, SectionFailed>
    requires none { made.old.items ≡ [] }
    ensures took { OnOk result
        (IsPossibleTaking venue line bytes.now (bytes_of_each made.new.items)) }
    ensures end { OnErr result (BringsEnd (bytes_of_each made.new.items)) }
{
    cell.show_lock_invariant();
    if cell.venue() != venue {
        return Err(NOT_TAKEN);
    }
    let done = cell.take(line, bytes, made)?;
    cell.show_lock_invariant();
    Ok(done)
}

/// Gives up what has stood long enough in a venue's cell, as `take_at` takes a datagram.
fn give_up_at(
    cell: &mut ItchCell,
    venue: VenueId,
    now_ms: u64,
    after_ms: u64,
    made: &mut VecDeque<Vec<u8>>,
) -> Result<Option<SectionDone>, SectionFailed>
    requires none { made.old.items ≡ [] }
    ensures gave { IfOk result (λ given. IfSome given (λ _.
        IsPossibleSkip venue (bytes_of_each made.new.items))) }
    ensures none { result ≡ Ok None → made.new.items ≡ [] }
    ensures end { OnErr result (BringsEnd (bytes_of_each made.new.items)) }
{
    cell.show_lock_invariant();
    if cell.venue() != venue {
        return Err(NOT_TAKEN);
    }
    let given = cell.give_up_due(now_ms, after_ms, made)?;
    cell.show_lock_invariant();
    Ok(given)
}

/// Returns what a venue shows, by its cell; None where its normaliser has failed, or the cell is
/// another venue's, which no run meets.
fn status_at(cell: &ItchCell, venue: VenueId) -> Option<ItchStatus>
    ensures { MayShow venue result }
{
    if cell.venue() != venue {
        return None;
    }
    cell.show_lock_invariant();
    cell.status()
}

/// Returns what a venue has come to, by its cell; None where the cell is another venue's, which no
/// run meets.
fn end_at(cell: &ItchCell, venue: VenueId) -> Option<ItchVenueEnd>
    ensures { IfSome result (MayEndAs venue) }
{
    if cell.venue() != venue {
        return None;
    }
    cell.show_lock_invariant();
    Some(cell.end())
}

impl VenueShare {
    /// Makes what the lines of a venue share to which nothing came, and whose first session these
    /// follow in order.
    pub fn new(
        alloc: Global,
        normaliser: VenueNormaliser,
        names: Vec<SessionName>,
    ) -> Result<VenueShare, AllocError>
        requires { FitsPackets normaliser [] }
        ensures { IfOk result (λ share. share.venue ≡ normaliser.lines.venue) }
    {
        let venue = normaliser.venue();
        let cell = Mutex::new(ItchCell::new(alloc, normaliser, names)?);
        let shared = SharedVenue {
            cell,
            turn: AtomicU64::new(0),
            awaited: Arc::new(alloc, AtomicBool::new(false))?,
        };
        Ok(VenueShare {
            venue,
            shared: Arc::new(alloc, shared)?,
        })
    }

    /// Returns the same, for another line. AllocError where it can't be shared any further.
    pub fn share(&self) -> Result<VenueShare, AllocError>
        ensures { IfOk result (λ share. share.venue ≡ self.now.venue) }
    {
        Ok(VenueShare {
            venue: self.venue,
            shared: Arc::try_clone(&self.shared)?,
        })
    }

    /// Takes the lock, once no other thread has it: a section is short.
    fn lock(&self) -> Option<MutexGuard<'_, ItchCell>> {
        for _ in 0..u64::MAX {
            for _ in 0..TRIES {
                if let Some(guard) = self.shared.cell.try_lock() {
                    return Some(guard);
                }
                hint::spin_loop();
            }
            thread::yield_now();
        }
        None
    }

    /// Takes a datagram that came on a line of the venue, and makes the datagrams that carry what
    /// is put out more.
    pub(crate) fn take(
        &self,
        venue: VenueId,
        line: LineId,
        bytes: &[u8],
        made: &mut VecDeque<Vec<u8>>,
    ) -> Result<SectionDone, SectionFailed>
        requires none { made.old.items ≡ [] }
        ensures took { OnOk result
            (IsPossibleTaking venue line bytes.now (bytes_of_each made.new.items)) }
        ensures end { OnErr result (BringsEnd (bytes_of_each made.new.items)) }
    {
        match self.lock() {
            Some(mut guard) => take_at(&mut guard, venue, line, bytes, made),
            None => Err(NOT_TAKEN),
        }
    }

    /// Gives up the gap of the venue that has stood long enough, if one has and that is asked for.
    pub(crate) fn give_up(
        &self,
        venue: VenueId,
        now_ms: u64,
        rules: &ItchRules,
        made: &mut VecDeque<Vec<u8>>,
    ) -> Result<Option<SectionDone>, SectionFailed>
        requires none { made.old.items ≡ [] }
        ensures gave { IfOk result (λ given. IfSome given (λ _.
            IsPossibleSkip venue (bytes_of_each made.new.items))) }
        ensures none { result ≡ Ok None → made.new.items ≡ [] }
        ensures end { OnErr result (BringsEnd (bytes_of_each made.new.items)) }
    {
        let Some(after_ms) = rules.skip_after_ms else {
            return Ok(None);
        };
        match self.lock() {
            Some(mut guard) => give_up_at(&mut guard, venue, now_ms, after_ms, made),
            None => Err(NOT_TAKEN),
        }
    }

    /// Returns the request for what is missing that is to be sent now, if any.
    pub(crate) fn request_due(&self, now_ms: u64, rules: &ItchRules) -> Option<Request> {
        match self.lock() {
            Some(mut guard) => guard.request_due(now_ms, rules.request_after_ms),
            None => None,
        }
    }

    /// Notes whether a reply is awaited at this time, for which the venue's lines read on.
    pub(crate) fn look_for_reply(&self, now_ms: u64, rules: &ItchRules) {
        match self.lock() {
            Some(mut guard) => {
                let awaits = guard.awaits_reply(now_ms, rules.reply_wait_ms);
                self.shared.awaited.store(awaits, Ordering::SeqCst);
            }
            None => self.shared.awaited.store(false, Ordering::SeqCst),
        }
    }

    /// Returns whether a reply was awaited when a line looked last.
    pub(crate) fn is_reply_awaited(&self) -> bool {
        self.shared.awaited.load(Ordering::SeqCst)
    }

    /// Returns what says whether a reply is awaited, for the sources of the venue's lines.
    pub fn share_awaited(&self) -> Result<Arc<AtomicBool, Global>, AllocError> {
        Arc::try_clone(&self.shared.awaited)
    }

    /// Returns whether the datagram of this ticket is the next one to be brought, once others had
    /// some time.
    pub(crate) fn is_turn(&self, ticket: u64) -> bool {
        for _ in 0..TRIES {
            if self.shared.turn.load(Ordering::SeqCst) == ticket {
                return true;
            }
            hint::spin_loop();
        }
        thread::yield_now();
        self.shared.turn.load(Ordering::SeqCst) == ticket
    }

    /// Passes the turn on, once the datagram of this ticket was taken.
    pub(crate) fn pass_turn(&self, ticket: u64) {
        self.shared
            .turn
            .store(ticket.saturating_add(1), Ordering::SeqCst);
    }

    /// Returns what the venue has come to.
    pub fn end(&self) -> Option<ItchVenueEnd>
        ensures { IfSome result (MayEndAs self.now.venue) }
    {
        match self.lock() {
            Some(guard) => end_at(&guard, self.venue),
            None => None,
        }
    }
}

impl StatusSource for VenueShare {
    ghost shows = { λ share status. MayShow share.venue status };

    /// Returns what the venue shows; None where its normaliser has failed.
    fn status(&self) -> Option<ItchStatus> {
        match self.lock() {
            Some(guard) => status_at(&guard, self.venue),
            None => None,
        }
    }
}
