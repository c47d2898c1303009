//! The end of a recording that a line's thread has.
ghost use Rattle.std.specs.Prelude.{◌≡◌, [], IfOk};
ghost use Rattle.rtrb.specs.Ring.{received, sent};
ghost use Rattle.line_recordings.specs.Placed.{HandsOver, SendsOrLoses};

use crate::placed::Placed;
use crate::record_source::RecordSource;
use feed_types::SessionName;
use rtrb::{Consumer, Producer, RingBuffer};
use std::alloc::{AllocError, Global};
use std::sync::Arc;
use std::sync::atomic::{AtomicU64, Ordering};

/// Where a line's thread hands over what its venue took, for a recording. What finds no room there
/// is lost, and counted.
#[derive(Drop)]
pub struct RecordSender {
    pub(crate) records: Producer<Placed>,
    /// Memory that comes back.
    spare: Consumer<Vec<u8>>,
    /// How many were lost.
    pub(crate) lost: u64,
    /// How many were given, for who counts what isn't written.
    given: Arc<AtomicU64, Global>,
    alloc: Global,
}

/// Makes both ends of a part of a recording, which has room for `room` records.
pub fn recorder_pair(alloc: Global, room: usize) -> Result<(RecordSender, RecordSource), AllocError>
    ensures sender { IfOk result (λ ends. sent ends.0.records ≡ []) }
    ensures lost { IfOk result (λ ends. ends.0.lost ≡ 0) }
    ensures source { IfOk result (λ ends. received ends.1.records ≡ []) }
{
    let (records, source) = RingBuffer::new(alloc, room)?;
    let (used, spare) = RingBuffer::new(alloc, room)?;
    let given = Arc::new(alloc, AtomicU64::new(0))?;
    let counted = Arc::try_clone(&given)?;
    let sender = RecordSender {
        records,
        spare,
        lost: 0,
        given,
        alloc,
    };
    let source = RecordSource {
        records: source,
        used,
        given: counted,
    };
    Ok((sender, source))
}

impl RecordSender {
    /// Memory with these bytes: some that came back, where there is any. AllocError where more was
    /// refused.
    fn copied(&mut self, bytes: &[u8]) -> Result<Vec<u8>, AllocError>
        ensures copied { IfOk result (λ copy. copy.items ≡ bytes.now) }
        ensures records { self.new.records ≡ self.old.records }
        ensures lost { self.new.lost ≡ self.old.lost }
    {
        let mut copy = match self.spare.pop() {
            Ok(spare) => spare,
            Err(_) => Vec::new(self.alloc),
        };
        copy.clear();
        match copy.extend_from_slice(bytes) {
            Ok(()) => Ok(copy),
            Err(error) => Err(error),
        }
    }

    /// Hands over what the venue took at this place, and that its session of this name has begun at
    /// it, if one has. Where there is no room for it, or no memory, it is lost, and counted.
    #[tactic(auto, using(crate::proofs::Handing::handed))]
    pub fn record(&mut self, place: u64, begun: Option<SessionName>, bytes: &[u8])
        ensures { SendsOrLoses self.old place begun bytes.now self.new }
    {
        self.given.fetch_add(1, Ordering::SeqCst);
        if let Ok(bytes) = self.copied(bytes) {
            let placed = Placed {
                place,
                begun,
                bytes,
            };
            match self.records.push(placed) {
                Ok(()) => return,
                Err(full) => drop(full),
            }
        }
        self.lost = self.lost.saturating_add(1);
    }
}

/// Hands over what the venue took at this place, and that its session of this name has begun at it,
/// if one has, where it is recorded.
pub fn hand_over(
    records: &mut Option<RecordSender>,
    place: u64,
    begun: Option<SessionName>,
    bytes: &[u8],
)
    ensures { HandsOver records.old place begun bytes.now records.new }
{
    if let Some(sender) = records {
        sender.record(place, begun, bytes);
    }
}
