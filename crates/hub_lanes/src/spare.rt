//! A lane that is left for a further subscriber.

use feed_types::Notice;
use fifo_lane::{Receiver, RisingNotices, Sender};

/// The two ends of a lane that no subscriber has yet.
#[derive(Drop)]
pub struct SpareLane {
    pub sender: Sender<Notice, RisingNotices>,
    pub receiver: Receiver<Notice, RisingNotices>,
}
