//! What `nbbo normalise` is asked for.
ghost use Rattle.std.specs.Prelude.{vec_len};
ghost use Rattle.command_words.specs.SnapshotFiles.{SnapshotsOfVenues};

use crate::snapshot_file::SnapshotFile;
use run_settings::NormaliseSettings;

/// What `nbbo normalise` is asked for.
#[derive(Debug, Drop)]
pub struct NormaliseRequest {
    pub settings: NormaliseSettings,
    /// The files of the snapshots with which venues' first sessions begin: each of one of the
    /// feed's venues, each venue once, in the order of the words.
    pub snapshots: Vec<SnapshotFile>,
    ghost of_venues: { SnapshotsOfVenues (vec_len settings.feed.sessions) snapshots.items },
}
