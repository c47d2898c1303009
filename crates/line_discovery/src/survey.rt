//! Surveys of packet captures.
ghost use Rattle.std.specs.Prelude.{◌≡◌, IfOk, length};
ghost use Rattle.line_captures.specs.DropCounts.{dropped_of};
ghost use Rattle.line_discovery.specs.Surveys.{StopsSurvey, ReadsSurvey, is_bad_piece, is_begun, new_survey, wants_piece};
ghost use Rattle.line_discovery.specs.SurveyLaws.{survey_longer, survey_more, survey_none, survey_venues};
ghost use Rattle.line_discovery.specs.SurveyTexts.{text_of_survey};
ghost use Rattle.line_discovery.specs.Tables.{up_to_most};

use crate::counts::SurveyCounts;
use crate::text::text_of;
use capture_records::{RecordFormat, Step};
use line_captures::{BadPiece, DroppedFrames, FrameCounts};
use packet_capture::{CaptureReader, NoPiece, read_as_bytes_come};
use run_settings::{StatsFormat, TimeStyle};
use std::alloc::{AllocError, Global};

/// A packet capture (pcap or pcapng) of which the datagrams are counted. As a format it has no
/// records.
#[derive(Drop)]
pub struct EndpointSurvey {
    capture: CaptureReader,
    counts: SurveyCounts,
}

impl EndpointSurvey {
    /// Returns the survey of which nothing was read. It takes all its memory, some 1 MB.
    pub fn new(alloc: Global) -> Result<EndpointSurvey, AllocError>
        ensures { IfOk result (λ s. s ≡ new_survey) }
    {
        Ok(EndpointSurvey {
            capture: CaptureReader::new(),
            counts: SurveyCounts::new(alloc)?,
        })
    }

    /// Returns at which byte of the capture the next piece begins, counted from 0.
    pub fn position(&self) -> u64
        ensures { result ≡ self.now.counts.progress.position }
    {
        self.counts.progress.position
    }

    /// Returns how many frames are of each kind. No line is known, so each datagram is one to no
    /// line.
    pub fn frames(&self) -> FrameCounts
        ensures { result ≡ self.now.counts.progress.counts }
    {
        self.counts.progress.counts
    }

    /// Returns how many frames were dropped, as the capture says.
    pub fn dropped(&self) -> DroppedFrames
        ensures { result ≡ dropped_of self.now.counts.progress.drops }
    {
        self.counts.progress.drops.dropped()
    }

    /// Returns at which byte a second capture seems to begin, counted from 0, if one does.
    pub fn second_start(&self) -> Option<u64>
        ensures { result ≡ self.now.counts.progress.second_start }
    {
        self.counts.progress.second_start
    }

    /// Returns how many packets there were.
    pub fn packets(&self) -> u64
        ensures { result ≡ up_to_most (length self.now.counts.lines) }
    {
        self.counts.lines.total()
    }

    /// Returns what was counted as a text in the format, with times in the style. Fails where
    /// memory is refused.
    pub fn text(
        &self,
        alloc: Global,
        format: StatsFormat,
        style: TimeStyle,
    ) -> Result<Vec<u8>, AllocError>
        ensures { IfOk result (λ text.
            text.items ≡ text_of_survey format style self.now.counts) }
    {
        text_of(alloc, &self.counts, format, style)
    }
}

/// Returns the step where no piece is read at the front of these bytes.
fn step_at<'b>(stop: NoPiece, bytes: &[u8]) -> Step<'b, BadPiece>
    ensures { StopsSurvey stop bytes.now result }
{
    match stop {
        NoPiece::Wants(_) => Step::Wants,
        NoPiece::Bad(fault) => Step::Bad(BadPiece::new(fault, bytes)),
    }
}

impl RecordFormat for EndpointSurvey {
    type Fault = BadPiece;

    ghost reads = { ReadsSurvey };

    ghost wants = { wants_piece };

    ghost is_bad = { is_bad_piece };

    ghost is_whole = { is_begun };

    ghost venues = { λ s. 0 };

    ghost reads_none = { survey_none };

    ghost reads_more = { survey_more };

    ghost reads_longer = { survey_longer };

    ghost reads_venues = { survey_venues };

    fn next<'b>(&mut self, bytes: &'b [u8]) -> Step<'b, BadPiece> {
        read_as_bytes_come();
        match self.capture.next_piece(bytes) {
            Ok(piece) => {
                self.counts.count_piece(&piece);
                Step::Passed(piece.len)
            }
            Err(stop) => step_at(stop, bytes),
        }
    }

    fn may_end(&self) -> bool {
        !self.capture.is_at_start()
    }
}
