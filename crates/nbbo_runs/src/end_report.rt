//! What formats of captures have to say on standard error after a run.
ghost use Rattle.text_out.specs.Members.{writing_of};
ghost use Rattle.std.specs.Prelude.{◌≡◌, ℕ, Bool, false, List, Result};
ghost use Rattle.event_sinks.specs.declared.replay_stop.ReplayStop.{ReplayStop};
ghost use Rattle.text_out.specs.StandardError.{SaysEach};
ghost use Rattle.nbbo_runs.specs.CaptureTexts.{capture_texts, is_timed_capture};
ghost use Rattle.nbbo_runs.specs.Ending.{of_any_sessions, own_end_texts};

use crate::capture_report::{write_counts, write_dropped, write_outcome, write_second};
use crate::ending::{own_hint, stop_line};
use crate::own_capture::{BadRecord, OwnCapture};
use capture_records::RecordFormat;
use event_sinks::ReplayStop;
use line_captures::{BadPiece, PacketFormat};
use text_out::{TextOut, write_stderr};

/// A format of captures that has something to say after a run.
pub trait EndReport: RecordFormat {
    /// What is said of what was read and of the outcome, where the venues' last sessions have these
    /// ordinals.
    ghost end_texts: { Self → List ℕ → Result (Unit {0}) (ReplayStop Self.Fault) → List (List ℕ) };

    /// Whether anything that was read had a time.
    ghost is_timed: { Self → Bool };

    /// Returns whether anything that was read had a time.
    fn has_times(&self) -> bool
        ensures { result ≡ is_timed self.now };

    /// Writes what is to be said of what was read and of the outcome, where the venues' last
    /// sessions have these ordinals.
    fn write_end_report<E: TextOut>(
        &self,
        ordinals: &[u64],
        outcome: &Result<(), ReplayStop<Self::Fault>>,
        errors: &mut E,
    )
        ensures { SaysEach (writing_of E.TextOut)
            (end_texts self.now ordinals.now outcome.now) errors.old errors.new };
}

impl EndReport for OwnCapture {
    ghost end_texts = { of_any_sessions own_end_texts };

    ghost is_timed = { λ s. false };

    fn has_times(&self) -> bool {
        false
    }

    fn write_end_report<E: TextOut>(
        &self,
        _ordinals: &[u64],
        outcome: &Result<(), ReplayStop<BadRecord>>,
        errors: &mut E,
    ) {
        match outcome {
            Ok(()) => {}
            Err(stop) => {
                write_stderr(stop_line(stop), errors);
                write_stderr(own_hint(stop), errors);
            }
        }
    }
}

impl EndReport for PacketFormat<'_> {
    ghost end_texts = { of_any_sessions capture_texts };

    ghost is_timed = { is_timed_capture };

    fn has_times(&self) -> bool {
        self.latest_time() != 0
    }

    fn write_end_report<E: TextOut>(
        &self,
        _ordinals: &[u64],
        outcome: &Result<(), ReplayStop<BadPiece>>,
        errors: &mut E,
    ) {
        let frames = self.counts();
        let lost = self.dropped();
        write_counts(&frames, errors);
        write_dropped(&lost, errors);
        write_outcome(outcome, self.position(), frames.to_lines, errors);
        write_second(outcome, self.second_start(), self.position(), errors);
    }
}
