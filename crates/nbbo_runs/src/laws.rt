//! Laws that join the runs of the program.
ghost use Rattle.std.specs.Prelude.{◌≡◌, ℕ, List, [], flat_map, map};
ghost use Rattle.std.specs.List.{AllByRecursion};
ghost use Rattle.capture_records.specs.Capture.{capture_of};
ghost use Rattle.line_arbiter.specs.Histories.{Begun};
ghost use Rattle.line_arbiter.specs.OfSession.{IsInputOfMessages};
ghost use Rattle.nbbo_runs.specs.NormalisedReplays.{CanBeReplayed, record_sent_of};
ghost use Rattle.normalising.specs.Normalised.{quoted_keys};
ghost use Rattle.normalising.specs.Sendings.{IsSending, Sending, SendsSession, sending_text};
ghost use Rattle.normalising.specs.declared.normalised_feed.NormalisedFeed.{NormalisedFeed};
ghost use Rattle.normalising.specs.declared.output_form.OutputForm.TheVariants.{Own};
ghost use Rattle.venue_normaliser.specs.Outputs.{Opening};

use mold_packet::one_reading;
use normalising::what_a_run_sends_is_the_session;
use venue_normaliser::{what_a_snapshot_shows_is_put_out, what_is_put_out_is_the_session};

/// What a run of `normalise` sends in this project's own format is a capture of records. Where a
/// session's packets and skips are of a session of messages, each packet of its name in these
/// records is of the session whose item n is the one that message n makes, up to the first gap:
/// what the headline of a replay asks of its records. The function does nothing: its contract is a
/// law.
pub fn what_is_normalised_can_be_replayed()
    ensures capture { (sendings : List Sending)
        → flat_map (sending_text Own) sendings ≡ capture_of (map record_sent_of sendings) [] }
    ensures premise { (feed : NormalisedFeed) (place : ℕ) (sendings : List Sending)
        (opening : Opening) (b : Begun) (messages : List (List ℕ))
        → AllByRecursion IsSending sendings → SendsSession feed place sendings opening b
        → AllByRecursion (IsInputOfMessages b.name messages) b.packets
        → CanBeReplayed (quoted_keys feed) place sendings opening b messages }
{
    one_reading();
    what_a_run_sends_is_the_session();
    what_a_snapshot_shows_is_put_out();
    what_is_put_out_is_the_session();
}
