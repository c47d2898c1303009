//! Laws of the definitions.

ghost use Rattle.std.specs.Prelude.{ℕ, ◌⊎◌, List};
ghost use Rattle.std.specs.List.{AllByRecursion};
ghost use Rattle.feed_types.specs.declared.item.Numbered.{Numbered};
ghost use Rattle.line_arbiter.specs.Packets.{Input};
ghost use Rattle.line_arbiter.specs.Answered.{AreAnswered};
ghost use Rattle.line_arbiter.specs.OfSession.{IsInputOfMessages};
ghost use Rattle.mold_packet.specs.Content.{Content};
ghost use Rattle.item_packets.specs.Openings.{BeginsAt, IsOpening};
ghost use Rattle.venue_normaliser.specs.Outputs.{IsPutOutFrom, Opening};
ghost use Rattle.capture_records.specs.Formats.{TimedRecord};
ghost use Rattle.line_arbiter.specs.Histories.{Begun};
ghost use Rattle.normalising.specs.Carried.{BeatsWithin, Carry, last_put};
ghost use Rattle.normalising.specs.Normalised.{IsNewPoint, NormalisedPoint, NormalisesAll, quoted_keys};
ghost use Rattle.normalising.specs.OfSession.{GivesPackets};
ghost use Rattle.normalising.specs.Sendings.{Sending, SendsNothing, SendsSession, SendsSessions, packets_of_session};
ghost use Rattle.normalising.specs.declared.normalised_feed.NormalisedFeed.{NormalisedFeed};

use venue_normaliser::what_is_put_out_is_the_session;

/// Where a venue's packets are of a session of messages, packets that carry what is put out of it,
/// and heartbeats that go no further, are of the session whose item n is the one that message n
/// makes, from the opening's number up to the first gap. The function does nothing: its contract is
/// a law.
pub fn what_is_written_is_the_session()
    ensures { (keys : List ℕ) (opening : Opening) (name : List ℕ) (messages : List (List ℕ))
        (window : ℕ) (packets : List Input) (output : List Numbered) (written : List Content)
        → IsOpening opening → BeginsAt opening.number packets → AreAnswered name window packets
        → AllByRecursion (IsInputOfMessages name messages) packets
        → IsPutOutFrom keys opening packets output → Carry name output written
        → AllByRecursion (BeatsWithin (last_put opening packets)) written
        → GivesPackets keys opening name messages packets written }
{
    what_is_put_out_is_the_session();
}

/// What a run writes of each session of each venue: packets that carry together just what is put
/// out of the session's packets and skips, each of which was answered as it is to be, and
/// heartbeats that go no further; nothing of a session of which nothing came. The function does
/// nothing: its contract is a law.
pub fn a_run_sends_its_sessions()
    ensures { (feed : NormalisedFeed) (records taken left : List TimedRecord) (text : List ℕ)
        (first after : NormalisedPoint) → IsNewPoint feed first
        → NormalisesAll feed records first taken text left after
        → SendsSessions feed after text }
{}

/// So where what was given of a session is of a session of messages, the packets that a run writes
/// of it are of the session whose item n is the one that message n makes, from the opening's number
/// up to the first gap; or nothing came of it, and nothing is sent. The function does nothing: its
/// contract is a law.
pub fn what_a_run_sends_is_the_session()
    ensures { (feed : NormalisedFeed) (place : ℕ) (sendings : List Sending) (opening : Opening)
        (b : Begun) (messages : List (List ℕ)) → SendsSession feed place sendings opening b
        → AllByRecursion (IsInputOfMessages b.name messages) b.packets
        → SendsNothing opening b (packets_of_session place b.name sendings)
        ⊎ GivesPackets (quoted_keys feed) opening b.name messages b.packets
        (packets_of_session place b.name sendings) }
{
    what_is_written_is_the_session();
}
