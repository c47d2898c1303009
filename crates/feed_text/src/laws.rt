//! Laws of the definitions.
ghost use Rattle.std.specs.Prelude.{◌≡◌, ℕ, Bool, List, [], Some, All, slice_get};
ghost use Rattle.line_arbiter.specs.Histories.{History, streams_of};
ghost use Rattle.feed_text.specs.declared.replay.ReplayConfig.{ReplayConfig};
ghost use Rattle.capture_records.specs.Capture.{CaptureRecord, HoldsBytes, IsRecord, record_venue};
ghost use Rattle.feed_text.specs.ReplayEvents.{ReplayEvent};
ghost use Rattle.feed_text.specs.Emitted.{Emits, EmitsAt};
ghost use Rattle.feed_text.specs.EventReplays.{venues_in};
ghost use Rattle.capture_records.specs.Formats.{TimedRecord};
ghost use Rattle.event_sinks.specs.SinkEvents.{TimedEvent};
ghost use Rattle.feed_text.specs.Texts.{EmitsAll};
ghost use Rattle.feed_text.specs.Told.{IsToldOf, IsToldOfAll, IsToldToFull};
ghost use Rattle.run_settings.specs.declared.skip_rule.SkipRule.{SkipRule};
ghost use Rattle.feed_text.specs.Rules.{AreTakenOf, IsMade, PutsIn, ReplayPoint, new_point};
ghost use Rattle.feed_text.specs.VenueItems.{items_taken};

/// Records emit one list of events, and one list is told of them: what meets the definition is the
/// same. So is what is told of a whole capture, and up to a full journal; and of records either the
/// one or the other is told.
pub fn one_telling()
    ensures emitted { (window : ℕ) (gaps : Bool) (records : List CaptureRecord)
        (old new last : List History) (t u : List ReplayEvent)
        → Emits window gaps records old t new → Emits window gaps records old u last
        → (t ≡ u) × (new ≡ last) }
    ensures capture { (config : ReplayConfig) (records : List TimedRecord) (t u : List TimedEvent)
        → IsToldOfAll config records t → IsToldOfAll config records u → t ≡ u }
    ensures records { (config : ReplayConfig) (records : List TimedRecord) (t u : List TimedEvent)
        → IsToldOf config records t → IsToldOf config records u → t ≡ u }
    ensures full { (config : ReplayConfig) (records : List TimedRecord) (t u : List TimedEvent)
        → IsToldToFull config records t → IsToldToFull config records u → t ≡ u }
    ensures either { (config : ReplayConfig) (records : List TimedRecord) (t u : List TimedEvent)
        → IsToldOf config records t → IsToldToFull config records u → ⊥ }
{
    mold_packet::one_reading();
    line_arbiter::one_outcome();
}

/// Records emit events, whatever they are: with [`one_telling`], exactly one list of events. So no
/// clause over emitted events is empty.
pub fn every_capture_tells()
    ensures { (config : ReplayConfig) (records : List CaptureRecord)
        → All (IsRecord (venues_in config)) records → All HoldsBytes records
        → (emitted : List ReplayEvent) × (histories : List History)
        × EmitsAll config records emitted histories }
{}

/// The items that are emitted of a venue are its streams: session after session, what its lines
/// brought up to the first gap, each once and in sequence, whether or not the journal has room.
pub fn items_are_the_streams()
    ensures { (config : ReplayConfig) (records : List CaptureRecord) (emitted : List ReplayEvent)
        (histories : List History)
        → EmitsAll config records emitted histories
        → (place : ℕ) (h : History) → slice_get histories place ≡ Some h
        → items_taken place emitted ≡ streams_of h }
{}

/// Without a rule and next sessions what is taken of a capture's records are these records; and of
/// what is put in a skip is made and a session begins.
pub fn what_is_put_in_is_made()
    ensures never { (config : ReplayConfig) (records taken : List TimedRecord)
        (last : ReplayPoint) → config.skips ≡ SkipRule.Never → config.next_sessions.now ≡ []
        → AreTakenOf config records (new_point config) taken [] last → taken ≡ records }
    ensures made { (config : ReplayConfig) (at : ReplayPoint) (r : TimedRecord)
        (put_in : CaptureRecord) (h after : History) (emitted : List ReplayEvent)
        → PutsIn config at r put_in
        → slice_get at.histories (record_venue put_in) ≡ Some h
        → EmitsAt config.window config.gaps put_in h emitted after
        → IsMade put_in h after }
{}
