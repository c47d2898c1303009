//! The journal of a replay, and the sink of its events.
ghost use Rattle.std.specs.Prelude.{◌≡◌, ◌<◌, ◌≤◌, ◌∷◌, [], ◌+◌, ◌++◌, length, map, OnErr, OnOk};
ghost use Rattle.nbbo_book.specs.Books.{venue_of};
ghost use Rattle.journal_book.specs.Changes.{notices_from};
ghost use Rattle.feed_text.specs.ReplayEvents.{IsItemEntry, entry_event, self_help_declared};
ghost use Rattle.event_sinks.specs.SinkEvents.{at_time, timed_event, told_best, told_by};
ghost use Rattle.feed_text.specs.ReplayStates.{EmitsInto, EmitsPlain, state_of_replay};
ghost use Rattle.feed_text.specs.declared.replay_sink.PublishStop.TheVariants.{SinkFailed};

use event_sinks::{EventSink, ReplayedEvent, SinkStop};
use feed_types::{Entry, VenueId};
use journal_book::{EntryChanges, JournalFault, NumberedBook};

/// Why a record's events were not published to their end.
#[derive(Clone, Copy, Debug, PartialEq, Eq)]
pub enum PublishStop {
    /// The journal is full, and the next event needs one more entry.
    JournalFull,
    /// The sink failed.
    SinkFailed,
}

impl From<SinkStop> for PublishStop {
    ghost from_gives = { λ _ e. e ≡ SinkFailed };

    fn from(_stop: SinkStop) -> PublishStop {
        PublishStop::SinkFailed
    }
}

/// The journal of a replay, the time of the record at hand, and the sink of the events.
#[derive(Drop)]
pub struct ReplaySink<K> {
    pub journal: NumberedBook,
    pub time: Option<u64>,
    pub sink: K,
}

/// Gives the sink the changes that the last entry made.
#[inline(always)]
fn tell_bests<K: EventSink>(
    sink: &mut K,
    time: Option<u64>,
    latest: EntryChanges<'_>,
) -> Result<(), SinkStop>
    requires { latest.first + length latest.changes.now ≤ 18446744073709551615 }
    ensures took { OnOk result (K.takes sink.old
        (at_time time (map told_best (notices_from latest.entry.first latest.entry.changes.now)))
        sink.new) }
    ensures failed { OnErr result (K.fails sink.old
        (at_time time (map told_best (notices_from latest.entry.first latest.entry.changes.now)))
        sink.new) }
{
    let mut number = latest.first;
    for change in latest.changes {
        sink.take(time, &ReplayedEvent::Best { number, change })?;
        number += 1;
    }
    Ok(())
}

impl<K: EventSink> ReplaySink<K> {
    /// Gives the sink an event that leaves the journal unchanged.
    #[inline(always)]
    pub fn tell(&mut self, event: &ReplayedEvent<'_>) -> Result<(), PublishStop>
        ensures { EmitsPlain (record { takes = K.takes; fails = K.fails })
            (state_of_replay self.old) (told_by event.now) (state_of_replay self.new) result }
    {
        self.sink.take(self.time, event)?;
        Ok(())
    }

    /// Journals the entry, which is a venue's next item, and gives the sink the item and the
    /// changes that it makes. The entry is lent, so that the item is written once.
    #[inline(always)]
    pub fn take_item(&mut self, entry: &Entry) -> Result<(), PublishStop>
        requires venue { venue_of entry.now < self.old.journal.venues }
        requires item { IsItemEntry entry.now }
        ensures { EmitsInto (record { takes = K.takes; fails = K.fails })
            (state_of_replay self.old) (entry_event entry.now ∷ [])
            (state_of_replay self.new) result }
    {
        let Entry::Consumed { venue, numbered } = entry else {
            unreachable!();
        };
        if !self.journal.has_room() {
            return Err(PublishStop::JournalFull);
        }
        // Journaled before the sink is told: what the book keeps of the symbol is fetched
        // meanwhile.
        self.journal.add(entry);
        let item = ReplayedEvent::Item {
            venue: *venue,
            item: numbered,
        };
        self.sink.take(self.time, &item)?;
        tell_bests(&mut self.sink, self.time, self.journal.latest())?;
        Ok(())
    }

    /// Journals a declaration, unless that is declared already, and gives the sink it and the
    /// changes that it makes.
    #[inline(never)]
    pub fn declare(&mut self, venue: VenueId, on: bool) -> Result<(), PublishStop>
        requires { venue < self.old.journal.venues }
        ensures { EmitsInto (record { takes = K.takes; fails = K.fails })
            (state_of_replay self.old) (self_help_declared venue on ∷ [])
            (state_of_replay self.new) result }
    {
        match self.journal.declare(venue, on) {
            Ok(position) => {
                let declaration = ReplayedEvent::Declaration {
                    venue,
                    on,
                    position: Some(position),
                };
                self.sink.take(self.time, &declaration)?;
                tell_bests(&mut self.sink, self.time, self.journal.latest())?;
                Ok(())
            }
            Err(JournalFault::AlreadySo) => {
                let declaration = ReplayedEvent::Declaration {
                    venue,
                    on,
                    position: None,
                };
                self.sink.take(self.time, &declaration)?;
                Ok(())
            }
            Err(JournalFault::JournalFull) => Err(PublishStop::JournalFull),
            Err(_) => unreachable!(),
        }
    }
}
