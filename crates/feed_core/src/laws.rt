//! Laws of the definitions. Each function has an empty body, and its contract is a law.

ghost use Rattle.std.specs.Prelude.{◌≡◌, ◌≢◌, ℕ, ◌+◌, ◌<◌, ◌++◌, ◌∷◌, [], List, Some, length, map, slice_get};
ghost use Rattle.std.specs.List.{AllByRecursion};
ghost use Rattle.feed_types.specs.declared.item.Item.TheVariants.{End};
ghost use Rattle.feed_types.specs.declared.item.Numbered.{Numbered};
ghost use Rattle.feed_types.specs.Sequence.{HasPlace};
ghost use Rattle.feed_types.specs.Sessions.{Session, whole_sessions};
ghost use Rattle.line_arbiter.specs.Packets.{end_of};
ghost use Rattle.line_arbiter.specs.Skips.{IsArrival};
ghost use Rattle.line_arbiter.specs.Streams.{front_of};
ghost use Rattle.line_arbiter.specs.OfSession.{SkipsWithin, session_stream};
ghost use Rattle.line_arbiter.specs.SessionOrder.{AreInSequenceFrom};
ghost use Rattle.line_arbiter.specs.Histories.{History, all_begun, names_of};
ghost use Rattle.feed_steps.specs.declared.event.Event.{Event};
ghost use Rattle.feed_steps.specs.declared.event.Done.{Done};
ghost use Rattle.feed_core.specs.Worlds.{Venue, World, Setting, new_world, session_count, session_sent};
ghost use Rattle.feed_core.specs.Runs.{BringsBytes, IsRun};
ghost use Rattle.feed_core.specs.VenueHalf.{AreVenueItems, BringOnly, VenueHalf};
ghost use Rattle.feed_core.specs.WholeSessions.{AreWhole, GiveNothingUp, SkipWithin};
ghost use Rattle.feed_core.specs.Headline.{Headline};
ghost use Rattle.feed_core.specs.RefusedSkip.{with_refused_skip};
ghost use Rattle.feed_core.specs.Dequeuing.{Dequeues, one_of_each, notice_of_xyz, xyz};

/// The headline. After every list of events, each venue's items, consumed and then waiting, are its
/// sessions' messages, session by session up to the first gap that was not given up, each once, in
/// sequence and none after their session's end, with one item in the place of messages that were
/// given up; and each subscriber's dequeued notices are, in order and without doubles, a prefix of
/// the journal's changes of the national best that meet its filter.
pub fn headline()
    ensures { (s : Setting) (events : List Event) (outcomes : List Done) (w : World)
        → IsRun s (new_world s) events outcomes w → Headline s events w }
{}

/// Where no event gives up messages of a venue, its items are its sessions, one after another, each
/// whole but the present one, which goes up to its first gap; and the number of the last item sent
/// is their count.
pub fn items_without_skips()
    ensures session { (events : List Event) (place : ℕ) (all : List Numbered) (h : History)
        → AreVenueItems events place all h → GiveNothingUp place events
        → (s : Session) → BringOnly place events s → AreWhole s h }
    ensures sessions { (events : List Event) (place : ℕ) (all : List Numbered) (h : History)
        → AreVenueItems events place all h → GiveNothingUp place events
        → (earlier : List Session) (present : Session)
        → map (λ s. s.name) (earlier ++ present ∷ []) ≡ names_of h
        → AllByRecursion (BringOnly place events) (earlier ++ present ∷ [])
        → all ≡ whole_sessions earlier
        ++ session_stream present 1 (front_of h.present.packets) (end_of h.present.packets) }
    ensures sent { (v : Venue) → AllByRecursion IsArrival v.history.present.packets
        → session_sent v ≡ session_count v }
{}

/// Where no event gives up what is past the end of a session, no skip of the venue's history does.
pub fn skips_are_events()
    ensures { (events : List Event) (place : ℕ) (all : List Numbered) (h : History)
        → AreVenueItems events place all h → (s : Session) → SkipWithin s place events
        → AllByRecursion (λ b. AllByRecursion (SkipsWithin s) b.packets) (all_begun h) }
{}

/// A list of events has one list of outcomes and leads to one world.
pub fn one_run()
    ensures outcomes { (s : Setting) (old : World) (events : List Event)
        (a b : List Done) (v w : World)
        → IsRun s old events a v → IsRun s old events b w → a ≡ b }
    ensures world { (s : Setting) (old : World) (events : List Event)
        (a b : List Done) (v w : World)
        → IsRun s old events a v → IsRun s old events b w → v ≡ w }
{}

/// Every list of events has a run, in whatever order and from whatever world. With [`one_run`] it
/// has exactly one list of outcomes and one world, so that no clause over runs is empty.
pub fn every_list_of_events_has_a_run()
    ensures { (s : Setting) (old : World) (events : List Event)
        → AllByRecursion BringsBytes events
        → (outcomes : List Done) × (new : World) × IsRun s old events outcomes new }
{}

/// Each item in sequence comes once: of two the later one has the greater number, and none follows
/// End. The next item has the next number, or is Skipped, which has that or a greater one.
pub fn items_come_once()
    ensures once { (n : ℕ) (items : List Numbered) → AreInSequenceFrom n items
        → (i j : ℕ) (x y : Numbered) → i < j
        → slice_get items i ≡ Some x → slice_get items j ≡ Some y
        → (x.number < y.number) × (x.item ≢ End) }
    ensures next { (n : ℕ) (items : List Numbered) → AreInSequenceFrom n items
        → (i : ℕ) (x y : Numbered)
        → slice_get items i ≡ Some x → slice_get items (i + 1) ≡ Some y
        → HasPlace (x.number + 1) y.number y.item }
{}

/// The venue half excludes a history in which a refused skip stands, whose items have messages
/// twice, whatever the events are and whatever came.
pub fn no_refused_skip_stands()
    ensures { (events : List Event) (place : ℕ) (v : Venue) (session : List ℕ)
        → v.history ≡ with_refused_skip session → VenueHalf events place v → ⊥ }
{}

/// Notices come: whatever the name of a venue's session is, some events bring a packet of it with a
/// quotation, and lead to a world where a subscriber has dequeued the change that the quotation
/// makes. So the headline isn't one of a machine that offers nothing.
pub fn a_notice_is_dequeued()
    ensures { (session : List ℕ) → length session ≡ 10
        → Dequeues (one_of_each session xyz) 0 notice_of_xyz }
{}
