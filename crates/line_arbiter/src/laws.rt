//! Laws of the definitions, for a venue's stream and for a session's messages.

ghost use Rattle.std.specs.Prelude.{◌≡◌, ℕ, ◌+◌, ◌≤◌, ◌++◌, ◌∷◌, ◌&&◌, ◌==◌, if◌then◌else◌, is_some, take, [], List, length, IsOk, Ok, None, Option, Result};
ghost use Rattle.std.specs.List.{AllByRecursion};
ghost use Rattle.feed_types.specs.Sequence.{IsInSequence};
ghost use Rattle.feed_types.specs.Sessions.{Session, IsSessionAt, Names, end_item, numbered_from};
ghost use Rattle.feed_types.specs.Prefix.{IsPrefix};
ghost use Rattle.line_arbiter.specs.Packets.{Arrival, Arrived, Input, Skip, carried, end_of, first_of, known_of};
ghost use Rattle.line_arbiter.specs.Streams.{AreTaken, IsComplete, front_of, gap_of, part_of, place_of, sent_of, stream_of};
ghost use Rattle.line_arbiter.specs.Outcomes.{IsOutcome};
ghost use Rattle.line_arbiter.specs.Answered.{IsAnswered, AreAnswered};
ghost use Rattle.line_arbiter.specs.Renewals.{IsRenewal};
ghost use Rattle.line_arbiter.specs.Skips.{AreSkips, IsArrival, IsSkip, MaySkip};
ghost use Rattle.line_arbiter.specs.States.{State};
ghost use Rattle.line_arbiter.specs.Fits.{Fits};
ghost use Rattle.line_arbiter.specs.Histories.{History, all_begun, streams_of};
ghost use Rattle.line_arbiter.specs.Genuine.{IsGenuine, IsGenuineIn, AreGenuine, AreGenuineFrom};
ghost use Rattle.line_arbiter.specs.OfSession.{IsInputOfMessages, IsOfMessages, IsOfSession, AreOfSession, GivesSession, AreGenuineOf, session_of_messages, session_stream};
ghost use Rattle.line_arbiter.specs.Gaps.{IsGap, IsKnown};
ghost use Rattle.mold_packet.specs.Content.{Content, IsContent};
ghost use Rattle.mold_packet.specs.declared.request.Request.{Request};
ghost use Rattle.line_arbiter.specs.declared.outcome.Outcome.{Outcome};
ghost use Rattle.line_arbiter.specs.declared.outcome.LineFault.{LineFault};
ghost use Rattle.line_arbiter.specs.declared.faults.RenewFault.{RenewFault};
ghost use Rattle.line_arbiter.specs.declared.faults.SkipFault.{SkipFault};

use feed_types::Genuine;

/// A packet has one answer, whatever came before it.
pub fn one_outcome()
    ensures { (session : List ℕ) (window sent : ℕ) (packets : List Input) (p : Content)
        (a b : Result Outcome LineFault)
        → IsOutcome session window sent packets p a → IsOutcome session window sent packets p b
        → a ≡ b }
{}

/// A renewal has one answer.
pub fn one_renewal()
    ensures { (names : List (List ℕ)) (end : Option ℕ) (sent : ℕ) (name : List ℕ)
        (a b : Result ℕ RenewFault)
        → IsRenewal names end sent name a → IsRenewal names end sent name b → a ≡ b }
{}

/// A packet has an answer: with [`one_outcome`], exactly one.
pub fn every_packet_has_an_answer()
    ensures { (session : List ℕ) (window sent : ℕ) (packets : List Input) (p : Content)
        → (answer : Result Outcome LineFault)
        × IsOutcome session window sent packets p answer }
{}

/// A renewal has an answer: with [`one_renewal`], exactly one.
pub fn every_renewal_has_an_answer()
    ensures { (names : List (List ℕ)) (end : Option ℕ) (sent : ℕ) (name : List ℕ)
        → (answer : Result ℕ RenewFault) × IsRenewal names end sent name answer }
{}

/// A skip has one answer.
pub fn one_skip()
    ensures { (packets : List Input) (sent n : ℕ) (a b : Result (Unit {0}) SkipFault)
        → IsSkip packets sent n a → IsSkip packets sent n b → a ≡ b }
{}

/// A skip has an answer: with [`one_skip`], exactly one.
pub fn every_skip_has_an_answer()
    ensures { (packets : List Input) (sent n : ℕ)
        → (answer : Result (Unit {0}) SkipFault) × IsSkip packets sent n answer }
{}

/// The first gap: the front is the greatest number up to which all were taken, and the next one
/// wasn't.
pub fn the_front_is_the_first_gap()
    ensures taken { (packets : List Input) → AreTaken packets (front_of packets) }
    ensures greatest { (packets : List Input) (n : ℕ) → AreTaken packets n
        → n ≤ front_of packets }
    ensures next { (packets : List Input) → carried packets (front_of packets + 1) ≡ None }
{}

/// The run to ask for is the gap at the front and no other: from the number after the front, as far
/// as messages are missing in a row, are known of and have a place in the window.
pub fn the_gap_is_what_is_missing()
    ensures is { (session : List ℕ) (window sent : ℕ) (packets : List Input)
        → IsGap session window sent packets (gap_of session window sent packets) }
    ensures one { (session : List ℕ) (window sent : ℕ) (packets : List Input)
        (gap : Option Request)
        → IsGap session window sent packets gap → gap ≡ gap_of session window sent packets }
{}

/// What is known of a session: up to before the announced end, else up to the greatest number that
/// a packet showed.
pub fn known_is_the_greatest_heard_of()
    ensures { (packets : List Input) → IsKnown packets (end_of packets) (known_of packets) }
{}

/// A stream only grows: with one more packet it begins with the stream of before, where each packet
/// was answered by the definitions.
pub fn a_stream_only_grows()
    ensures { (session : List ℕ) (window : ℕ) (packets : List Input) (a : Input)
        → AreAnswered session window packets → IsAnswered session window packets a
        → IsPrefix (stream_of packets) (stream_of (packets ++ a ∷ [])) }
{}

/// Packets that were answered by the definitions are so with one more that is.
pub fn answers_go_on()
    ensures { (session : List ℕ) (window : ℕ) (packets : List Input) (a : Input)
        → AreAnswered session window packets → IsAnswered session window packets a
        → AreAnswered session window (packets ++ a ∷ []) }
{}

/// A renewal comes only when all is sent: where it is answered Ok, the session's messages are
/// complete, and all of its stream was sent.
pub fn a_renewal_comes_when_all_is_sent()
    ensures { (session name : List ℕ) (names : List (List ℕ)) (window sent ordinal : ℕ)
        (packets : List Input)
        → AreAnswered session window packets → place_of packets sent ≤ length (stream_of packets)
        → IsRenewal names (end_of packets) sent name (Ok ordinal)
        → IsComplete packets × (place_of packets sent ≡ length (stream_of packets)) }
{}

/// The session law: where each packet of the session's name is of the session, and was answered by
/// the definitions, the stream is the session's items up to the first gap, each once, and then End
/// exactly where it was announced and nothing is missing; and no packet of that name was refused.
pub fn the_stream_is_the_session()
    ensures { (session : Session) (window : ℕ) (packets : List Input)
        → AreAnswered session.name window packets → AreOfSession session packets
        → GivesSession session packets }
{}

/// A session is a list of messages: a packet whose blocks are those messages at their numbers is of
/// the session of their items. So where each packet of its name is, the stream is these messages.
pub fn a_session_is_its_messages()
    ensures packet { (name : List ℕ) (messages : List (List ℕ)) (p : Content)
        → IsOfMessages name messages p → IsOfSession (session_of_messages name messages) p }
    ensures stream { (name : List ℕ) (messages : List (List ℕ)) (window : ℕ)
        (packets : List Input)
        → AreAnswered name window packets
        → AllByRecursion (IsInputOfMessages name messages) packets
        → GivesSession (session_of_messages name messages) packets }
{}

/// From sessions to genuine packets: where the lines carry exactly these sessions, a packet that is
/// of one of them is genuine.
pub fn packets_of_sessions_are_genuine<G: Genuine>()
    ensures { (venue ordinal : ℕ) (all : List Session) (session : Session) (p : Content)
        → Names G.sessions G.carries G.ends venue all → IsSessionAt all ordinal session
        → IsContent p → IsOfSession session p
        → IsGenuine G.sessions G.carries G.ends venue p }
{}

/// Where the lines carry exactly these sessions, and what was taken is genuine, the stream is the
/// session's.
pub fn a_genuine_stream_is_the_session<G: Genuine>()
    ensures front { (venue ordinal : ℕ) (all : List Session) (session : Session)
        (packets : List Input)
        → AreGenuineOf G.sessions G.carries G.ends venue ordinal all session packets
        → front_of packets ≤ length session.items }
    ensures stream { (venue ordinal : ℕ) (all : List Session) (session : Session)
        (packets : List Input)
        → AreGenuineOf G.sessions G.carries G.ends venue ordinal all session packets
        → part_of packets
        ≡ session_stream session (first_of packets) (front_of packets) (end_of packets) }
{}

/// In that case no packet of the session is refused.
pub fn no_genuine_packet_is_refused<G: Genuine>()
    ensures { (venue ordinal window sent : ℕ) (all : List Session) (session : Session)
        (packets : List Input) (p : Content) (answer : Result Outcome LineFault)
        → AreGenuineOf G.sessions G.carries G.ends venue ordinal all session packets
        → IsContent p → IsOfSession session p
        → IsOutcome session.name window sent packets p answer → IsOk answer }
{}

/// What was taken stays genuine when one more packet is answered that is genuine where it is of the
/// session. So the owner of an arbiter needs to know that alone of each packet.
pub fn what_is_taken_stays_genuine<G: Genuine>()
    ensures { (venue ordinal window : ℕ) (session : List ℕ) (packets : List Input) (a : Input)
        → AreGenuine G.carries G.ends venue ordinal packets
        → IsGenuineIn G.carries G.ends venue ordinal session a
        → IsAnswered session window packets a
        → AreGenuine G.carries G.ends venue ordinal (packets ++ a ∷ []) }
{}

/// The sequence law: where what was taken in each of a venue's sessions is genuine, each skip could
/// be made, and all sessions but the present one are over, their streams one after another obey the
/// rule of a venue's items.
pub fn streams_are_in_sequence<G: Genuine>()
    ensures { (venue : ℕ) (h : History)
        → AreGenuineFrom G.carries G.ends venue 1 (all_begun h)
        → IsInSequence G.carries G.ends venue (streams_of h) }
{}

/// Where nothing was given up, a session is one part: its items from the first up to the first gap,
/// and End where it follows.
pub fn a_session_without_skips_is_one_part()
    ensures one { (packets : List Input) → AllByRecursion IsArrival packets
        → (first_of packets ≡ 1) × (stream_of packets ≡ part_of packets) }
    ensures session { (session : Session) (packets : List Input)
        → AllByRecursion IsArrival packets → GivesSession session packets
        → stream_of packets
        ≡ numbered_from 1 (take (front_of packets) session.items)
        ++ (if is_some (end_of packets) && (front_of packets == length session.items)
        then end_item (front_of packets + 1) ∷ [] else []) }
{}

/// Skips that were answered by the definitions could be made.
pub fn answered_skips_could_be_made()
    ensures { (session : List ℕ) (window : ℕ) (packets : List Input)
        → AreAnswered session window packets → AreSkips packets }
{}

/// How many items of the stream an arbiter has sent: as many more as items were advanced past, no
/// more with a packet, and all of what came before at a skip. The number of the last one sent
/// follows from that count.
pub fn items_sent_are_counted()
    ensures packet { (packets : List Input) (a : Arrival) (sent : ℕ)
        → place_of (packets ++ Arrived a ∷ []) sent ≡ place_of packets sent }
    ensures item { (s : State) (packets : List Input) → Fits s packets
        → place_of packets (s.sent + 1) ≡ place_of packets s.sent + 1 }
    ensures within { (s : State) (packets : List Input) → Fits s packets
        → place_of packets s.sent ≤ length (stream_of packets) }
    ensures skip { (packets : List Input) (n sent : ℕ) → MaySkip packets n → sent + 2 ≡ n
        → place_of (packets ++ Skip n ∷ []) sent ≡ length (stream_of packets) }
    ensures back { (s : State) (packets : List Input) → Fits s packets
        → sent_of packets (place_of packets s.sent) ≡ s.sent }
{}
