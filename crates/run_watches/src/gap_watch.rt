//! The gap of a venue as the thread beside the run sees it: since when it stands, what was told of
//! it, and when it is given up.
ghost use Rattle.std.specs.Prelude.{◌≡◌, ◌+◌, ◌/◌, None, Some, false};
ghost use Rattle.line_arbiter.specs.Counts.{shown};
ghost use Rattle.text_out.specs.Members.{writing_of};
ghost use Rattle.text_out.specs.StandardError.{SaysEach};
ghost use Rattle.run_watches.specs.GapNews.{gap_texts_if};
ghost use Rattle.run_watches.specs.Gaps.{GivesUpDue, LooksAt, SaysOfSession, TellsIfDone, TellsStanding, after_joins, asked_range, closed_range, due_count, due_of, given_up_in, has_come, is_unanswered, joined_range, lacking_of, news_of, next_after, range_count, said_then, standing_at, stands, stood_of, told_still, told_then, unanswered_of, watch_begun};

use crate::gap_news::{GapChange, GapNews, write_gap_news};
use crate::gap_rule::GapRule;
use crate::session_news::{SessionNews, write_session_news};
use feed_types::{MissingRange, VenueId};
use line_arbiter::ArbiterStatus;
use mold_packet::Request;
use run_settings::VenueNames;
use text_out::TextOut;
use venue_lines::VenueStatus;

/// How long a gap stands before it is told, in milliseconds.
const TOLD_MS: u64 = 1_000;

/// How long nothing comes of requests for a gap before that is told, in milliseconds.
const UNANSWERED_MS: u64 = 2_000;

/// A gap that stands.
#[derive(Clone, Copy, Debug, PartialEq, Eq)]
pub struct StandingGap {
    /// The first message that is missing.
    pub first: u64,
    /// When it was seen first, in milliseconds of the run.
    pub since_ms: u64,
    /// How many requests the venue's lines had sent at the look before.
    pub asked: u64,
}

/// The gap that stands at a look that finds this one. At the look before the venue's lines had sent
/// `asked` requests.
fn standing_at(before: Option<StandingGap>, now_ms: u64, asked: u64, gap: &Request) -> StandingGap
    ensures { result ≡ standing_at before now_ms asked gap.now }
{
    match before {
        Some(standing) if standing.first == gap.number => standing,
        _ => StandingGap {
            first: gap.number,
            since_ms: now_ms,
            asked,
        },
    }
}

/// For how many milliseconds the gap has stood; 0 where none stands.
fn stood_of(standing: Option<StandingGap>, now_ms: u64) -> u64
    ensures { result ≡ stood_of standing now_ms }
{
    match standing {
        Some(standing) => now_ms.saturating_sub(standing.since_ms),
        None => 0,
    }
}

/// Whether the gap's messages were asked for, and nothing came of that for long enough to be told.
/// The venue's lines have sent `requests` requests.
fn is_unanswered(standing: &StandingGap, now_ms: u64, requests: u64) -> bool
    ensures { result ≡ is_unanswered standing.now now_ms requests }
{
    standing.asked < requests && UNANSWERED_MS <= now_ms.saturating_sub(standing.since_ms)
}

/// The messages that a request asks for.
fn asked_range(gap: &Request) -> MissingRange
    ensures { result ≡ asked_range gap.now }
{
    MissingRange {
        first: gap.number,
        count: u64::from(gap.count),
    }
}

/// Whether the messages have come, where all up to `front` were taken in sequence or given up.
fn has_come(missing: &MissingRange, front: u64) -> bool
    ensures { result ≡ has_come missing.now front }
{
    missing.count <= front.saturating_sub(missing.first.saturating_sub(1))
}

/// Of what was told to be lacking, what has come.
fn closed_range(told: Option<MissingRange>, front: u64) -> Option<MissingRange>
    ensures { result ≡ closed_range told front }
{
    match told {
        Some(missing) if has_come(&missing, front) => Some(missing),
        _ => None,
    }
}

/// Of what was told to be lacking, what hasn't come yet.
fn told_still(told: Option<MissingRange>, front: u64) -> Option<MissingRange>
    ensures { result ≡ told_still told front }
{
    match told {
        Some(missing) if !has_come(&missing, front) => Some(missing),
        _ => None,
    }
}

/// What is to be told to be lacking, if anything is: a gap that has stood for a second, where
/// nothing that was told is still lacking.
fn lacking_of(
    told: Option<MissingRange>,
    stood_ms: u64,
    gap: &Option<Request>,
) -> Option<MissingRange>
    ensures { result ≡ lacking_of told stood_ms gap.now }
{
    let Some(gap) = gap else {
        return None;
    };
    match told {
        None if stood_ms >= TOLD_MS => Some(asked_range(gap)),
        _ => None,
    }
}

/// What is told and hasn't come yet, once this was told, if it was.
fn told_then(told: Option<MissingRange>, lacking: Option<MissingRange>) -> Option<MissingRange>
    ensures { result ≡ told_then told lacking }
{
    match lacking {
        Some(missing) => Some(missing),
        None => told,
    }
}

/// What is to be told to be asked for in vain, if anything is, where nothing was before.
fn unanswered_of(
    has_told: bool,
    standing: Option<StandingGap>,
    now_ms: u64,
    status: &VenueStatus,
) -> Option<MissingRange>
    ensures { result
        ≡ unanswered_of has_told standing now_ms status.now.requests status.now.gap }
{
    let Some(standing) = standing else {
        return None;
    };
    match &status.gap {
        Some(gap) if !has_told && is_unanswered(&standing, now_ms, status.requests) => {
            Some(asked_range(gap))
        }
        _ => None,
    }
}

/// Whether anything was told to be asked for in vain, once this was, if it was.
fn said_then(has_told: bool, unanswered: Option<MissingRange>) -> bool
    ensures { result ≡ said_then has_told unanswered }
{
    match unanswered {
        Some(_) => true,
        None => has_told,
    }
}

/// How many messages these are; 0 where there are none.
fn range_count(missing: Option<MissingRange>) -> u64
    ensures { result ≡ range_count missing }
{
    match missing {
        Some(missing) => missing.count,
        None => 0,
    }
}

/// How many messages of a gap are to be given up: those before the first one that is held, or where
/// none is all that is known of.
fn due_count(cursors: &ArbiterStatus, gap: &Request) -> u64
    ensures { result ≡ due_count cursors.now gap.now }
{
    if cursors.held == 0 {
        cursors.known.saturating_add(1).saturating_sub(gap.number)
    } else {
        u64::from(gap.count)
    }
}

/// The first message after those that are missing; 2^64 - 1 at most.
fn next_after(missing: &MissingRange) -> u64
    ensures { result ≡ next_after missing.now }
{
    missing.first.saturating_add(missing.count)
}

/// A venue, and what was seen and told of its gap.
#[derive(Drop)]
pub struct GapWatch {
    venue: VenueId,
    standing: Option<StandingGap>,
    /// How many requests the venue's lines had sent at the last look.
    requests: u64,
    /// What was told to be lacking and hasn't come yet.
    told: Option<MissingRange>,
    has_told_unanswered: bool,
    /// How many messages were given up where sessions were joined, up to the last look.
    before_join: u64,
    /// How many messages were given up.
    given_up: u64,
    /// Which of the venue's sessions was the present one at the last look.
    ordinal: u64,
}

impl GapWatch {
    /// A venue that wasn't looked at yet.
    pub fn new(venue: VenueId) -> GapWatch
        ensures { result ≡ record {
          venue = venue;
          standing = None;
          requests = 0;
          told = None;
          has_told_unanswered = false;
          before_join = 0;
          given_up = 0;
          ordinal = 1;
        } }
    {
        GapWatch {
            venue,
            standing: None,
            requests: 0,
            told: None,
            has_told_unanswered: false,
            before_join: 0,
            given_up: 0,
            ordinal: 1,
        }
    }

    /// How many messages were given up.
    pub fn given_up(&self) -> u64
        ensures { result ≡ self.now.given_up }
    {
        self.given_up
    }

    /// Notes which gap stands at a look, and since when.
    fn stand(&mut self, now_ms: u64, status: &VenueStatus)
        ensures { self.new ≡ stands self.old now_ms status.now }
    {
        self.standing = match &status.gap {
            Some(gap) => Some(standing_at(self.standing, now_ms, self.requests, gap)),
            None => None,
        };
        self.requests = status.requests;
    }

    /// Says that this has happened to these messages, if there are any.
    fn say<E: TextOut>(
        &self,
        names: &VenueNames,
        second: u64,
        change: GapChange,
        missing: Option<MissingRange>,
        errors: &mut E,
    )
        ensures { SaysEach (writing_of E.TextOut)
            (gap_texts_if names.now second self.now.venue change missing) errors.old errors.new }
    {
        let Some(missing) = missing else {
            return;
        };
        let news = GapNews {
            second,
            venue: self.venue,
            change,
            missing,
        };
        write_gap_news(names, &news, errors);
    }

    /// Says what is new of the gap that stands.
    fn tell<E: TextOut>(
        &mut self,
        names: &VenueNames,
        now_ms: u64,
        status: &VenueStatus,
        errors: &mut E,
    )
        ensures watch { self.new ≡ record (self.old) {
          told = self.new.told;
          has_told_unanswered = self.new.has_told_unanswered;
        } }
        ensures tells { TellsStanding (writing_of E.TextOut) names.now self.old
            now_ms status.now errors.old errors.new }
        ensures told { self.new.told
            ≡ told_then (told_still self.old.told status.now.cursors.front)
            (lacking_of (told_still self.old.told status.now.cursors.front)
            (stood_of self.old.standing now_ms) status.now.gap) }
        ensures unanswered { self.new.has_told_unanswered
            ≡ said_then self.old.has_told_unanswered
            (unanswered_of self.old.has_told_unanswered self.old.standing now_ms
            status.now.requests status.now.gap) }
    {
        let second = now_ms / 1_000;
        let closed = closed_range(self.told, status.cursors.front);
        let told = told_still(self.told, status.cursors.front);
        let lacking = lacking_of(told, stood_of(self.standing, now_ms), &status.gap);
        let has_told = self.has_told_unanswered;
        let unanswered = unanswered_of(has_told, self.standing, now_ms, status);
        self.say(names, second, GapChange::Closed, closed, errors);
        self.say(names, second, GapChange::Lacking, lacking, errors);
        self.say(names, second, GapChange::Unanswered, unanswered, errors);
        self.told = told_then(told, lacking);
        self.has_told_unanswered = said_then(has_told, unanswered);
    }

    /// What is to be given up now of the gap that stands, if anything is.
    fn due(&self, rule: &GapRule, now_ms: u64, status: &VenueStatus) -> Option<MissingRange>
        ensures { result ≡ due_of rule.now (stood_of self.now.standing now_ms)
            status.now.cursors status.now.gap }
    {
        let Some(gap) = &status.gap else {
            return None;
        };
        let stood_ms = stood_of(self.standing, now_ms);
        if !rule.is_due(stood_ms) {
            return None;
        }
        Some(MissingRange {
            first: gap.number,
            count: due_count(&status.cursors, gap),
        })
    }

    /// Notes that these messages were given up, of which nothing more is to be told then.
    fn pass(&mut self, missing: &MissingRange)
        ensures { self.new ≡ given_up_in self.old missing.now }
    {
        self.told = None;
        self.given_up = self.given_up.saturating_add(missing.count);
    }

    /// Notes that the venue has given up these messages by itself, and says it. Nothing more is to
    /// be told of them then.
    pub fn note_given_up<E: TextOut>(
        &mut self,
        names: &VenueNames,
        second: u64,
        missing: MissingRange,
        errors: &mut E,
    )
        ensures watch { self.new ≡ given_up_in self.old missing }
        ensures tells { SaysEach (writing_of E.TextOut)
            (gap_texts_if names.now second self.old.venue GapChange.GivenUp (Some missing))
            errors.old errors.new }
    {
        self.pass(&missing);
        self.say(names, second, GapChange::GivenUp, Some(missing), errors);
    }

    /// Gives up what is due, where `skip` does so, and says it then. `skip` goes on from a message
    /// of a venue, and returns whether it did.
    fn give_up_due<K, E>(
        &mut self,
        names: &VenueNames,
        due: MissingRange,
        second: u64,
        skip: K,
        errors: &mut E,
    )
    where
        K: Fn(VenueId, u64) -> bool,
        E: TextOut,
        requires { K.IsAlwaysCallable skip }
        ensures venue { self.new.venue ≡ self.old.venue }
        ensures tells { TellsIfDone (writing_of E.TextOut) names.now
            (K.post skip self.old.venue (next_after due)) (news_of second self.old.venue due)
            errors.old errors.new }
    {
        if skip(self.venue, next_after(&due)) {
            self.note_given_up(names, second, due, errors);
        }
    }

    /// Gives up what is due of the gap that stands, and says it.
    fn give_up<K, E>(
        &mut self,
        names: &VenueNames,
        rule: &GapRule,
        now_ms: u64,
        status: &VenueStatus,
        skip: K,
        errors: &mut E,
    )
    where
        K: Fn(VenueId, u64) -> bool,
        E: TextOut,
        requires { K.IsAlwaysCallable skip }
        ensures venue { self.new.venue ≡ self.old.venue }
        ensures gives { GivesUpDue (writing_of E.TextOut) names.now
            (K.post skip self.old.venue) rule.now self.old now_ms status.now errors.old errors.new }
    {
        let Some(due) = self.due(rule, now_ms, status) else {
            return;
        };
        self.give_up_due(names, due, now_ms / 1_000, skip, errors);
    }

    /// What was given up since the last look where sessions were joined, if anything was.
    fn joined(&self, rule: &GapRule, status: &VenueStatus) -> Option<MissingRange>
        ensures { result ≡ joined_range rule.now self.now status.now }
    {
        if !rule.join || status.before_join <= self.before_join {
            return None;
        }
        Some(MissingRange {
            first: 1,
            count: status.before_join - self.before_join,
        })
    }

    /// Says what was given up since the last look where sessions were joined.
    fn tell_joins<E: TextOut>(
        &mut self,
        names: &VenueNames,
        rule: &GapRule,
        now_ms: u64,
        status: &VenueStatus,
        errors: &mut E,
    )
        ensures watch { self.new ≡ after_joins rule.now self.old status.now }
        ensures tells { SaysEach (writing_of E.TextOut)
            (gap_texts_if names.now (now_ms / 1000) self.old.venue GapChange.GivenUp
            (joined_range rule.now self.old status.now)) errors.old errors.new }
    {
        let joined = self.joined(rule, status);
        self.say(names, now_ms / 1_000, GapChange::GivenUp, joined, errors);
        self.before_join = status.before_join;
        self.given_up = self.given_up.saturating_add(range_count(joined));
    }

    /// Says which session has begun since the last look, if one has. The one before is over, so
    /// what was told to be lacking of it has come, and no gap of it stands.
    fn tell_session<E: TextOut>(
        &mut self,
        names: &VenueNames,
        now_ms: u64,
        status: &VenueStatus,
        errors: &mut E,
    )
        ensures watch { self.new ≡ watch_begun self.old status.now }
        ensures tells { SaysOfSession (writing_of E.TextOut) names.now self.old
            now_ms status.now errors.old errors.new }
    {
        if status.ordinal <= self.ordinal {
            return;
        }
        let second = now_ms / 1_000;
        self.say(names, second, GapChange::Closed, self.told, errors);
        let news = SessionNews {
            second,
            venue: self.venue,
            session: status.session,
            missed: status.ordinal - self.ordinal - 1,
        };
        self.told = None;
        self.standing = None;
        self.ordinal = status.ordinal;
        write_session_news(names, &news, errors);
    }

    /// Looks at the venue, by the status that `status` returns: says what was given up where a
    /// session was joined, and what is new of its gap, and gives up what is due of it, where `skip`
    /// does so.
    pub fn look<S, K, E>(
        &mut self,
        names: &VenueNames,
        rule: &GapRule,
        now_ms: u64,
        status: S,
        skip: K,
        errors: &mut E,
    )
    where
        S: Fn(VenueId) -> Option<VenueStatus>,
        K: Fn(VenueId, u64) -> bool,
        E: TextOut,
        requires status { S.IsAlwaysCallable status }
        requires skip { K.IsAlwaysCallable skip }
        ensures venue { self.new.venue ≡ self.old.venue }
        ensures looks { LooksAt (writing_of E.TextOut) names.now
            (S.post status self.old.venue) (K.post skip self.old.venue) rule.now self.old now_ms
            errors.old errors.new }
    {
        let Some(status) = status(self.venue) else {
            return;
        };
        self.tell_session(names, now_ms, &status, errors);
        self.stand(now_ms, &status);
        self.tell_joins(names, rule, now_ms, &status, errors);
        self.tell(names, now_ms, &status, errors);
        self.give_up(names, rule, now_ms, &status, skip, errors);
    }
}
