//! Further options of `nbbo listen`, and what follows from them where it isn't said.
ghost use Rattle.std.specs.Prelude.{◌≡◌, unwrap_or};
ghost use Rattle.run_settings.specs.FurtherOptions.{has_further_options, most_lead, request_wait, silence_limit};

use crate::listen_settings::ListenSettings;

/// For how many milliseconds a gap stands before its messages are asked for, with a further option.
pub const USUAL_WAIT: u32 = 10;

/// How many messages past what the lines have brought a number may be, with a further option.
pub const USUAL_LEAD: u32 = 1_000_000;

/// After how many milliseconds a line that brings nothing is reported, with a further option.
pub const USUAL_SILENCE: u32 = 3_000;

/// The number that is said, or the usual one.
fn said_or(said: Option<u32>, usual: u32) -> u32
    ensures { result ≡ unwrap_or said usual }
{
    match said {
        Some(number) => number,
        None => usual,
    }
}

impl ListenSettings {
    /// Returns whether there is an option beside those that say what is listened to, how much of it
    /// is read and kept, and where requests go: who gives one is told more.
    pub fn has_further_options(&self) -> bool
        ensures { result ≡ has_further_options self.now }
    {
        let ends = self.seconds.is_some() || self.until_input_ends || self.complete;
        let gives_up = self.join || self.skip_after.is_some();
        let prints = self.follow || self.stats.is_some() || self.metrics.is_some();
        let chooses = self.senders.are_named() || self.end.passes_ends();
        let records = !self.next.is_empty() || self.record.is_some();
        let reads = !self.itch.venues.is_empty();
        let waits = self.request_after.is_some() || self.silent_after.is_some();
        let limits = self.most_ahead.is_some() || self.buffer.is_some();
        ends || gives_up || prints || chooses || records || reads || waits || limits
    }

    /// Returns for how many milliseconds a gap stands before its messages are asked for: as many as
    /// is said, else 10 with a further option, and 0 without one.
    pub fn request_wait(&self) -> u32
        ensures { result ≡ request_wait self.now }
    {
        let usual = if self.has_further_options() {
            USUAL_WAIT
        } else {
            0
        };
        said_or(self.request_after, usual)
    }

    /// Returns how many messages past the highest number that the lines of its venue have brought a
    /// packet's number may be: as many as is said, else 1,000,000 with a further option. `None`
    /// without one, where each number is taken.
    pub fn most_lead(&self) -> Option<u64>
        ensures { result ≡ most_lead self.now }
    {
        if !self.has_further_options() {
            return None;
        }
        Some(u64::from(said_or(self.most_ahead, USUAL_LEAD)))
    }

    /// Returns after how many milliseconds a line that brings nothing is reported: as many as is
    /// said, else 3,000 with a further option. `None` without one, where none is reported.
    pub fn silence_limit(&self) -> Option<u32>
        ensures { result ≡ silence_limit self.now }
    {
        if !self.has_further_options() {
            return None;
        }
        Some(said_or(self.silent_after, USUAL_SILENCE))
    }
}
