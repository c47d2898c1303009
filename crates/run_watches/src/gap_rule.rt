//! Which gaps of a run's venues are given up.
ghost use Rattle.std.specs.Prelude.{◌≡◌};
ghost use Rattle.run_watches.specs.Gaps.{gives_up, has_stood, rule_of};

use run_settings::ListenSettings;

/// Which gaps of a run's venues are given up while it goes on.
#[derive(Clone, Copy, Debug, PartialEq, Eq)]
pub struct GapRule {
    /// Whether those are before the first packet of a session: its venue's lock gives them up, and
    /// they are told here.
    pub join: bool,
    /// After how many milliseconds the others are, if after any number.
    pub after_ms: Option<u32>,
}

/// Whether a gap that has stood for so long has stood long enough.
fn has_stood(after_ms: Option<u32>, stood_ms: u64) -> bool
    ensures { result ≡ has_stood after_ms stood_ms }
{
    match after_ms {
        Some(after_ms) => u64::from(after_ms) <= stood_ms,
        None => false,
    }
}

impl GapRule {
    /// The rule of the settings.
    pub fn of(settings: &ListenSettings) -> GapRule
        ensures { result ≡ rule_of settings.now }
    {
        GapRule {
            join: settings.join,
            after_ms: settings.skip_after,
        }
    }

    /// Whether any gap is given up.
    pub fn gives_up(&self) -> bool
        ensures { result ≡ gives_up self.now }
    {
        self.join || self.after_ms.is_some()
    }

    /// Whether a gap is to be given up that has stood for so long since it was seen first.
    pub fn is_due(&self, stood_ms: u64) -> bool
        ensures { result ≡ has_stood self.now.after_ms stood_ms }
    {
        has_stood(self.after_ms, stood_ms)
    }
}
