//! Which ends of session end a line that is listened to.
ghost use Rattle.std.specs.Prelude.{◌≡◌};
ghost use Rattle.run_settings.specs.FurtherOptions.{passes_ends};

/// Which ends of session end a line.
#[derive(Clone, Copy, Debug, PartialEq, Eq)]
pub enum EndRule {
    /// An end of any session.
    AnySession,
    /// An end of the venue's own session, and of no other one.
    OwnSession,
    /// None.
    NoSession,
}

impl EndRule {
    /// Whether a line goes on after an end of some session.
    pub fn passes_ends(self) -> bool
        ensures { result ≡ passes_ends self }
    {
        match self {
            EndRule::AnySession => false,
            EndRule::OwnSession | EndRule::NoSession => true,
        }
    }
}
