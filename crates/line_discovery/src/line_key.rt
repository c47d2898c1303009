//! The key of a line in a capture.
ghost use Rattle.std.specs.Prelude.{◌≡◌, IsTrue, ◌↔◌};
ghost use Rattle.line_discovery.specs.Keys.{same_key, same_session};

use feed_types::SessionName;
use packet_capture::Address;

/// A line as a capture shows it: where its datagrams go, and their session.
#[derive(Clone, Copy, Debug, PartialEq, Eq, Hash)]
pub struct LineKey {
    /// The address of one machine or of a group.
    pub address: Address,
    /// The port.
    pub port: u16,
    /// The session of the packets, or `None` of datagrams that are no packets.
    pub session: Option<SessionName>,
}

/// Whether the keys are equal.
fn are_equal(one: &LineKey, other: &LineKey) -> bool
    ensures { IsTrue result ↔ (one.now ≡ other.now) }
{
    one == other
}

/// Whether the sessions are equal.
fn are_equal_sessions(one: &Option<SessionName>, other: &Option<SessionName>) -> bool
    ensures { IsTrue result ↔ (one.now ≡ other.now) }
{
    one == other
}

/// Whether the sessions are the same.
pub(crate) fn is_same_session(one: &Option<SessionName>, other: &Option<SessionName>) -> bool
    ensures { result ≡ same_session one.now other.now }
{
    are_equal_sessions(one, other)
}

/// Whether the keys are the same.
pub(crate) fn is_same(one: &LineKey, other: &LineKey) -> bool
    ensures { result ≡ same_key one.now other.now }
{
    are_equal(one, other)
}
