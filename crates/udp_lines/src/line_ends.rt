//! Datagrams that are ends of session, and which of them end a line.
ghost use Rattle.std.specs.Prelude.{◌≡◌, ◌≤◌, ◌↔◌, IfSome, IsTrue, List, Some, length, ℕ};
ghost use Rattle.mold_packet.specs.Header.{count_at};
ghost use Rattle.udp_lines.specs.EndsOfSessions.{SpellsEndOf};
ghost use Rattle.udp_lines.specs.UdpLines.{IsLast};

use feed_types::SessionName;
use mold_packet::{END_COUNT, HEADER_LEN, Kind, one_reading, read_packet};
use run_settings::EndRule;

/// The count of a packet of these bytes, in the last two bytes of its header.
fn count_of(bytes: &[u8]) -> u16
    requires { 20 ≤ length bytes.now }
    ensures { result ≡ count_at bytes.now }
{
    u16::from_be_bytes([bytes[18], bytes[19]])
}

/// The session that the bytes are an end of; None where they are no end of session. Bytes without
/// the count of ends are read no further.
pub(crate) fn ended_session(bytes: &[u8]) -> Option<SessionName>
    ensures end { IfSome result (λ session. SpellsEndOf session bytes.now) }
    ensures only { (session : List ℕ) → SpellsEndOf session bytes.now → result ≡ Some session }
{
    if bytes.len() < HEADER_LEN || count_of(bytes) != END_COUNT {
        return None;
    }
    one_reading();
    match read_packet(bytes) {
        Ok(packet) => {
            if packet.kind() == Kind::End {
                Some(packet.session())
            } else {
                None
            }
        }
        Err(_) => None,
    }
}

/// Whether a datagram ends a line of this session by the rule; `ended` is the session that it is an
/// end of, if it is an end of session.
pub(crate) fn is_last(rule: EndRule, session: SessionName, ended: Option<SessionName>) -> bool
    ensures { IsTrue result ↔ IsLast rule session ended }
{
    match rule {
        EndRule::AnySession => ended.is_some(),
        EndRule::OwnSession => ended == Some(session),
        EndRule::NoSession => false,
    }
}
