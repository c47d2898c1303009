//! The address and port that a datagram goes to.

/// An address of IPv4, of a machine or of a group, and a UDP port.
#[derive(Clone, Copy, Debug, PartialEq, Eq)]
pub struct Destination {
    /// The bytes of the address, in the order of a packet.
    pub address: [u8; 4],
    pub port: u16,
}
