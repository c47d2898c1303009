//! Addresses as texts, and their order.
ghost use Rattle.std.specs.Prelude.{◌≡◌, ◌++◌, IfOk, OnOk, string_bytes};
ghost use Rattle.line_discovery.specs.Places.{is_lower_place, is_lower_address, place_text};
ghost use Rattle.line_discovery.specs.SurveyTexts.{place_cell};

use crate::line_key::LineKey;
use packet_capture::Address;
use std::alloc::{AllocError, Global};
use std::net::{Ipv4Addr, Ipv6Addr, SocketAddrV4, SocketAddrV6};
use text_out::spaces;

/// Returns an address and port as `--lines` takes them. Fails where memory is refused.
pub(crate) fn place_text(alloc: Global, address: Address, port: u16) -> Result<String, AllocError>
    ensures { IfOk result (λ text. string_bytes text ≡ place_text address port) }
{
    match address {
        Address::V4(octets) => {
            SocketAddrV4::new(Ipv4Addr::from_octets(octets), port).to_string(alloc)
        }
        Address::V6(octets) => {
            SocketAddrV6::new(Ipv6Addr::from_octets(octets), port, 0, 0).to_string(alloc)
        }
    }
}

/// Appends the address and port of a key, and spaces up to this many columns.
pub(crate) fn put_place(
    alloc: Global,
    text: &mut Vec<u8>,
    columns: usize,
    key: &LineKey,
) -> Result<(), AllocError>
    ensures { OnOk result (text.new.items ≡ text.old.items ++ place_cell columns key.now) }
{
    let place = place_text(alloc, key.address, key.port)?;
    let bytes = place.as_bytes();
    text.extend_from_slice(bytes)?;
    text.extend_from_slice(spaces(columns.saturating_sub(bytes.len())))
}

/// Returns whether an address comes before another by its bytes. All of IPv4 come before those of
/// IPv6.
fn is_lower_address(one: &Address, other: &Address) -> bool
    ensures { result ≡ is_lower_address one.now other.now }
{
    match (one, other) {
        (Address::V4(one), Address::V4(other)) => {
            u32::from_be_bytes(*one) < u32::from_be_bytes(*other)
        }
        (Address::V4(_), Address::V6(_)) => true,
        (Address::V6(_), Address::V4(_)) => false,
        (Address::V6(one), Address::V6(other)) => {
            u128::from_be_bytes(*one) < u128::from_be_bytes(*other)
        }
    }
}

/// Returns whether a line comes before another by its address, and at the same one by its port.
pub(crate) fn is_lower_place(one: &LineKey, other: &LineKey) -> bool
    ensures { result ≡ is_lower_place one.now other.now }
{
    is_lower_address(&one.address, &other.address)
        || (!is_lower_address(&other.address, &one.address) && one.port < other.port)
}
