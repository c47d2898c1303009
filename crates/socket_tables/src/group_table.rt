//! Which multicast groups the machine has joined, by the system's own tables.
//!
//! The table of version four of IP has a row for each group, with the group's address in 8
//! hexadecimal digits, as the machine has it in memory. That of version six has the address in 32
//! digits, from the first byte on.

use std::alloc::{AllocError, Global};
use std::net::{IpAddr, Ipv4Addr, Ipv6Addr, SocketAddr};

/// The rows of the tables of groups of both versions of IP.
#[derive(Drop)]
pub struct GroupTable {
    alloc: Global,
    four: Vec<u8>,
    six: Vec<u8>,
}

/// The group as the table of version four has it.
fn text_of_four(alloc: Global, group: Ipv4Addr) -> Result<String, AllocError> {
    let word = u32::from_ne_bytes(group.octets());
    format!(in alloc; "{word:08X}")
}

/// The group as the table of version six has it.
fn text_of_six(alloc: Global, group: Ipv6Addr) -> Result<String, AllocError> {
    let mut text = String::new(alloc);
    for byte in group.octets() {
        text.push_str(format!(in alloc; "{byte:02x}")?.as_str())?;
    }
    Ok(text)
}

/// Whether a row has this field, between spaces or tabs.
fn has_field(row: &[u8], wanted: &[u8]) -> bool {
    for field in row.split(|byte| *byte == b' ' || *byte == b'\t') {
        if field == wanted {
            return true;
        }
    }
    false
}

/// Whether the table has a row with this field.
fn has_row(table: &[u8], wanted: &[u8]) -> bool {
    for row in table.split(|byte| *byte == b'\n') {
        if has_field(row, wanted) {
            return true;
        }
    }
    false
}

impl GroupTable {
    /// These rows.
    pub fn of(alloc: Global, four: Vec<u8>, six: Vec<u8>) -> GroupTable {
        GroupTable { alloc, four, six }
    }

    /// Whether the address is that of a group that the tables don't have. It isn't where a table
    /// can't be read or memory is refused.
    pub fn lacks(&self, address: SocketAddr) -> bool {
        if !address.ip().is_multicast() {
            return false;
        }
        let (table, text) = match address.ip() {
            IpAddr::V4(group) => (&self.four, text_of_four(self.alloc, group)),
            IpAddr::V6(group) => (&self.six, text_of_six(self.alloc, group)),
        };
        match text {
            Ok(text) => !table.is_empty() && !has_row(table.as_slice(), text.as_bytes()),
            Err(_) => false,
        }
    }
}
