//! What the system has dropped at its UDP sockets, by its own tables.
//!
//! A table has a row for each socket. The second field of a row is the socket's own address: the
//! words of the IP address, each with 8 hexadecimal digits as the machine has it in memory, a colon
//! and the port with 4. The last field is how many datagrams were dropped.

use std::alloc::{AllocError, Global};
use std::net::{Ipv4Addr, Ipv6Addr, SocketAddr};

/// The rows of the tables of sockets of both versions of IP.
#[derive(Drop)]
pub struct DropTable {
    alloc: Global,
    four: Vec<u8>,
    six: Vec<u8>,
}

/// The word of four bytes as a table has it.
fn word_text(alloc: Global, bytes: [u8; 4]) -> Result<String, AllocError> {
    let word = u32::from_ne_bytes(bytes);
    format!(in alloc; "{word:08X}")
}

/// The address of version four as a table has it.
fn text_of_four(alloc: Global, ip: Ipv4Addr, port: u16) -> Result<String, AllocError> {
    let word = word_text(alloc, ip.octets())?;
    format!(in alloc; "{}:{port:04X}", word.as_str())
}

/// The address of version six as a table has it.
fn text_of_six(alloc: Global, ip: Ipv6Addr, port: u16) -> Result<String, AllocError> {
    let o = ip.octets();
    let mut text = String::new(alloc);
    for word in [
        [o[0], o[1], o[2], o[3]],
        [o[4], o[5], o[6], o[7]],
        [o[8], o[9], o[10], o[11]],
        [o[12], o[13], o[14], o[15]],
    ] {
        text.push_str(word_text(alloc, word)?.as_str())?;
    }
    text.push_str(format!(in alloc; ":{port:04X}")?.as_str())?;
    Ok(text)
}

/// The second of a row's fields, which stand between spaces, if it has one.
fn second_field(row: &[u8]) -> Option<&[u8]> {
    let mut has_first = false;
    for field in row.split(|byte| *byte == b' ') {
        if !field.is_empty() {
            if has_first {
                return Some(field);
            }
            has_first = true;
        }
    }
    None
}

/// The last of a row's fields, if it has any.
fn last_field(row: &[u8]) -> Option<&[u8]> {
    let mut last = None;
    for field in row.split(|byte| *byte == b' ') {
        if !field.is_empty() {
            last = Some(field);
        }
    }
    last
}

/// The number that these digits are, if they are any.
fn number_of(digits: &[u8]) -> Option<u64> {
    let mut number: u64 = 0;
    for digit in digits {
        let value = digit.checked_sub(b'0')?;
        if value > 9 {
            return None;
        }
        number = number.checked_mul(10)?.checked_add(u64::from(value))?;
    }
    Some(number)
}

/// How many datagrams were dropped at the socket at this address, by the table, if it has it.
fn drops_in(table: &[u8], local: &[u8]) -> Option<u64> {
    for row in table.split(|byte| *byte == b'\n') {
        if second_field(row) == Some(local) {
            return number_of(last_field(row)?);
        }
    }
    None
}

impl DropTable {
    /// These rows.
    pub fn of(alloc: Global, four: Vec<u8>, six: Vec<u8>) -> DropTable {
        DropTable { alloc, four, six }
    }

    /// How many datagrams were dropped at the socket at this address; None where the system doesn't
    /// say, or memory is refused.
    pub fn drops_at(&self, address: SocketAddr) -> Option<u64> {
        let (table, text) = match address {
            SocketAddr::V4(at) => (&self.four, text_of_four(self.alloc, *at.ip(), at.port())),
            SocketAddr::V6(at) => (&self.six, text_of_six(self.alloc, *at.ip(), at.port())),
        };
        match text {
            Ok(text) => drops_in(table.as_slice(), text.as_bytes()),
            Err(_) => None,
        }
    }
}
