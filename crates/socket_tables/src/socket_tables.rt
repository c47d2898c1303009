//! The system's tables of UDP sockets, which say how many datagrams it has dropped at each, for
//! want of room in the socket's buffer or since they were damaged, and of multicast groups.

use crate::drop_table::DropTable;
use crate::group_table::GroupTable;
use std::alloc::{AllocError, Global};
use std::fs::File;
use std::io::{Read, Seek, SeekFrom};
use std::rt::Files;

/// The table of sockets of version four of IP.
const FOUR: &str = "/proc/net/udp";

/// And of version six.
const SIX: &str = "/proc/net/udp6";

/// The table of the groups of version four that the machine has joined.
const GROUPS_OF_FOUR: &str = "/proc/net/igmp";

/// And of version six.
const GROUPS_OF_SIX: &str = "/proc/net/igmp6";

/// The number of bytes that one read takes at most.
const PIECE: usize = 4_096;

/// The most reads of a table: what is past 16 MiB is left alone.
const MOST_READS: u32 = 4_096;

/// The system's tables of UDP sockets and of multicast groups, those that it has.
#[derive(Drop)]
pub struct SocketTables {
    alloc: Global,
    four: Option<File>,
    six: Option<File>,
    groups_of_four: Option<File>,
    groups_of_six: Option<File>,
}

/// Reads a table from its beginning. One that can't be read has no rows.
fn read_table(alloc: Global, table: &File) -> Result<Vec<u8>, AllocError> {
    let mut rows = Vec::new(alloc);
    let mut reader = table;
    if reader.seek(SeekFrom::Start(0)).is_err() {
        return Ok(rows);
    }
    let mut piece = [0; PIECE];
    for _ in 0..MOST_READS {
        match reader.read(&mut piece) {
            Ok(0) | Err(_) => break,
            Ok(count) => rows.extend_from_slice(&piece[..count])?,
        }
    }
    Ok(rows)
}

/// Reads a table, if there is one; else, and where memory is refused, it has no rows.
fn rows_of(alloc: Global, table: &Option<File>) -> Vec<u8> {
    match table {
        Some(table) => read_table(alloc, table).unwrap_or(Vec::new(alloc)),
        None => Vec::new(alloc),
    }
}

impl SocketTables {
    /// No tables.
    pub fn none(alloc: Global) -> SocketTables {
        SocketTables {
            alloc,
            four: None,
            six: None,
            groups_of_four: None,
            groups_of_six: None,
        }
    }

    /// Opens the tables that the system has.
    pub fn open<R: Files<File = File>>(files: &R, alloc: Global) -> SocketTables {
        SocketTables {
            alloc,
            four: File::open(files, FOUR).ok(),
            six: File::open(files, SIX).ok(),
            groups_of_four: File::open(files, GROUPS_OF_FOUR).ok(),
            groups_of_six: File::open(files, GROUPS_OF_SIX).ok(),
        }
    }

    /// Reads the tables of groups as they stand.
    pub fn groups(&self) -> GroupTable {
        GroupTable::of(
            self.alloc,
            rows_of(self.alloc, &self.groups_of_four),
            rows_of(self.alloc, &self.groups_of_six),
        )
    }

    /// Reads the tables of sockets as they stand.
    pub fn read(&self) -> DropTable {
        DropTable::of(
            self.alloc,
            rows_of(self.alloc, &self.four),
            rows_of(self.alloc, &self.six),
        )
    }
}
