//! The system's tables of UDP sockets and of multicast groups, as Linux has them under `/proc/net`.
//!
//! [`SocketTables`] are read as they stand: a [`DropTable`] has how many datagrams the system has
//! dropped at each socket, a [`GroupTable`] which groups the machine has joined.
//!
//! Contract: none, but that every call returns and reads 16 MiB of a table at most. How rows are
//! read, tests show.
//!
//! Begin with `socket_tables.rt`.
#![tactic(auto)]

mod drop_table;
mod group_table;
mod socket_tables;

pub use drop_table::DropTable;
pub use group_table::GroupTable;
pub use socket_tables::SocketTables;
