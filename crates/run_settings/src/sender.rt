//! The senders whose datagrams are taken.
ghost use Rattle.std.specs.Prelude.{◌≡◌, ◌↔◌, IfOk, IsTrue, false, true};
ghost use Rattle.run_settings.specs.Senders.{HasSender, IsMappedFrom, IsOfSender, IsSameMachine, IsTakenFrom, are_named, senders_of};

use std::alloc::{AllocError, Global};
use std::net::{IpAddr, Ipv4Addr, Ipv6Addr, SocketAddr};

/// Returns whether an address of version 6 of IP is this one of version 4, mapped.
fn is_mapped(address: Ipv4Addr, mapped: Ipv6Addr) -> bool
    ensures { IsTrue result ↔ IsMappedFrom address mapped }
{
    match mapped.to_ipv4_mapped() {
        Some(ip) => ip.octets() == address.octets(),
        None => false,
    }
}

/// Returns whether the addresses are one machine's: the same, or one of version 4 of IP and the
/// other one the same mapped, as a socket shows it that receives both versions.
fn is_same_machine(one: IpAddr, other: IpAddr) -> bool
    ensures { IsTrue result ↔ IsSameMachine one other }
{
    match (one, other) {
        (IpAddr::V4(one), IpAddr::V6(other)) => is_mapped(one, other),
        (IpAddr::V6(one), IpAddr::V4(other)) => is_mapped(other, one),
        (one, other) => one == other,
    }
}

/// A sender of datagrams: a machine, with whichever port it sends from, or with one.
#[derive(Clone, Copy, Debug, PartialEq, Eq)]
pub struct AllowedSender {
    /// The machine's address.
    pub address: IpAddr,
    /// The port, where only what comes from one is the sender's.
    pub port: Option<u16>,
}

impl AllowedSender {
    /// Whether what comes from this address is the sender's.
    fn is_at(&self, from: &SocketAddr) -> bool
        ensures { IsTrue result ↔ IsOfSender self.now from.now }
    {
        let is_port = match self.port {
            Some(port) => port == from.port(),
            None => true,
        };
        is_port && is_same_machine(self.address, from.ip())
    }
}

/// Whether what comes from this address is of one of the senders.
fn has_sender(senders: &[AllowedSender], from: &SocketAddr) -> bool
    ensures found { result ≡ true → HasSender senders.now from.now }
    ensures not_found { result ≡ false → HasSender senders.now from.now → ⊥ }
{
    for sender in senders {
        if sender.is_at(from) {
            return true;
        }
    }
    false
}

/// The senders whose datagrams are taken.
#[derive(Debug, Drop)]
pub enum Senders {
    /// Any.
    Any,
    /// These alone.
    These(Vec<AllowedSender>),
}

impl Senders {
    /// Returns whether a datagram that comes from this address is taken.
    pub fn takes_from(&self, from: &SocketAddr) -> bool
        ensures { IsTrue result ↔ IsTakenFrom (senders_of self.now) from.now }
    {
        match self {
            Senders::Any => true,
            Senders::These(senders) => has_sender(senders.as_slice(), from),
        }
    }

    /// Returns whether senders are named.
    pub fn are_named(&self) -> bool
        ensures { result ≡ are_named self.now }
    {
        match self {
            Senders::Any => false,
            Senders::These(_) => true,
        }
    }

    /// Returns the same senders once more. AllocError where memory for them is refused.
    pub fn copied(&self, alloc: Global) -> Result<Senders, AllocError>
        ensures { IfOk result (λ copy. senders_of copy ≡ senders_of self.now) }
    {
        match self {
            Senders::Any => Ok(Senders::Any),
            Senders::These(senders) => {
                let mut copy = Vec::with_capacity(alloc, senders.len())?;
                copy.extend_from_slice(senders.as_slice())?;
                Ok(Senders::These(copy))
            }
        }
    }
}
