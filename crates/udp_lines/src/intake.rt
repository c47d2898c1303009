//! What a line makes of what its socket brings.
ghost use Rattle.std.specs.Prelude.{◌≡◌, ◌≤◌, IsTrue, Some, is_some, length, take, true, vec_capacity};
ghost use Rattle.std.specs.declared.net.socket_addr.SocketAddr.{SocketAddr};
ghost use Rattle.run_settings.specs.Senders.{IsTakenFrom, senders_of};
ghost use Rattle.udp_lines.specs.Brought.{HasMet, one_counted, counted_with, listed, nothing_kept, withheld_of};
ghost use Rattle.udp_lines.specs.Sockets.{HearsFrom};
ghost use Rattle.udp_lines.specs.UdpLines.{held_in, kept_in, sorting_by, waiting_in};

use crate::datagram_in::DatagramIn;
use crate::line_ends::ended_session;
use crate::line_socket::{LineSocket, Received, datagram_of, try_receive, with_room};
use crate::number_check::{NumberCheck, Verdict};
use std::alloc::Global;
use std::mem;
use venue_lines::{Datagram, SourceFault};

/// A line's socket, and what the line makes of what that brings.
#[derive(Drop)]
pub(crate) struct Intake<S> {
    pub(crate) line_socket: LineSocket<S>,
    pub(crate) check: NumberCheck,
    /// A datagram that waits until it is confirmed.
    pub(crate) held: Option<Datagram>,
    /// How many datagrams of other senders were passed over.
    pub(crate) foreign: u64,
    /// How many datagrams of the senders were withheld.
    pub(crate) withheld: u64,
    /// Whether a datagram of the senders has come since that was asked last.
    pub(crate) has_heard: bool,
    pub(crate) alloc: Global,
    /// The memory of a datagram that came back, for the next one.
    pub(crate) used: Vec<u8>,
}

impl<S: Drop> Intake<S> {
    /// The intake over this socket, which has brought nothing.
    pub(crate) fn new(alloc: Global, line_socket: LineSocket<S>, check: NumberCheck) -> Intake<S>
        ensures socket { result.line_socket ≡ line_socket }
        ensures check { result.check ≡ check }
        ensures kept { kept_in result ≡ record nothing_kept { highest = check.highest } }
    {
        Intake {
            line_socket,
            check,
            held: None,
            foreign: 0,
            withheld: 0,
            has_heard: false,
            alloc,
            used: Vec::new(alloc),
        }
    }

    /// How many datagrams of the senders were read and not handed on.
    pub(crate) fn withheld_so_far(&self) -> u64
        ensures { result ≡ withheld_of (kept_in self.now) }
    {
        if self.held.is_some() {
            self.withheld.saturating_add(1)
        } else {
            self.withheld
        }
    }
}

impl<S: DatagramIn> Intake<S> {
    /// Counts a datagram that is withheld.
    fn withhold(&mut self)
        ensures { self.new ≡ record (self.old) { withheld = one_counted self.old.withheld } }
    {
        self.withheld = self.withheld.saturating_add(1);
    }

    /// Holds this datagram in place of the one before, which is withheld then.
    fn hold(&mut self, datagram: Datagram)
        ensures { self.new ≡ record (self.old) {
          held = Some datagram;
          withheld = counted_with (held_in self.old.held) self.old.withheld;
        } }
    {
        if self.held.is_some() {
            self.withhold();
        }
        self.held = Some(datagram);
    }

    /// Holds this datagram in place of the one before, and returns that.
    fn exchange(&mut self, datagram: Datagram) -> Option<Datagram>
        ensures first { held_in result ≡ held_in self.old.held }
        ensures rest { self.new ≡ record (self.old) { held = Some datagram } }
    {
        mem::replace(&mut self.held, Some(datagram))
    }

    /// Whether a datagram is held that is handed on by now.
    fn is_confirmed(&self) -> bool
        ensures { result ≡ true → IsTrue (is_some (held_in self.now.held)) }
    {
        self.held.is_some() && self.check.is_confirmed(self.check.seen())
    }

    /// Returns the datagram that is held.
    #[tactic(auto, using(crate::proofs::Meeting::released))]
    fn release(&mut self) -> Option<Result<Datagram, SourceFault>>
        requires { IsTrue (is_some (held_in self.old.held)) }
        ensures met { HasMet S.brings S.waits (sorting_by self.old) self.old.line_socket.socket
            (kept_in self.old) (waiting_in result) self.new.line_socket.socket
            (kept_in self.new) }
        ensures rule { sorting_by self.new ≡ sorting_by self.old }
    {
        self.check.bring_held();
        match self.held.take() {
            Some(datagram) => Some(Ok(datagram)),
            None => None,
        }
    }

    /// Returns the datagram of one of the senders that is the first `count` bytes of the buffer, in
    /// this memory, unless it is withheld or held.
    fn sort(&mut self, memory: Vec<u8>, count: usize) -> Option<Datagram>
        requires count { count ≤ length self.old.line_socket.buffer.items }
        requires room { count ≤ vec_capacity memory }
        ensures met { (before : S) (sender : SocketAddr)
            → HearsFrom S.brings S.waits before sender
            (take count self.old.line_socket.buffer.items) self.old.line_socket.socket
            → IsTakenFrom (senders_of self.old.line_socket.senders) sender
            → HasMet S.brings S.waits (sorting_by self.old) before (kept_in self.old)
            (listed (held_in result)) self.new.line_socket.socket (kept_in self.new) }
        ensures rule { sorting_by self.new ≡ sorting_by self.old }
    {
        let bytes = &self.line_socket.buffer[..count];
        let ended = ended_session(bytes);
        let seen = self.check.seen();
        match self.check.judge(bytes, ended, seen) {
            Verdict::Plausible => return Some(datagram_of(memory, bytes)),
            Verdict::Second => {
                let second = datagram_of(memory, bytes);
                return self.exchange(second);
            }
            Verdict::First => {
                let first = datagram_of(memory, bytes);
                self.hold(first);
            }
            Verdict::Unconfirmed => {
                let end = datagram_of(memory, bytes);
                self.hold(end);
            }
            Verdict::TooFar => {
                self.withhold();
                self.check.progress.count_withheld();
            }
            Verdict::Barred => {
                self.withhold();
                self.check.progress.count_passed();
            }
        }
        None
    }

    /// Waits a while for a datagram, and returns what the line brings of it, or why there is none.
    ///
    /// NoMemory where memory for a datagram was refused: the socket is asked for none then.
    #[tactic(auto, using(crate::proofs::Meeting::passed_over, crate::proofs::Meeting::waited))]
    fn receive(&mut self) -> Option<Result<Datagram, SourceFault>>
        ensures met { HasMet S.brings S.waits (sorting_by self.old) self.old.line_socket.socket
            (kept_in self.old) (waiting_in result) self.new.line_socket.socket
            (kept_in self.new) }
        ensures rule { sorting_by self.new ≡ sorting_by self.old }
    {
        let used = mem::replace(&mut self.used, Vec::new(self.alloc));
        let Ok(memory) = with_room(self.alloc, used, self.line_socket.buffer.len()) else {
            return Some(Err(SourceFault::NoMemory));
        };
        let line = &mut self.line_socket;
        match try_receive(&mut line.socket, &line.senders, line.buffer.as_mut_slice()) {
            Received::Taken(count) => {
                self.has_heard = true;
                match self.sort(memory, count) {
                    Some(datagram) => Some(Ok(datagram)),
                    None => None,
                }
            }
            Received::Foreign => {
                self.used = memory;
                self.foreign = self.foreign.saturating_add(1);
                self.check.progress.count_foreign();
                None
            }
            Received::Failed(fault) => Some(Err(fault)),
            Received::NoneYet => {
                self.used = memory;
                None
            }
        }
    }

    /// Waits a while, and returns what the line brings next, if that is there: the datagram that is
    /// held and confirmed by now, or what `receive` returns.
    pub(crate) fn next(&mut self) -> Option<Result<Datagram, SourceFault>>
        ensures met { HasMet S.brings S.waits (sorting_by self.old) self.old.line_socket.socket
            (kept_in self.old) (waiting_in result) self.new.line_socket.socket
            (kept_in self.new) }
        ensures rule { sorting_by self.new ≡ sorting_by self.old }
    {
        if self.is_confirmed() {
            self.release()
        } else {
            self.receive()
        }
    }
}
