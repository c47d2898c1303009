//! The traits that a replay reads from and writes to.
//!
//! A replay can't know what a file or a pipe holds, so the two traits speak of it by relations
//! between the states of a device, with laws. Over memory the relations are equations; over the
//! standard streams they count the calls of a reader, and say nothing of the bytes.
ghost use Rattle.std.specs.Prelude.{◌≡◌, ℕ, ◌+◌, ◌++◌, [], ◌<◌, ◌≤◌, List, Ok, Err, IfOk, OnOk, OnErr, length, take};
ghost use Rattle.text_out.specs.declared.devices.ReadStop.TheVariants.{Interrupted, Failed};

/// Why a call of a reader read no bytes.
#[derive(Clone, Copy, Debug, PartialEq, Eq)]
pub enum ReadStop {
    /// The call was broken off before it read a byte. It may be made again, and is no failure.
    Interrupted,
    /// The device failed.
    Failed,
}

/// Why a call of a writer took no bytes.
#[derive(Clone, Copy, Debug, PartialEq, Eq)]
pub enum WriteStop {
    /// The device failed. A call that was interrupted, and one that would take no byte, failed too.
    Failed,
}

/// A source of a capture.
pub trait CaptureIn {
    /// This number of calls, of which none failed and none showed the end, read these bytes.
    ghost gives: { Self → ℕ → List ℕ → Self → Type 0 };

    /// One call showed the end.
    ghost ends: { Self → Self → Type 0 };

    /// The number of calls that failed.
    ghost failures: { Self → ℕ };

    /// One call failed. A reader that doesn't say more of its failed calls leaves this out.
    ghost fails: { Self → Self → Type 0 } = { λ _ _. Unit {0} };

    /// Reads some bytes into the front of `buf`, and returns how many. None mean the end.
    fn read(&mut self, buf: &mut [u8]) -> Result<usize, ReadStop>
        requires { 0 < length buf.old }
        ensures count { IfOk result (λ n. n ≤ length buf.new) }
        ensures some { IfOk result (λ n. 0 < n → gives self.old 1 (take n buf.new) self.new) }
        ensures end { result ≡ Ok 0 → ends self.old self.new }
        ensures interrupted { result ≡ Err Interrupted → gives self.old 1 [] self.new }
        ensures failed { result ≡ Err Failed → failures self.new ≡ failures self.old + 1 }
        ensures fails { result ≡ Err Failed → fails self.old self.new }
        ensures kept { (result ≡ Err Failed → ⊥) → failures self.new ≡ failures self.old };

    /// No calls read nothing.
    ghost gives_none: { (s : Self) → gives s 0 [] s };

    /// Calls after calls read bytes after bytes.
    ghost gives_more: { (s t u : Self) (m n : ℕ) (xs ys : List ℕ)
        → gives s m xs t → gives t n ys u → gives s (m + n) (xs ++ ys) u };
}

/// A sink of lines.
pub trait TextOut {
    /// Calls of which none failed took this text.
    ghost adds: { Self → List ℕ → Self → Type 0 };

    /// The number of calls that failed.
    ghost failures: { Self → ℕ };

    /// Writes a prefix of `piece` that isn't empty, and returns its length. A call that failed has
    /// taken nothing.
    fn write(&mut self, piece: &[u8]) -> Result<usize, WriteStop>
        requires { 0 < length piece.now }
        ensures some { IfOk result (λ n. 0 < n) }
        ensures count { IfOk result (λ n. n ≤ length piece.now) }
        ensures adds { IfOk result (λ n. adds self.old (take n piece.now) self.new) }
        ensures kept { OnOk result (failures self.new ≡ failures self.old) }
        ensures failed { OnErr result (failures self.new ≡ failures self.old + 1) }
        ensures untaken { OnErr result (adds self.old [] self.new) };

    /// No calls take no text.
    ghost adds_none: { (s : Self) → adds s [] s };

    /// Calls after calls take text after text.
    ghost adds_more: { (s t u : Self) (xs ys : List ℕ)
        → adds s xs t → adds t ys u → adds s (xs ++ ys) u };
}
