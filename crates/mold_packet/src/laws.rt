//! Laws of the definitions: a spelling has one reading, and reads back.

ghost use Rattle.std.specs.Prelude.{◌≡◌, ◌≤◌, ◌⊎◌, ℕ, List, [], Result, Ok, IfOk, IfErr};
ghost use Rattle.mold_packet.specs.Bytes.{AreBytes};
ghost use Rattle.mold_packet.specs.Content.{Content, Spells};
ghost use Rattle.mold_packet.specs.Faults.{HasFault};
ghost use Rattle.mold_packet.specs.Request.{SpellsRequest, HasRequestFault};
ghost use Rattle.mold_packet.specs.declared.fault.PacketFault.{PacketFault};
ghost use Rattle.mold_packet.specs.declared.request.Request.{Request};

/// Bytes spell one packet before one rest, and then have no fault; or they have one fault.
///
/// So [`read_packet`](crate::read_packet) has one right answer. The function does nothing: its
/// contract is a law.
pub fn one_reading()
    ensures packet { (bytes : List ℕ) (p q : Content) (rest more : List ℕ)
        → Spells bytes p rest → Spells bytes q more → p ≡ q }
    ensures rest { (bytes : List ℕ) (p q : Content) (rest more : List ℕ)
        → Spells bytes p rest → Spells bytes q more → rest ≡ more }
    ensures no_fault { (bytes : List ℕ) (p : Content) (rest : List ℕ) (fault : PacketFault)
        → Spells bytes p rest → HasFault bytes fault → ⊥ }
    ensures fault { (bytes : List ℕ) (f g : PacketFault)
        → HasFault bytes f → HasFault bytes g → f ≡ g }
{}

/// Bytes spell one request, and have no fault if its number is at least 1; or they have one fault.
///
/// So [`read_request`](crate::read_request) has one right answer. The function does nothing: its
/// contract is a law.
pub fn one_request()
    ensures request { (bytes : List ℕ) (r s : Request)
        → SpellsRequest bytes r → SpellsRequest bytes s → r ≡ s }
    ensures no_fault { (bytes : List ℕ) (r : Request) (fault : PacketFault)
        → SpellsRequest bytes r → 1 ≤ r.number → HasRequestFault bytes fault → ⊥ }
    ensures fault { (bytes : List ℕ) (f g : PacketFault)
        → HasRequestFault bytes f → HasRequestFault bytes g → f ≡ g }
{}

/// Bytes spell a packet or have a fault, and the same holds of a request.
///
/// With [`one_reading`] and [`one_request`] they have exactly one of the two, so that no clause of
/// reading is empty. The function does nothing: its contract is a law.
pub fn bytes_read_or_have_a_fault()
    ensures packet { (bytes : List ℕ) → AreBytes bytes
        → ((packet : Content) × (rest : List ℕ) × Spells bytes packet rest)
        ⊎ ((fault : PacketFault) × HasFault bytes fault) }
    ensures request { (bytes : List ℕ) → AreBytes bytes
        → ((request : Request) × SpellsRequest bytes request)
        ⊎ ((fault : PacketFault) × HasRequestFault bytes fault) }
{}

/// What was written reads back. An answer that keeps the clauses of
/// [`read_packet`](crate::read_packet) on a packet's spelling is that packet, and the same holds of
/// [`read_request`](crate::read_request) and a request whose number is at least 1.
///
/// The function does nothing: its contract is a law.
pub fn reads_back()
    ensures packet { (bytes : List ℕ) (written : Content) (answer : Result Content PacketFault)
        → Spells bytes written []
        → IfOk answer (λ packet. (rest : List ℕ) × Spells bytes packet rest)
        → IfErr answer (HasFault bytes)
        → answer ≡ Ok written }
    ensures request { (bytes : List ℕ) (written : Request) (answer : Result Request PacketFault)
        → SpellsRequest bytes written → 1 ≤ written.number
        → IfOk answer (SpellsRequest bytes)
        → IfErr answer (HasRequestFault bytes)
        → answer ≡ Ok written }
{}
