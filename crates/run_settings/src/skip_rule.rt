//! When a replay gives up what a venue lacks.

/// When a replay gives up what a venue lacks, beside the skips that its records are.
#[derive(Clone, Copy, Debug, PartialEq, Eq)]
pub enum SkipRule {
    /// Never.
    Never,
    /// Where nothing of a session was taken or given up: it is joined at its first packet.
    Join,
    /// Always: as long as a packet of the present session would be answered `Ahead`, the gap at the
    /// front is given up, before the packet is taken, to the first number that has come, of a held
    /// message or the packet's own.
    Gaps,
    /// After these milliseconds by the records' times: a gap that has stood that long is given up
    /// before the next record is taken, and a session is joined at its first packet.
    After(u32),
}
