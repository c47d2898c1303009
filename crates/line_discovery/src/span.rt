//! The lowest and the highest of some numbers.
ghost use Rattle.std.specs.Prelude.{◌≡◌};
ghost use Rattle.line_discovery.specs.Spans.{wider};

/// The lowest and the highest of some numbers.
#[derive(Clone, Copy, Debug, PartialEq, Eq)]
pub struct Span {
    pub low: u64,
    pub high: u64,
}

/// The span of both, either of which there may not be.
pub(crate) fn wider(one: Option<Span>, other: Option<Span>) -> Option<Span>
    ensures { result ≡ wider one other }
{
    match (one, other) {
        (None, _) => other,
        (_, None) => one,
        (Some(a), Some(b)) => Some(Span {
            low: a.low.min(b.low),
            high: a.high.max(b.high),
        }),
    }
}
