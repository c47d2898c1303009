//! Surveys of the types of the messages in captures of any format.
ghost use Rattle.std.specs.Prelude.{◌≡◌, ◌≤◌, IfOk, refl};
ghost use Rattle.capture_records.specs.Capture.{record_of};
ghost use Rattle.message_types.specs.TypeCounts.{CountsRecord, CountsStep};
ghost use Rattle.message_types.specs.TypeSurveys.{IsNewSurvey, SurveysTypes};
ghost use Rattle.message_types.specs.TypeSurveyLaws.{types_longer, types_more, types_none};
ghost use Rattle.message_types.specs.TypeTexts.{text_of_types};

use crate::counts::TypeCounts;
use crate::rows::text_of;
use capture_records::{Record, RecordFormat, Step};
use run_settings::{RowFormat, TimeSpan};
use std::alloc::{AllocError, Global};

/// A capture of a format of which the messages of the datagrams in a span are counted by their
/// types. As a format it has no records.
#[derive(Drop)]
pub struct TypeSurvey<F> {
    format: F,
    span: TimeSpan,
    counts: TypeCounts,
}

/// Counts the messages of the record `what`, where it came in the span.
#[inline(always)]
fn count_record(counts: &mut TypeCounts, inside: bool, what: &Record<'_>)
    ensures { CountsRecord inside counts.old (record_of what.now) counts.new }
{
    match what {
        Record::Datagram { venue, line, bytes } => {
            if inside {
                counts.count_datagram(*venue, *line, bytes);
            }
        }
        _ => {}
    }
}

/// Counts the messages of a step, where it has a record that came in the span.
#[inline(always)]
fn count_step<F>(counts: &mut TypeCounts, span: &TimeSpan, step: &Step<'_, F>)
    ensures { CountsStep span.now counts.old step.now counts.new }
{
    match step {
        Step::Came { time, record, .. } => count_record(counts, span.has(*time), record),
        _ => {}
    }
}

impl<F> TypeSurvey<F> {
    /// Returns the survey of a capture of which nothing was read, in this span.
    pub fn new(format: F, span: TimeSpan) -> TypeSurvey<F>
        ensures { IsNewSurvey format span result }
    {
        TypeSurvey {
            format,
            span,
            counts: TypeCounts::new(),
        }
    }

    /// Returns the format, as it was read.
    pub fn format(&self) -> &F
        ensures { result.now ≡ self.now.format }
    {
        &self.format
    }

    /// Returns the rows of what was counted of the first venues. Fails where memory is refused.
    pub fn text(&self, alloc: Global, form: RowFormat, venues: usize) -> Result<Vec<u8>, AllocError>
        requires { venues ≤ 16 }
        ensures { IfOk result (λ text.
            text.items ≡ text_of_types form venues self.now.counts) }
    {
        text_of(alloc, &self.counts, form, venues)
    }
}

impl<F: RecordFormat> RecordFormat for TypeSurvey<F> {
    type Fault = F::Fault;

    ghost reads = { SurveysTypes F.reads };

    ghost wants = { λ s xs. F.wants s.format xs };

    ghost is_bad = { λ s xs fault. F.is_bad s.format xs fault };

    ghost is_whole = { λ s. F.is_whole s.format };

    ghost venues = { λ s. 0 };

    ghost reads_none = { types_none F.reads F.reads_none };

    ghost reads_more = { types_more F.reads F.reads_more };

    ghost reads_longer = { types_longer F.reads F.reads_longer };

    ghost reads_venues = { λ s t xs ys rs read. refl };

    #[inline(always)]
    fn next<'b>(&mut self, bytes: &'b [u8]) -> Step<'b, F::Fault> {
        let step = self.format.next(bytes);
        count_step(&mut self.counts, &self.span, &step);
        match step {
            Step::Came { len, .. } => Step::Passed(len),
            Step::Passed(len) => Step::Passed(len),
            Step::Wants => Step::Wants,
            Step::Bad(fault) => Step::Bad(fault),
        }
    }

    fn may_end(&self) -> bool {
        self.format.may_end()
    }
}
