//! What a client of the metrics is replied.
ghost use Rattle.std.specs.Prelude.{◌≡◌};
ghost use Rattle.run_metrics.specs.Replies.{IsReplyTo, head_at, is_of_metrics, page_at, reply_for};

use httparse::Status;
use httparse::spans::{EMPTY_HEADER_SPAN, parse_request};

/// The most fields of a request's head.
const MOST_FIELDS: usize = 64;

/// The bytes of a request by which its head has ended.
pub(crate) const MOST_BYTES: usize = 8_192;

/// What a request is replied.
#[derive(Clone, Copy, Debug, PartialEq, Eq)]
pub enum Reply {
    /// The page of metrics.
    Page,
    /// The head of an answer with that page.
    PageHead,
    /// That there is nothing at its target.
    NotFound,
    /// The head of such an answer.
    NotFoundHead,
    /// That its method is neither GET nor HEAD.
    NotAllowed,
    /// That its bytes are no request.
    BadRequest,
}

/// Whether a request's target is that of the metrics, with or without a query.
fn is_of_metrics(target: &[u8]) -> bool
    ensures { result ≡ is_of_metrics target.now }
{
    target == b"/metrics".as_slice() || target.starts_with(b"/metrics?".as_slice())
}

/// The reply to a request for this target.
fn page_at(target: &[u8]) -> Reply
    ensures { result ≡ page_at target.now }
{
    if is_of_metrics(target) {
        Reply::Page
    } else {
        Reply::NotFound
    }
}

/// The reply to a request for the head of the answer alone.
fn head_at(target: &[u8]) -> Reply
    ensures { result ≡ head_at target.now }
{
    if is_of_metrics(target) {
        Reply::PageHead
    } else {
        Reply::NotFoundHead
    }
}

/// The reply to a request of this method for this target.
fn reply_for(method: &[u8], target: &[u8]) -> Reply
    ensures { result ≡ reply_for method.now target.now }
{
    if method == b"GET".as_slice() {
        page_at(target)
    } else if method == b"HEAD".as_slice() {
        head_at(target)
    } else {
        Reply::NotAllowed
    }
}

/// Returns what is replied to the bytes that a client has sent: None where its request isn't whole
/// yet. A request's head has 8,191 bytes and 64 fields at most.
pub fn reply_to(request: &[u8]) -> Option<Reply>
    ensures { IsReplyTo request.now result }
{
    let mut fields = [EMPTY_HEADER_SPAN; MOST_FIELDS];
    match parse_request(request, &mut fields) {
        Ok(Status::Complete(head)) => {
            Some(reply_for(head.method.of(request), head.path.of(request)))
        }
        Ok(Status::Partial) if request.len() < MOST_BYTES => None,
        Ok(Status::Partial) | Err(_) => Some(Reply::BadRequest),
    }
}
