//! The answer to a client of the metrics, as HTTP has it.
ghost use Rattle.std.specs.Prelude.{◌≡◌, ◌++◌, IfOk, OnOk};
ghost use Rattle.run_metrics.specs.Replies.{content_text, has_content, response_head, response_text, status_text};

use crate::figures::RunFigures;
use crate::page::put_page;
use crate::reply::Reply;
use std::alloc::{AllocError, Global};
use text_out::TextPart::{Number, Text};
use text_out::put_parts;

impl Reply {
    /// The status of the answer, with the fields that it alone has.
    fn status(self) -> &'static str
        ensures { result.now ≡ status_text self }
    {
        match self {
            Reply::Page | Reply::PageHead => "200 OK\r\n",
            Reply::NotFound | Reply::NotFoundHead => "404 Not Found\r\n",
            Reply::NotAllowed => "405 Method Not Allowed\r\nAllow: GET, HEAD\r\n",
            Reply::BadRequest => "400 Bad Request\r\n",
        }
    }
}

/// Whether the content is in an answer; if not the answer has its length alone.
fn has_content(reply: Reply) -> bool
    ensures { result ≡ has_content reply }
{
    !matches!(reply, Reply::PageHead | Reply::NotFoundHead)
}

/// Appends what is at a request's target, or why nothing is.
fn put_content(text: &mut Vec<u8>, reply: Reply, figures: &RunFigures<'_>) -> Result<(), AllocError>
    ensures { OnOk result (text.new.items ≡ text.old.items ++ content_text reply figures.now) }
{
    match reply {
        Reply::Page | Reply::PageHead => put_page(text, figures),
        Reply::NotFound | Reply::NotFoundHead => {
            text.extend_from_slice(b"the metrics are at /metrics\n")
        }
        Reply::NotAllowed => text.extend_from_slice(b"the metrics are read by GET\n"),
        Reply::BadRequest => text.extend_from_slice(b"this is no request\n"),
    }
}

/// Appends what stands before content of this length.
fn put_response_head(text: &mut Vec<u8>, reply: Reply, length: u64) -> Result<(), AllocError>
    ensures { OnOk result (text.new.items ≡ text.old.items ++ response_head reply length) }
{
    let content_type = "Content-Type: text/plain; version=0.0.4; charset=utf-8\r\n";
    let status = Text(reply.status());
    put_parts(text, &[Text("HTTP/1.1 "), status, Text(content_type)])?;
    let close = Text("\r\nConnection: close\r\n\r\n");
    put_parts(text, &[Text("Content-Length: "), Number(length), close])
}

/// Returns the whole answer of a reply, of a run that has come to these figures.
pub fn answer(alloc: Global, reply: Reply, figures: &RunFigures<'_>) -> Result<Vec<u8>, AllocError>
    ensures { IfOk result (λ text. text.items ≡ response_text reply figures.now) }
{
    let mut content = Vec::new(alloc);
    put_content(&mut content, reply, figures)?;
    let mut text = Vec::new(alloc);
    put_response_head(&mut text, reply, content.len() as u64)?;
    if has_content(reply) {
        text.extend_from_slice(content.as_slice())?;
    }
    Ok(text)
}
