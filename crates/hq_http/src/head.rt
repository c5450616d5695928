//! The head of a request, where its end has come.

ghost use Rattle.std.specs.Prelude.{◌≡◌, ◌≤◌, length};
ghost use Rattle.std.specs.Str.{IsUtf8};
ghost use Rattle.httparse.specs.Spans.{span_bytes, IsRequestWithin, IsRequestOf};
ghost use Rattle.hq_http.specs.Ends.{HasEnd};
ghost use Rattle.hq_http.specs.Heads.{HeadIs};

use crate::fields::{framing_of, text};
use hq_values::Refusal;
use httparse::Status;
use httparse::spans::{EMPTY_HEADER_SPAN, HeaderSpan, RequestSpans, parse_request};

/// The most bytes of a head.
pub(crate) const HEAD_BYTES: usize = 16_384;

/// The most bytes of a body.
const BODY_BYTES: u64 = 262_144;

/// A head within the limits, with what its fields say.
#[derive(Clone, Copy)]
pub(crate) struct WholeHead<'b> {
    /// The method, as `GET`.
    pub method: &'b str,
    /// The path, as it stands.
    pub path: &'b str,
    /// The key that is shown, where one is.
    pub key: Option<&'b str>,
    /// Where the body begins.
    pub start: usize,
    /// How many bytes the body has.
    pub length: u64,
}

/// What a head says.
#[derive(Clone, Copy)]
pub(crate) enum ParsedHead<'b> {
    /// However the bytes go on, they are refused.
    Refused(Refusal),
    /// The body follows.
    Whole(WholeHead<'b>),
}

/// What a head of the grammar says.
fn whole<'b>(buf: &'b [u8], headers: &[HeaderSpan], head: RequestSpans) -> ParsedHead<'b>
    requires within { IsRequestWithin buf.now headers.now head }
    requires complete { IsRequestOf buf.now headers.now head }
    requires room { length headers.now ≤ 64 }
    ensures { HeadIs buf.now result }
{
    if head.len > HEAD_BYTES {
        return ParsedHead::Refused(Refusal::BadRequest);
    }
    let Some(framed) = framing_of(buf, &headers[..head.headers]) else {
        return ParsedHead::Refused(Refusal::BadRequest);
    };
    if framed.length > BODY_BYTES {
        return ParsedHead::Refused(Refusal::BodyTooLong);
    }
    ParsedHead::Whole(WholeHead {
        method: text(head.method.of(buf)),
        path: text(head.path.of(buf)),
        key: framed.key,
        start: head.len,
        length: framed.length,
    })
}

/// What the head at the front of the bytes says, where an end of it has come: it does not wait for
/// more.
pub(crate) fn head_of(buf: &[u8]) -> ParsedHead<'_>
    requires { HasEnd buf.now }
    ensures { HeadIs buf.now result }
{
    let mut headers = [EMPTY_HEADER_SPAN; 64];
    match parse_request(buf, &mut headers) {
        Ok(Status::Complete(head)) => whole(buf, &headers, head),
        Ok(Status::Partial) => ParsedHead::Refused(Refusal::BadRequest),
        Err(_) => ParsedHead::Refused(Refusal::BadRequest),
    }
}
