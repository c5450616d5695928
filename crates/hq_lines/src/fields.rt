//! The fields of a batch line: `AT METHOD PATH KEY BODY`. Where a line begins and ends is not told
//! here.

ghost use Rattle.std.specs.Prelude.{◌≡◌, ◌<◌, ◌==◌, length, position, IfSome, option_map};
ghost use Rattle.hq_lines.specs.Fields.{cut, moment_in, word_in, key_word, line_fields, request_in};
ghost use Rattle.hq_lines.specs.Fields.{line_request};

use hq_values::{Moment, read_number};

/// The most bytes of a line that is read, a carriage return before its line feed among them.
pub(crate) const MOST_LINE_BYTES: usize = 300_000;

/// The most digits of a moment.
const MOST_MOMENT_DIGITS: usize = 10;

/// The fields of a batch line.
#[derive(Clone, Copy)]
pub struct RequestLine<'b> {
    /// The moment of the request.
    pub at: Moment,
    /// The method, not empty.
    pub method: &'b str,
    /// The path, not empty.
    pub path: &'b str,
    /// The key, not empty, or none where the line has `-`.
    pub key: Option<&'b str>,
    /// The rest of the line, which is empty where it is missing.
    pub body: &'b [u8],
}

/// The place of the first space.
fn first_space(bytes: &[u8]) -> Option<usize>
    ensures value { result ≡ position (λ b. b == 32) bytes.now }
    ensures within { IfSome result (λ place. place < length bytes.now) }
{
    bytes.iter().position(|byte| *byte == b' ')
}

/// What stands before the first space, and what follows it.
#[tactic(auto, unfolding(crate::specs::Fields::cut))]
fn cut(bytes: &[u8]) -> (&[u8], Option<&[u8]>)
    ensures { (result.0.now, option_map (λ r. r.now) result.1) ≡ cut bytes.now }
{
    match first_space(bytes) {
        Some(place) => (&bytes[..place], Some(&bytes[place + 1..])),
        None => (bytes, None),
    }
}

/// The moment that 1 to 10 decimal digits write.
#[tactic(auto, unfolding(crate::specs::Fields::moment_in))]
fn read_moment(field: &[u8]) -> Option<Moment>
    ensures { result ≡ moment_in field.now }
{
    Moment::new(read_number(field, MOST_MOMENT_DIGITS)?)
}

/// A field of text that is not empty.
#[tactic(auto, using(crate::proofs::Texts::utf8_told, crate::proofs::Texts::utf8_refused))]
fn read_text(field: &[u8]) -> Option<&str>
    ensures { option_map (λ t. t.now) result ≡ word_in field.now }
{
    if field.is_empty() {
        return None;
    }
    match str::from_utf8(field) {
        Ok(text) => Some(text),
        Err(_) => None,
    }
}

/// The key that a field names, where it is not `-`.
fn key_of(field: &str) -> Option<&str>
    ensures { option_map (λ k. k.now) result ≡ key_word field.now }
{
    if field == "-" { None } else { Some(field) }
}

/// The four fields and the rest of a line that is not too long.
#[tactic(auto, unfolding(crate::specs::Fields::line_fields))]
fn read_fields(line: &[u8]) -> Option<RequestLine<'_>>
    ensures { option_map line_request result ≡ line_fields line.now }
{
    let (at, rest) = cut(line);
    let at = read_moment(at)?;
    let (method, rest) = cut(rest?);
    let method = read_text(method)?;
    let (path, rest) = cut(rest?);
    let path = read_text(path)?;
    let (key, rest) = cut(rest?);
    let key = key_of(read_text(key)?);
    let body = rest.unwrap_or(&[]);
    Some(RequestLine {
        at,
        method,
        path,
        key,
        body,
    })
}

/// Reads a line without its line feed: `AT METHOD PATH KEY BODY`, fields parted by one space.
/// Nothing where it has more than 300,000 bytes, fewer than four fields or an empty one among the
/// four, an AT that is not 1 to 10 digits of a moment, or bytes that are not UTF-8 before the body.
#[tactic(auto, unfolding(crate::specs::Fields::request_in))]
pub fn read_line(bytes: &[u8]) -> Option<RequestLine<'_>>
    ensures { option_map line_request result ≡ request_in bytes.now }
{
    if bytes.len() <= MOST_LINE_BYTES {
        read_fields(bytes)
    } else {
        None
    }
}
