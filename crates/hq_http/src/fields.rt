//! What the fields of a head say of the body and the key.

ghost use Rattle.std.specs.Prelude.{◌≡◌, ◌≤◌, ◌∷◌, [], length, drop, option_map, MatchOption};
ghost use Rattle.hq_http.specs.Fields.{AreWithin, header_fields, values, at_most_one, framing};
ghost use Rattle.hq_http.specs.Fields.{framing_view, length_of, key_of, is_plain, is_ascii};
ghost use Rattle.std.specs.Str.{IsUtf8};

use hq_values::read_number;
use httparse::spans::HeaderSpan;

/// The value of the first field of a name, and how many fields stand up to it.
fn first_value<'b>(buf: &'b [u8], headers: &[HeaderSpan], name: &[u8]) -> Option<(&'b [u8], usize)>
    requires { AreWithin buf.now headers.now }
    ensures { MatchOption result (values name.now (header_fields buf.now headers.now) ≡ [])
        (λ r. (r.1 ≤ length headers.now) × (values name.now (header_fields buf.now headers.now)
        ≡ r.0.now ∷ values name.now (header_fields buf.now (drop r.1 headers.now)))) }
{
    for (place, header) in headers.iter().enumerate() {
        if header.name.of(buf).eq_ignore_ascii_case(name) {
            return Some((header.value.of(buf), place + 1));
        }
    }
    None
}

/// The value of the field of a name, if there is one; `None` where there are two.
fn only_value<'b>(buf: &'b [u8], headers: &[HeaderSpan], name: &[u8]) -> Option<Option<&'b [u8]>>
    requires { AreWithin buf.now headers.now }
    ensures { option_map (λ o. option_map (λ v. v.now) o) result
        ≡ at_most_one (values name.now (header_fields buf.now headers.now)) }
{
    match first_value(buf, headers, name) {
        None => Some(None),
        Some((value, place)) => match first_value(buf, &headers[place..], name) {
            None => Some(Some(value)),
            Some(_) => None,
        },
    }
}

/// The most digits of a length.
const MOST_DIGITS: usize = 10;

/// What the fields of a head say.
#[derive(Clone, Copy)]
pub(crate) struct Framed<'b> {
    /// How many bytes the body has.
    pub length: u64,
    /// The key that is shown, where one is.
    pub key: Option<&'b str>,
}

/// The length of the body, 0 where none is told; `None` where it is told twice or is no number.
#[tactic(auto, unfolding(crate::specs::Fields::length_of))]
fn length_of(buf: &[u8], headers: &[HeaderSpan]) -> Option<u64>
    requires { AreWithin buf.now headers.now }
    ensures { result ≡ length_of (header_fields buf.now headers.now) }
{
    match only_value(buf, headers, b"content-length")? {
        None => Some(0),
        Some(value) => read_number(value, MOST_DIGITS),
    }
}

/// Bytes that are UTF-8, as text.
pub(crate) fn text(bytes: &[u8]) -> &str
    requires { IsUtf8 bytes.now }
    ensures { result.now ≡ bytes.now }
{
    str::from_utf8(bytes).unwrap()
}

/// Whether each byte is ASCII.
fn is_ascii(value: &[u8]) -> bool
    ensures { result ≡ is_ascii value.now }
{
    value.iter().all(|byte| *byte < 128)
}

/// The key, where one is shown; `None` where there are two or it is not ASCII.
#[tactic(auto, unfolding(crate::specs::Fields::key_of))]
fn key_of<'b>(buf: &'b [u8], headers: &[HeaderSpan]) -> Option<Option<&'b str>>
    requires { AreWithin buf.now headers.now }
    ensures { option_map (λ o. option_map (λ v. v.now) o) result
        ≡ key_of (header_fields buf.now headers.now) }
{
    match only_value(buf, headers, b"x-desk-key")? {
        None => Some(None),
        Some(value) => {
            if is_ascii(value) {
                Some(Some(text(value)))
            } else {
                None
            }
        }
    }
}

/// Whether no field is a `Transfer-Encoding`.
#[tactic(auto, unfolding(crate::specs::Fields::is_plain))]
fn is_plain(buf: &[u8], headers: &[HeaderSpan]) -> bool
    requires { AreWithin buf.now headers.now }
    ensures { result ≡ is_plain (header_fields buf.now headers.now) }
{
    first_value(buf, headers, b"transfer-encoding").is_none()
}

/// The length of the body and the key; `None` where a field is at fault.
#[tactic(auto, unfolding(crate::specs::Fields::framing))]
pub(crate) fn framing_of<'b>(buf: &'b [u8], headers: &[HeaderSpan]) -> Option<Framed<'b>>
    requires { AreWithin buf.now headers.now }
    ensures { option_map framing_view result ≡ framing (header_fields buf.now headers.now) }
{
    if !is_plain(buf, headers) {
        return None;
    }
    let length = length_of(buf, headers)?;
    let key = key_of(buf, headers)?;
    Some(Framed { length, key })
}
