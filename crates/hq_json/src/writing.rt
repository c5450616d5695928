//! Texts, numbers and flags as JSON, at the end of a body.

ghost use Rattle.std.specs.Prelude.{◌≡◌, ◌<◌, ◌++◌, decimal, OnErr};
ghost use Rattle.std.specs.Char.{digit_char};
ghost use Rattle.json.specs.Print.{escape, escape_byte, escape_letter, quoted};
ghost use Rattle.json.specs.Run.{is_plain};
ghost use Rattle.serde_json.specs.Data.{boolean};
ghost use Rattle.hq_memory.specs.Making.{MadeIn};
ghost use Rattle.hq_json.specs.Writing.{after};

use hq_memory::Memory;
use std::alloc::AllocError;

/// A hexadecimal digit, in lower case.
fn hex_digit(digit: u8) -> u8
    requires { digit < 16 }
    ensures { result ≡ digit_char digit }
{
    if digit < 10 {
        b'0' + digit
    } else {
        b'a' - 10 + digit
    }
}

/// The letter that stands for a byte behind a backslash; 0 where none does.
fn escape_letter(byte: u8) -> u8
    ensures { result ≡ escape_letter byte }
{
    match byte {
        b'"' | b'\\' => byte,
        8 => b'b',
        12 => b'f',
        b'\n' => b'n',
        b'\r' => b'r',
        b'\t' => b't',
        _ => 0,
    }
}

/// Whether a byte stands for itself in a string.
fn is_plain(byte: u8) -> bool
    ensures { result ≡ is_plain byte }
{
    byte != b'"' && byte != b'\\' && byte >= 0x20
}

/// What stands in a string for a byte.
#[tactic(auto, unfolding(json::specs::Print::escape_byte))]
fn put_byte<M: Memory>(memory: M, body: &mut Vec<u8>, byte: u8) -> Result<(), AllocError>
    ensures { MadeIn M.refused result (λ _. body.new.items ≡ body.old.items ++ escape_byte byte) }
{
    let letter = escape_letter(byte);
    if letter > 0 {
        memory.extend(body, &[b'\\', letter])
    } else if byte < 0x20 {
        let (high, low) = (hex_digit(byte / 16), hex_digit(byte % 16));
        memory.extend(body, &[b'\\', b'u', b'0', b'0', high, low])
    } else {
        memory.extend(body, &[byte])
    }
}

/// A text as it stands within a string. Bytes that stand for themselves are written run by run.
fn put_escaped<M: Memory>(memory: M, body: &mut Vec<u8>, text: &[u8]) -> Result<(), AllocError>
    ensures { MadeIn M.refused result (λ _. body.new.items ≡ body.old.items ++ escape text.now) }
{
    let mut from = 0;
    for (i, byte) in text.iter().enumerate() {
        if !is_plain(*byte) {
            memory.extend(body, &text[from..i])?;
            put_byte(memory, body, *byte)?;
            from = i + 1;
        }
    }
    memory.extend(body, &text[from..])
}

/// A text as a string.
pub(crate) fn put_text<M: Memory>(
    memory: M,
    body: &mut Vec<u8>,
    text: &[u8],
) -> Result<(), AllocError>
    ensures { MadeIn M.refused result (λ _. body.new.items ≡ body.old.items ++ quoted text.now) }
{
    memory.push(body, b'"')?;
    put_escaped(memory, body, text)?;
    memory.push(body, b'"')
}

/// A number in decimal.
pub(crate) fn put_count<M: Memory>(
    memory: M,
    body: &mut Vec<u8>,
    count: u64,
) -> Result<(), AllocError>
    ensures { MadeIn M.refused result (λ _. body.new.items ≡ body.old.items ++ decimal count) }
{
    let mut digits = itoa::Buffer::new();
    memory.extend(body, digits.format(count).as_bytes())
}

/// True or false.
#[tactic(auto, unfolding(crate::specs::Writing::after))]
pub(crate) fn put_flag<M: Memory>(
    memory: M,
    body: &mut Vec<u8>,
    flag: bool,
) -> Result<(), AllocError>
    ensures bytes { body.new.items ≡ after result body.old.items body.new.items
        (boolean flag) }
    ensures cause { OnErr result M.refused }
{
    if flag {
        memory.extend(body, b"true")
    } else {
        memory.extend(body, b"false")
    }
}
