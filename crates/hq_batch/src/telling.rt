//! How it is told that a program did not do what its words asked for, and its exit status.

ghost use Rattle.std.specs.Prelude.{◌≡◌};
ghost use Rattle.std.specs.IoError.{error_kind};
ghost use Rattle.hq_batch.specs.Runs.{status};

use hq_settings::Trouble;
use hq_values::Fault;
use std::io::{self, ErrorKind, Write};

/// The exit status when all is done.
pub(crate) const DONE: u8 = 0;

/// The exit status of a refusal or a fault.
pub(crate) const FAILED: u8 = 1;

/// The exit status of words that are not taken.
pub const BAD_WORDS: u8 = 2;

/// Tells in a text why words are not taken, and answers the exit status, 2.
pub fn refuse<E: Write>(text: &str, errors: &mut E) -> u8
    ensures { result ≡ 2 }
{
    let _told = errors.write_all(text.as_bytes());
    BAD_WORDS
}

/// Tells how a run ended, and answers its exit status: 0 when it ended with its input, every reply
/// written, and else 1, with one line of `errors`; where that cannot be written, the status tells
/// it alone.
pub fn tell<E: Write>(ended: Result<(), Trouble>, errors: &mut E) -> u8
    ensures { result ≡ status ended }
{
    match ended {
        Ok(()) => DONE,
        Err(trouble) => {
            let _told = writeln!(errors, "hq: {trouble}");
            FAILED
        }
    }
}

/// Tells why the program could not begin, and answers its exit status: 1 for want of memory, and 2
/// for a word that is not UTF-8.
pub fn not_begun<E: Write>(error: &io::Error, errors: &mut E) -> u8
    ensures memory { error_kind error.now ≡ ErrorKind.OutOfMemory → result ≡ 1 }
    ensures word { (error_kind error.now ≡ ErrorKind.OutOfMemory → ⊥) → result ≡ 2 }
{
    if error.kind() == ErrorKind::OutOfMemory {
        let _told = writeln!(errors, "hq: {}", Fault::WantOfMemory);
        return FAILED;
    }
    let _told = writeln!(errors, "hq: a word is not UTF-8");
    BAD_WORDS
}
