//! What is read and checked, and what is told of it.

ghost use Rattle.std.specs.Prelude.{◌≡◌, ℕ, ⊤, List, IfOk, IsTrue, option_map};
ghost use Rattle.hq_values.specs.Readers.{seen_by};
ghost use Rattle.hq_kept.specs.Customers.{are_customers};
ghost use Rattle.hq_import.specs.Directories.{directory_in};
ghost use Rattle.hq_import.specs.Refused.{ReadsDirectory};
ghost use Rattle.hq_settings.specs.Seen.{relay_seen};
ghost use Rattle.hq_words.specs.Asked.{check_of};
ghost use Rattle.hq_batch.specs.Checks.{CheckEnds, Checks, FileEnds, IsCountTold};

use crate::print;
use hq_import::{DirectoryFail, DirectoryRefusal, read_directory};
use hq_kept::Customer;
use hq_rules::Rendered;
use hq_settings::{Files, Relay, Trouble, count_customers, relay_given};
use hq_values::Fault;
use hq_words::Check;
use std::alloc::Global;
use std::fmt::Write as WriteText;
use std::io::Write;

/// That many, on a line.
#[tactic(auto, unfolding(crate::specs::Checks::count_line))]
fn count_told(alloc: Global, count: usize) -> Result<Rendered, Trouble>
    ensures { IsCountTold count result }
{
    let mut text = String::new(alloc);
    let told = match count {
        1 => write!(text, "{count} customer\n"),
        _ => write!(text, "{count} customers\n"),
    };
    match told {
        Ok(()) => Ok(Rendered {
            number: 0,
            bytes: text.into_bytes(),
        }),
        Err(_) => Err(Trouble::from(Fault::WantOfMemory)),
    }
}

/// The line that a check prints of a directory and of the keys beside it, or its trouble.
fn told_of<F: Files>(
    rt: &F,
    relay: Option<Relay>,
    keys: Option<&str>,
    read: Result<Vec<Customer>, DirectoryFail>,
) -> Result<Rendered, Trouble>
    requires { IfOk read (λ customers. IsTrue (are_customers customers.items)) }
    ensures { (file : List ℕ) → ReadsDirectory ⊤ (seen_by (λ v. v.items) read) (directory_in file)
        → FileEnds (F.reads rt.now) (option_map (λ k. k.now) keys.entry)
        (option_map relay_seen relay) file result }
{
    let count = count_customers(rt, relay, keys, read)?;
    count_told(rt.alloc(), count)
}

/// Where a directory is wrong, and what is wrong there, if it is refused.
fn refusal_in(read: &Result<Vec<Customer>, DirectoryFail>) -> Option<DirectoryRefusal> {
    match read {
        Err(DirectoryFail::Refused(refusal)) => Some(*refusal),
        _ => None,
    }
}

/// Prints what is told of a directory, and behind a refusal what is wrong in its row.
fn print_file<F: Files, W: Write, E: Write>(
    rt: &F,
    relay: Option<Relay>,
    keys: Option<&str>,
    file: &[u8],
    output: &mut W,
    errors: &mut E,
) -> u8
    ensures { Checks (FileEnds (F.reads rt.now) (option_map (λ k. k.now) keys.entry)
        (option_map relay_seen relay) file.now) (output.new ≡ output.old)
        (W.contents output.old) (W.contents output.new) result }
{
    let read = read_directory(rt.alloc(), file);
    let refusal = refusal_in(&read);
    let status = print(told_of(rt, relay, keys, read), output, errors);
    if let Some(refusal) = refusal {
        let _told = writeln!(errors, "hq: row {}{}", refusal.row, refusal.wrong);
    }
    status
}

/// Checks what a start would read before it opens its store: the relay's name, its key, the
/// directory, the keys beside it, and the relay's key against both; without a relay's key all but
/// that. Prints how many customers there are, or tells what a start would tell and, of a directory,
/// what is wrong in its row; and answers the exit status.
pub fn check<F: Files, W: Write, E: Write>(
    rt: &F,
    given: &Check,
    output: &mut W,
    errors: &mut E,
) -> u8
    ensures { Checks (CheckEnds (F.reads rt.now) (check_of given.now)) (output.new ≡ output.old)
        (W.contents output.old) (W.contents output.new) result }
{
    let relay = match relay_given(rt, given) {
        Ok(relay) => relay,
        Err(trouble) => return print(Err(trouble), output, errors),
    };
    let file = match rt.read(given.directory) {
        Ok(file) => file,
        Err(trouble) => return print(Err(trouble), output, errors),
    };
    print_file(rt, relay, given.keys, file.as_slice(), output, errors)
}
