//! What each word asks for, checked in the written order: the relay's name, the directory, the
//! customer, the pattern, the label, and the file of lines.

ghost use Rattle.std.specs.Prelude.{◌≡◌};
ghost use Rattle.hq_settings.specs.Steps.{IsRead};
ghost use Rattle.hq_sql_admin.specs.Requests.{HasCustomer, HasPattern, QueueAsks, HistoryAsks};
ghost use Rattle.hq_sql_admin.specs.Requests.{MoveAsks, ImportAsks, SweepAsks, move_call};
ghost use Rattle.hq_sql_admin.specs.Requests.{history_call, pattern_read};

use hq_admin::{AdminCall, customer_in};
use hq_kept::{Class, Entry, Pattern};
use hq_rules::Call;
use hq_settings::{Files, Trouble};
use hq_values::{Host, Items, Label, Moment};
use hq_words::{Import, Matching, Moving, Sweep, Telling};
use std::alloc::Global;

/// The relay's name where nothing shows it.
pub(crate) const LOCALHOST: &str = "localhost";

/// The moment where nothing shows it.
pub(crate) const NO_MOMENT: u64 = 0;

/// The customer of this name, in the directory of a path.
fn customer_of<F: Files>(rt: &F, directory: &str, name: &str) -> Result<Entry, Trouble>
    ensures { HasCustomer (F.reads rt.now) directory.now name.now result }
{
    let file = rt.read(directory)?;
    Ok(customer_in(rt.alloc(), file.as_slice(), name)?)
}

/// What is done to the messages that a pattern is for.
#[derive(Clone, Copy, Debug, PartialEq, Eq, Drop)]
pub(crate) enum Done {
    /// They go on hold.
    Held,
    /// They are released.
    Released,
    /// They are deleted.
    Deleted,
}

/// The call that does it.
fn move_call(done: Done, pattern: Pattern) -> Call
    ensures { result ≡ move_call done pattern }
{
    match done {
        Done::Held => Call::HoldAll(Some(pattern)),
        Done::Released => Call::ReleaseAll(Some(pattern)),
        Done::Deleted => Call::DeleteAll(Some(pattern)),
    }
}

/// The call for a history, or for what of it a pattern is for.
fn history_call(pattern: Option<Pattern>) -> Call
    ensures { result ≡ history_call pattern }
{
    match pattern {
        None => Call::History(None),
        Some(pattern) => Call::FindHistory(pattern, None),
    }
}

/// The pattern that words give.
fn pattern_of(alloc: Global, matching: Matching) -> Result<Pattern, Trouble>
    ensures { IsRead (pattern_read matching.entry) result }
{
    let pattern = match matching {
        Matching::Sender(text) => Pattern::parse(alloc, Class::SenderSide, text)?,
        Matching::Recipient(text) => Pattern::parse(alloc, Class::RecipientSide, text)?,
    };
    Ok(pattern)
}

/// The pattern that words give, where they give one.
fn any_pattern_of(alloc: Global, matching: Option<Matching>) -> Result<Option<Pattern>, Trouble>
    ensures { HasPattern matching.entry result }
{
    match matching {
        None => Ok(None),
        Some(matching) => Ok(Some(pattern_of(alloc, matching)?)),
    }
}

/// The queue report of a customer: of the messages that a pattern is for, or of all.
pub(crate) fn queue_request<F: Files>(rt: &F, given: &Telling) -> Result<AdminCall, Trouble>
    ensures { QueueAsks (F.reads rt.now) given.now result }
{
    let host = Host::parse(rt.alloc(), LOCALHOST)?;
    let entry = customer_of(rt, given.directory, given.customer)?;
    let pattern = any_pattern_of(rt.alloc(), given.pattern)?;
    Ok(AdminCall {
        host,
        at: Moment::no_later(NO_MOMENT),
        entry,
        call: Call::Report(pattern),
    })
}

/// The history of a customer: what of it a pattern is for, or the newest of it.
pub(crate) fn history_request<F: Files>(rt: &F, given: &Telling) -> Result<AdminCall, Trouble>
    ensures { HistoryAsks (F.reads rt.now) given.now result }
{
    let host = Host::parse(rt.alloc(), LOCALHOST)?;
    let entry = customer_of(rt, given.directory, given.customer)?;
    let pattern = any_pattern_of(rt.alloc(), given.pattern)?;
    Ok(AdminCall {
        host,
        at: Moment::no_later(NO_MOMENT),
        entry,
        call: history_call(pattern),
    })
}

/// What is done to the messages of a customer that a pattern is for.
pub(crate) fn move_request<F: Files>(
    rt: &F,
    given: &Moving,
    done: Done,
) -> Result<AdminCall, Trouble>
    ensures { MoveAsks (F.reads rt.now) given.now done result }
{
    let host = Host::parse(rt.alloc(), LOCALHOST)?;
    let entry = customer_of(rt, given.directory, given.customer)?;
    let pattern = pattern_of(rt.alloc(), given.pattern)?;
    Ok(AdminCall {
        host,
        at: given.at,
        entry,
        call: move_call(done, pattern),
    })
}

/// The import of a file into a customer's access tables.
pub(crate) fn import_request<F: Files>(rt: &F, given: &Import) -> Result<AdminCall, Trouble>
    ensures { ImportAsks (F.reads rt.now) given.now result }
{
    let host = Host::parse(rt.alloc(), LOCALHOST)?;
    let entry = customer_of(rt, given.directory, given.customer)?;
    let label = Label::parse(rt.alloc(), given.label)?;
    let lines = rt.read(given.file)?;
    Ok(AdminCall {
        host,
        at: Moment::no_later(NO_MOMENT),
        entry,
        call: Call::Import(label, Items::from_vec(lines)),
    })
}

/// The sweep of the queue of the customer of this name.
pub(crate) fn sweep_request<F: Files>(
    rt: &F,
    given: &Sweep,
    name: &str,
) -> Result<AdminCall, Trouble>
    ensures { SweepAsks (F.reads rt.now) given.now name.now result }
{
    let host = Host::parse(rt.alloc(), given.host)?;
    let entry = customer_of(rt, given.directory, name)?;
    Ok(AdminCall {
        host,
        at: given.at,
        entry,
        call: Call::Sweep,
    })
}
