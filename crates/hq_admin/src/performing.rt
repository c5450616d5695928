//! One call over a shelf.

ghost use Rattle.hq_admin.specs.Performs.{Performs};

use crate::printed::Printed;
use hq_desk::Desk;
use hq_kept::Entry;
use hq_moves::MovesMessages;
use hq_rules::{Acts, Call, Rendered};
use hq_values::{Fault, Host, Moment};
use std::alloc::Global;

/// A call that an administrator asks for.
#[derive(Drop)]
pub struct AdminCall {
    /// The relay's name.
    pub host: Host,
    /// When it is done.
    pub at: Moment,
    /// The customer.
    pub entry: Entry,
    /// What is done.
    pub call: Call,
}

/// Does the call that is asked for, over a shelf that it gives back. It answers 0 and what is
/// printed, or a refusal's number and its text; after a fault nothing was changed, unless the store
/// is closed then.
pub fn perform<S: MovesMessages + Drop>(
    alloc: Global,
    shelf: S,
    request: AdminCall,
) -> (S, Result<Rendered, Fault>)
    ensures { Performs S.sight shelf result.0 request result.1 }
{
    let AdminCall {
        host,
        at,
        entry,
        call,
    } = request;
    let mut desk = Desk::new(shelf, host);
    let done = desk.act(alloc, at, &entry, call, &Printed);
    (desk.into_shelf(), done)
}
