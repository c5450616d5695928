//! What each word does: the checks of what it is given, the opening of its store, and then the
//! call, with its own refusals.

ghost use Rattle.hq_sql_admin.specs.Words.{QueueEnds, HistoryEnds, HoldEnds, ReleaseEnds};
ghost use Rattle.hq_sql_admin.specs.Words.{DeleteEnds, ImportEnds, SweepEnds};

use crate::over_store::perform_at;
use crate::requests::{
    Done, history_request, import_request, move_request, queue_request, sweep_request,
};
use hq_rules::Rendered;
use hq_settings::{Files, Trouble};
use hq_sql_shelf::Stores;
use hq_words::{Import, Moving, Sweep, Telling};

/// The queue report of a customer. Checked in the order directory, customer, pattern, store.
pub fn queue<F: Files, K: Stores>(
    rt: &F,
    stores: &mut K,
    given: &Telling,
) -> Result<Rendered, Trouble>
    ensures { QueueEnds (F.reads rt.now) K.Store.sight K.does stores.old stores.new
        given.now result }
{
    let request = queue_request(rt, given)?;
    perform_at(rt.alloc(), stores, given.store, request)
}

/// The history of a customer. Checked in the order directory, customer, pattern, store.
pub fn history<F: Files, K: Stores>(
    rt: &F,
    stores: &mut K,
    given: &Telling,
) -> Result<Rendered, Trouble>
    ensures { HistoryEnds (F.reads rt.now) K.Store.sight K.does stores.old stores.new
        given.now result }
{
    let request = history_request(rt, given)?;
    perform_at(rt.alloc(), stores, given.store, request)
}

/// How many messages of a customer that a pattern is for went on hold. Checked in the order
/// directory, customer, pattern, store.
pub fn hold<F: Files, K: Stores>(
    rt: &F,
    stores: &mut K,
    given: &Moving,
) -> Result<Rendered, Trouble>
    ensures { HoldEnds (F.reads rt.now) K.Store.sight K.does stores.old stores.new
        given.now result }
{
    let request = move_request(rt, given, Done::Held)?;
    perform_at(rt.alloc(), stores, given.store, request)
}

/// How many of them were released. Checked in the same order.
pub fn release<F: Files, K: Stores>(
    rt: &F,
    stores: &mut K,
    given: &Moving,
) -> Result<Rendered, Trouble>
    ensures { ReleaseEnds (F.reads rt.now) K.Store.sight K.does stores.old stores.new
        given.now result }
{
    let request = move_request(rt, given, Done::Released)?;
    perform_at(rt.alloc(), stores, given.store, request)
}

/// How many of them were deleted. Checked in the same order.
pub fn delete<F: Files, K: Stores>(
    rt: &F,
    stores: &mut K,
    given: &Moving,
) -> Result<Rendered, Trouble>
    ensures { DeleteEnds (F.reads rt.now) K.Store.sight K.does stores.old stores.new
        given.now result }
{
    let request = move_request(rt, given, Done::Deleted)?;
    perform_at(rt.alloc(), stores, given.store, request)
}

/// What an import of a file into a customer's access tables set. Checked in the order directory,
/// customer, label, file, store, and then what the call refuses: 50, 51, 52 and 42.
pub fn import<F: Files, K: Stores>(
    rt: &F,
    stores: &mut K,
    given: &Import,
) -> Result<Rendered, Trouble>
    ensures { ImportEnds (F.reads rt.now) K.Store.sight K.does stores.old stores.new
        given.now result }
{
    let request = import_request(rt, given)?;
    perform_at(rt.alloc(), stores, given.store, request)
}

/// What a sweep of the queue of the customer of this name did. Checked in the order relay's name,
/// directory, customer, store, and then what the call refuses: 44.
pub fn sweep<F: Files, K: Stores>(
    rt: &F,
    stores: &mut K,
    given: &Sweep,
    name: &str,
) -> Result<Rendered, Trouble>
    ensures { SweepEnds (F.reads rt.now) K.Store.sight K.does stores.old stores.new given.now
        name.now result }
{
    let request = sweep_request(rt, given, name)?;
    perform_at(rt.alloc(), stores, given.store, request)
}
