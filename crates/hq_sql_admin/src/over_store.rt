//! One call over the store of a path.

ghost use Rattle.hq_sql_admin.specs.Calls.{PerformsAt};

use hq_admin::{AdminCall, perform};
use hq_rules::Rendered;
use hq_settings::Trouble;
use hq_sql_shelf::Stores;
use std::alloc::Global;

/// Does what is asked for over the store of a path, which is made if it is missing, and leaves it.
/// A store that cannot be opened is told as 90, 91, 92 or 93.
pub(crate) fn perform_at<K: Stores>(
    alloc: Global,
    stores: &mut K,
    path: &str,
    request: AdminCall,
) -> Result<Rendered, Trouble>
    ensures { PerformsAt K.Store.sight K.does path.now stores.old stores.new request result }
{
    let store = stores.open(path)?;
    let (store, done) = perform(alloc, store, request);
    stores.leave(store);
    Ok(done?)
}
