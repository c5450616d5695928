//! A store of version 1 or 2 becomes one of version 3.

ghost use Rattle.std.specs.Prelude.{◌≡◌, ◌≢◌, IfOk, IfErr};
ghost use Rattle.sqlite.specs.Held.{state};
ghost use Rattle.sqlite.specs.State.{HasCleanDisk};
ghost use Rattle.hq_keyed.specs.Left.{IsQuiet, LeavesNoMore};
ghost use Rattle.hq_values.specs.Words.{earlier_hold};
ghost use Rattle.hq_values.specs.declared.failure.Fault.TheVariants.{BadSchema};
ghost use Rattle.hq_sql_open.specs.Faults.{IsCaused};
ghost use Rattle.hq_sql_open.specs.Migration.{IsFirstStore, IsSecondStore};
ghost use Rattle.hq_sql_open.specs.Stores.{IsFirst, IsSecond, lifted_in, second_tables_in};
ghost use Rattle.hq_sql_open.specs.Transactions.{IsSettled};
ghost use Rattle.hq_sql_shelf.specs.Migration.{IsMigrated, IsUpgraded, TellsVersion};
ghost use Rattle.hq_sql_shelf.specs.Migration.{LeavesEither};

use crate::shelf::fault_after;
use hq_sql::SqliteMemory;
use hq_sql_open::migration;
use hq_sql_open::transaction::settle;
use hq_values::{Fault, Text};
use sqlite::{Alter, Connection};

/// Makes a store of version 3 of one of version 1 or 2, in one transaction, with no history. Of
/// version 1 each message on hold gets the reason `held before version 2`, and it tells how many
/// are on hold; all else stays. Of version 2 all stays, and 0 is told. A store of version 3 stays
/// as it is, and 0 is told. Any other, one in which nothing was made too, is refused as 92
/// `BadSchema`, and stays as it is.
///
/// It asks for a connection in no transaction. After 90, 91 and 92 the store holds what it held; 93
/// tells that the connection is gone. Wherever in it a stop comes, the store is as before or whole.
#[tactic(auto, using(crate::proofs::Causes::left_caused))]
pub fn migrate<S: Alter, M: SqliteMemory>(memory: M, conn: &mut Connection<S>) -> Result<u64, Fault>
    ensures lifts { HasCleanDisk (state S.Store conn.new)
        → IsSettled (state S.Store conn.old) → IsFirst (state S.Store conn.old).now
        → IfOk result (λ count.
        IsMigrated count (state S.Store conn.old) (state S.Store conn.new)) }
    ensures upgrades { HasCleanDisk (state S.Store conn.new)
        → IsSettled (state S.Store conn.old) → IsSecond (state S.Store conn.old).now
        → IfOk result (λ count. (count ≡ 0)
        × IsUpgraded (state S.Store conn.old) (state S.Store conn.new)) }
    ensures told { HasCleanDisk (state S.Store conn.new) → IsSettled (state S.Store conn.old)
        → TellsVersion result (state S.Store conn.old) (state S.Store conn.new) }
    ensures stops { IsSettled (state S.Store conn.old) → IsFirst (state S.Store conn.old).now
        → LeavesEither (lifted_in earlier_hold (state S.Store conn.old).now)
        (state S.Store conn.old) (state S.Store conn.new) }
    ensures later_stops { IsSettled (state S.Store conn.old) → IsSecond (state S.Store conn.old).now
        → LeavesEither (second_tables_in (state S.Store conn.old).now)
        (state S.Store conn.old) (state S.Store conn.new) }
    ensures others { (¬ IsFirstStore (state S.Store conn.old).now)
        → (¬ IsSecondStore (state S.Store conn.old).now)
        → LeavesNoMore (state S.Store conn.old) (state S.Store conn.new) }
    ensures quiet { IsQuiet (state S.Store conn.old) (state S.Store conn.new) }
    ensures cause { IfErr result (λ fault. fault ≢ BadSchema
        → IsCaused M.refused M.failed fault) }
{
    let reason = Text::earlier_hold(memory)?;
    let told = match migration(memory, conn, reason.as_str()) {
        Ok(told) => told,
        Err(error) => {
            let standing = settle(memory, conn);
            return Err(fault_after(standing, error));
        }
    };
    let Some(count) = told else {
        return Err(Fault::BadSchema);
    };
    Ok(count as u64)
}
