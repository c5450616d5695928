//! Laws of a desk's store, as functions that do nothing else and whose contracts are the laws.

ghost use Rattle.std.specs.Prelude.{◌≡◌, ◌⊎◌, false, ℕ, List, [], length, map};
ghost use Rattle.hq_wire.specs.Runs.{deeds};
ghost use Rattle.std.specs.List.{AllZip};
ghost use Rattle.sqlite.specs.Held.{state};
ghost use Rattle.sqlite.specs.State.{HasCleanDisk};
ghost use Rattle.hq_values.specs.Turns.{InTurn};
ghost use Rattle.hq_tables.specs.Shelves.{StopLeaves};
ghost use Rattle.hq_tables.specs.Sound.{Sound};
ghost use Rattle.hq_tables.specs.Tables.{no_tables};
ghost use Rattle.hq_sql.specs.Tables.{tables_in};
ghost use Rattle.hq_rules.specs.Desks.{or_memory};
ghost use Rattle.hq_desk.specs.Desks.{on};
ghost use Rattle.hq_across.specs.Answered.{NoFault, as_asked};
ghost use Rattle.hq_sql_shelf.specs.Shelf.{IsOurs};
ghost use Rattle.hq_sql_shelf.specs.Stops.{LeavesOnly};
ghost use Rattle.hq_sql_open.specs.Faults.{IsCaused};
ghost use Rattle.hq_sql_open.specs.Transactions.{IsSettled};
ghost use Rattle.hq_sql_open.specs.Stores.{IsFirst, IsSecond};
ghost use Rattle.hq_values.specs.declared.failure.Fault.{Fault};
ghost use Rattle.hq_requests.specs.declared.directory.Directory.{Directory};
ghost use Rattle.hq_requests.specs.declared.exchanges.Exchange.{Exchange};
ghost use Rattle.hq_requests.specs.declared.reply.Reply.{Reply};
ghost use Rattle.hq_wire.specs.Exchanges.{Ask, with_refusals};
ghost use Rattle.hq_wire.specs.Replies.{SeenReply};
ghost use Rattle.hq_across.specs.Histories.{Passed, Session};
ghost use Rattle.hq_across.specs.Sessions.{IsJustOpened};
ghost use Rattle.hq_together.specs.Sessions.{all_in};
ghost use Rattle.hq_together.specs.Together.{ServedInRound};
ghost use Rattle.hq_sql_across.specs.Rounds.{IsCutIn};
ghost use Rattle.hq_sql_across.specs.Stopped.{BeginsHistory, BeginsUpgraded, IsServed, IsReplyTo};

use hq_memory::Memory;
use hq_rules::Acts;
use hq_sql::SqliteMemory;
use hq_sql_open::transaction::sees_database;
use hq_sql_shelf::{SqlShelf, migrate};
use hq_tables::Shelf;
use hq_values::Fault;
use sqlite::{Alter, Connection};
use std::alloc::Global;

/// Wherever the process or its machine stops, an open desk leaves a desk with the tables that it
/// has.
pub fn open_desk_leaves_its_tables<S: Alter>(conn: &Connection<S>)
    ensures { HasCleanDisk (state S.Store conn.now) → IsOurs (state S.Store conn.now)
        → LeavesOnly (state S.Store conn.now) (tables_in (state S.Store conn.now).committed) }
{
    sees_database(conn);
}

/// Over `sqlite` each fault has its cause. 90 is answered only where memory was refused, that of
/// the call or that of the shelf. 91 and 93 are answered only where the store failed: a call of
/// `sqlite` ended in an error, or a value is none that the desk writes.
///
/// So no fault is answered where none of that was. Then `hq_across::laws::all_is_answered` says
/// that every call is answered as its definition has it.
pub fn faults_have_causes<S: Alter, M: SqliteMemory, N: Memory>()
    ensures causes { (fault : Fault)
        → (or_memory N.refused (on ⟦<SqlShelf<S, M> as Shelf>⟧.sight).store).may_answer fault
        → IsCaused (N.refused ⊎ M.refused) M.failed fault }
    ensures none { (N.refused → ⊥) → (M.refused → ⊥) → (M.failed → ⊥)
        → NoFault (or_memory N.refused (on ⟦<SqlShelf<S, M> as Shelf>⟧.sight).store) }
{}

/// Wherever the process or its machine stops in a migration, an opening finds the store of version
/// 1 as it was, or a desk from which a history goes on, in which each customer has its own state,
/// lifted. It migrates as `migrate` does.
pub fn migration_begins_a_history<S: Alter>(
    alloc: Global,
    conn: &mut Connection<S>,
) -> Result<u64, Fault>
    ensures { HasCleanDisk (state S.Store conn.new) → IsSettled (state S.Store conn.old)
        → IsFirst (state S.Store conn.old).now
        → BeginsHistory (state S.Store conn.old) (state S.Store conn.new) }
{
    migrate(alloc, conn)
}

/// Wherever the process or its machine stops in a migration, an opening finds the store of version
/// 2 as it was, or a desk with its tables, from which a history goes on. It migrates as `migrate`
/// does.
pub fn later_migration_begins_a_history<S: Alter>(
    alloc: Global,
    conn: &mut Connection<S>,
) -> Result<u64, Fault>
    ensures { HasCleanDisk (state S.Store conn.new) → IsSettled (state S.Store conn.old)
        → IsSecond (state S.Store conn.old).now
        → BeginsUpgraded (state S.Store conn.old) (state S.Store conn.new) }
{
    migrate(alloc, conn)
}

/// What a session sends, whatever becomes of its store: nothing at all, or one reply to each
/// exchange, and each tells what `Tells` allows of what was asked.
pub fn each_reply_tells()
    ensures { (d : Directory) (exchanges : List Exchange) (replies : List Reply) (s : Session)
        → IsServed d exchanges replies s
        → (replies ≡ []) ⊎ AllZip (IsReplyTo d) exchanges replies }
{}

/// A stop in a round of which no reply left, wherever in it that comes. The rounds before it are a
/// session, and under way are calls of the exchanges of that round, of each the first. The first
/// of these were done, and nothing else. Which calls these are, no clause says before the stop.
pub fn cut_rounds_are_a_session<D: Acts, M: Memory>()
    ensures { (d : Directory) (old mid new : D) (asked : List (List Ask))
        (replied : List (List SeenReply)) (asks : List Ask) (rs : List SeenReply)
        → InTurn (ServedInRound (with_refusals M.refused D.sight) d) old asked replied mid
        → ServedInRound (with_refusals M.refused D.sight) d mid asks rs new
        → D.sight.store.is_closed mid ≡ false
        → IsJustOpened (with_refusals M.refused D.sight) old
        → D.sight.store.is_clean new → StopLeaves D.sight.store new
        (IsCutIn (D.sight.host old) d asked replied asks (D.sight.store.tables old)) }
{}

/// A process that dies after the commit of a round, with no reply of it sent: all that the round
/// did is under way, and was done.
pub fn unsent_round_is_under_way<D: Acts, M: Memory>()
    ensures { (d : Directory) (old mid new : D) (asked : List (List Ask))
        (replied : List (List SeenReply)) (asks : List Ask) (rs : List SeenReply)
        → InTurn (ServedInRound (with_refusals M.refused D.sight) d) old asked replied mid
        → ServedInRound (with_refusals M.refused D.sight) d mid asks rs new
        → D.sight.store.is_closed new ≡ false
        → IsJustOpened (with_refusals M.refused D.sight) old
        → D.sight.store.is_clean new → StopLeaves D.sight.store new (λ t'.
        (it : Passed (D.sight.host old) (record {
          directory = d;
          asked = all_in asked;
          replies = all_in replied;
          under_way = map as_asked (deeds asks rs);
        }) (D.sight.store.tables old) t')
        × (it.found.0 ≡ length (map as_asked (deeds asks rs)))) }
{}

/// Tables without a row are sound. So a history that begins with a store in which nothing was made
/// has sound tables all along, whatever that means.
pub fn empty_tables_are_sound()
    ensures { Sound no_tables }
{}
