//! The shelf over a connection, its opening, and what it does where a statement fails.

ghost use Rattle.std.specs.Prelude.{◌≡◌, ◌≢◌, ⊤, true, false, IfOk, IfErr, OnOk};
ghost use Rattle.sqlite.specs.Held.{state};
ghost use Rattle.sqlite.specs.State.{HasCleanDisk};
ghost use Rattle.sqlite.specs.Steps.{over_memory};
ghost use Rattle.hq_values.specs.declared.failure.Fault.TheVariants.{BadSchema, Closed};
ghost use Rattle.hq_keyed.specs.Left.{IsQuiet, LeavesNoMore};
ghost use Rattle.hq_tables.specs.Shelves.{Keeps, StopLeavesTables, one_more};
ghost use Rattle.hq_sql.specs.Causes.{HasCause};
ghost use Rattle.hq_sql_open.specs.Faults.{IsCaused};
ghost use Rattle.hq_tables.specs.Tables.{no_tables};
ghost use Rattle.hq_sql.specs.Tables.{tables_in};
ghost use Rattle.hq_sql_open.specs.Opening.{IsForeign, Rests, LeavesEmptyDesk};
ghost use Rattle.hq_sql_open.specs.Standings.{Settles};
ghost use Rattle.hq_sql_open.specs.Transactions.{IsSettled, IsUndone};
ghost use Rattle.hq_sql_open.specs.declared.transaction.Standing.TheVariants.{Open};
ghost use Rattle.hq_sql_shelf.specs.Shelf.{sight_over, fault_left, fault_counted};
ghost use Rattle.hq_sql_shelf.specs.Shelf.{is_gone, is_doubtful, GivesUp, Adopts, IsOurs};

use crate::known::Known;
use hq_sql::SqliteMemory;
use hq_sql_open::transaction::{Standing, sees_database, settle};
use hq_sql_open::{fault_of, open};
use hq_values::Fault;
use sqlite::{Alter, Connection, Error, MemStore};
use std::alloc::Global;

/// The tables in a store of `sqlite`. Each call is one statement or a few, and each `apply` one
/// transaction, or no statement at all where there are no changes.
///
/// Its faults: 90 comes only where memory was refused. 91 is any other failure of a statement, or a
/// row that is no value of its type. 93 comes once the connection is gone, which only a failure of
/// the disk takes away, and then every call answers it.
#[derive(Drop)]
pub struct SqlShelf<S: Alter, M: SqliteMemory> {
    pub(crate) memory: M,
    pub(crate) conn: Connection<S>,
    pub(crate) standing: Known<M>,
    pub(crate) faults: u64,
}

/// The fault that is told once a statement failed with this error and left the connection so.
pub(crate) fn fault_after(standing: Standing, error: Error) -> Fault
    ensures { result ≡ fault_left standing error }
{
    match standing {
        Standing::Gone | Standing::Lost => Fault::Closed,
        Standing::Open | Standing::InDoubt | Standing::Unasked => fault_of(error),
    }
}

impl<S: Alter, M: SqliteMemory> SqlShelf<S, M> {
    fn over(memory: M, conn: Connection<S>) -> SqlShelf<S, M>
        ensures { result ≡ record { memory = memory; conn = conn; standing = Open; faults = 0 } }
    {
        SqlShelf {
            memory,
            conn,
            standing: Known::new(memory, Standing::Open),
            faults: 0,
        }
    }

    /// Opens a store as a desk. A store in which nothing was made yet, or the version table alone
    /// and without a row, gets empty tables in one transaction; one that has exactly the tables of
    /// schema 3, whose one version is 3, is taken as it is; any other is refused as 92 `BadSchema`,
    /// and stays as it is.
    ///
    /// It asks for a connection in no transaction, and keeps the memory. A refused connection
    /// comes back, and it holds what it held. 93 tells that it is gone. Wherever a stop comes, the
    /// store is left as it might have been before, or, where nothing was made in it, as a desk with
    /// empty tables. A desk that was taken and is ours is left with the tables that it has.
    #[tactic(auto, using(crate::proofs::Causes::left_caused))]
    pub fn adopt(
        memory: M,
        mut conn: Connection<S>,
    ) -> Result<SqlShelf<S, M>, (Fault, Connection<S>)>
        ensures opened { IfOk result (λ s. HasCleanDisk (state S.Store s.conn)
            → IsSettled (state S.Store conn)
            → Adopts (state S.Store conn) (state S.Store s.conn)) }
        ensures fresh { IfOk result (λ s. (s.standing ≡ Open) × (s.faults ≡ 0)) }
        ensures refused { IfErr result (λ e. HasCleanDisk (state S.Store e.1)
            → IsSettled (state S.Store conn) → e.0 ≡ BadSchema
            → IsForeign (state S.Store conn).now × Rests (state S.Store conn) (state S.Store e.1)) }
        ensures kept { IfErr result (λ e. HasCleanDisk (state S.Store e.1)
            → IsSettled (state S.Store conn)
            → IsUndone (state S.Store conn) (state S.Store e.1)) }
        ensures gone { IfErr result (λ e. HasCleanDisk (state S.Store e.1)
            → e.0 ≡ Closed → (state S.Store e.1).is_open ≡ false) }
        ensures quiet { IfOk result (λ s. IsQuiet (state S.Store conn) (state S.Store s.conn)) }
        ensures harmless { IfErr result (λ e. IsQuiet (state S.Store conn) (state S.Store e.1)) }
        ensures stops { IfOk result (λ s. IsSettled (state S.Store conn)
            → LeavesEmptyDesk (state S.Store conn) (state S.Store s.conn)) }
        ensures leaves { IfErr result (λ e. IsSettled (state S.Store conn)
            → LeavesEmptyDesk (state S.Store conn) (state S.Store e.1)) }
        ensures rests { IfOk result (λ s. HasCleanDisk (state S.Store s.conn)
            → IsOurs (state S.Store s.conn)
            → StopLeavesTables (sight_over M.refused M.failed (state S.Store)) s) }
        ensures cause { IfErr result (λ e. e.0 ≢ BadSchema
            → IsCaused M.refused M.failed e.0) }
    {
        match open(memory, &mut conn) {
            Ok(true) => {
                sees_database(&conn);
                Ok(SqlShelf::over(memory, conn))
            }
            Ok(false) => Err((Fault::BadSchema, conn)),
            Err(error) => {
                let standing = settle(memory, &mut conn);
                Err((fault_after(standing, error), conn))
            }
        }
    }

    /// Whether the shelf is in doubt of its connection, or lost it so, as it could not be asked in
    /// the very call in which the disk failed: then nothing is said of what a stop leaves.
    pub fn is_in_doubt(&self) -> bool
        ensures { result ≡ is_doubtful self.now.standing }
    {
        matches!(
            self.standing.get(),
            Standing::InDoubt | Standing::Unasked | Standing::Lost
        )
    }

    /// The connection, to be used otherwise.
    pub fn into_connection(self) -> Connection<S>
        ensures { result ≡ self.conn }
    {
        let SqlShelf { conn, .. } = self;
        conn
    }

    /// The fault of every call once the connection is gone.
    fn close(&mut self) -> Fault
        requires { is_gone self.old.standing ≡ true }
        ensures closed { self.new ≡ record self.old { faults = one_more self.old.faults } }
        ensures told { result ≡ Closed }
        ensures cause { M.failed }
    {
        let _gone = self.standing.get();
        self.count(Fault::Closed)
    }

    /// Asks a connection in doubt what became of it.
    fn ask_again(&mut self) -> Result<(), Fault>
        requires { is_gone self.old.standing ≡ false }
        ensures kept { Keeps (sight_over M.refused M.failed (state S.Store)) self.old self.new
            result }
        ensures open { OnOk result (self.new.standing ≡ Open) }
        ensures gone { HasCleanDisk (state S.Store self.new.conn)
            → is_gone self.new.standing ≡ true
            → (state S.Store self.new.conn).is_open ≡ false }
        ensures stops { LeavesNoMore (state S.Store self.old.conn) (state S.Store self.new.conn) }
    {
        let standing = settle(self.memory, &mut self.conn);
        match standing {
            Standing::Open => {
                self.standing = Known::new(self.memory, Standing::Open);
                Ok(())
            }
            Standing::Gone | Standing::Lost => {
                self.standing = Known::new(self.memory, Standing::Lost);
                Err(self.close())
            }
            Standing::InDoubt => {
                self.standing = Known::new(self.memory, Standing::InDoubt);
                Err(Fault::WantOfMemory)
            }
            Standing::Unasked => {
                self.standing = Known::new(self.memory, Standing::Unasked);
                Err(self.count(Fault::Disk))
            }
        }
    }

    /// Makes ready for a call. A shelf in doubt asks first what became of its connection; one that
    /// is gone refuses every call.
    pub(crate) fn ready(&mut self) -> Result<(), Fault>
        ensures kept { Keeps (sight_over M.refused M.failed (state S.Store)) self.old self.new
            result }
        ensures open { OnOk result (self.new.standing ≡ Open) }
        ensures gone { HasCleanDisk (state S.Store self.new.conn)
            → is_gone self.old.standing ≡ false → is_gone self.new.standing ≡ true
            → (state S.Store self.new.conn).is_open ≡ false }
        ensures stops { LeavesNoMore (state S.Store self.old.conn) (state S.Store self.new.conn) }
    {
        match self.standing.get() {
            Standing::Open => Ok(()),
            Standing::Gone | Standing::Lost => Err(self.close()),
            Standing::InDoubt | Standing::Unasked => self.ask_again(),
        }
    }

    /// The fault of a statement that failed; what was begun is undone.
    #[tactic(auto, using(crate::proofs::Causes::left_caused))]
    pub(crate) fn give_up(&mut self, error: Error) -> Fault
        ensures kept { Settles (state S.Store self.old.conn) (state S.Store self.new.conn)
            self.new.standing }
        ensures tally { GivesUp self.new.standing self.old.faults self.new.faults result }
        ensures told { result ≡ fault_left self.new.standing error }
        ensures cause { HasCause M.refused M.failed error
            → IsCaused M.refused M.failed result }
    {
        let standing = settle(self.memory, &mut self.conn);
        self.standing = Known::new(self.memory, standing);
        self.count(fault_after(standing, error))
    }

    /// Counts a fault: 91 and 93, and nothing else.
    fn count(&mut self, fault: Fault) -> Fault
        ensures counted { self.new ≡ record self.old
            { faults = fault_counted fault self.old.faults } }
        ensures same { result ≡ fault }
    {
        if matches!(fault, Fault::Disk | Fault::Closed) {
            self.faults = self.faults.saturating_add(1);
        }
        fault
    }
}

impl SqlShelf<MemStore, Global> {
    /// A shelf in memory, of which nobody has anything yet. It is no stranger's and never gone, so
    /// that 92 and 93 do not come.
    pub fn open_memory(alloc: Global) -> Result<SqlShelf<MemStore, Global>, Fault>
        ensures ours { IfOk result (λ s. IsOurs (state over_memory s.conn)) }
        ensures empty { IfOk result
            (λ s. tables_in (state over_memory s.conn).committed ≡ no_tables) }
        ensures fresh { IfOk result (λ s. (s.standing ≡ Open) × (s.faults ≡ 0)) }
        ensures rests { IfOk result (StopLeavesTables (sight_over ⊤ ⊤ (state over_memory))) }
        ensures cause { IfErr result (λ fault. (fault ≢ BadSchema) × (fault ≢ Closed)) }
    {
        let Ok(conn) = Connection::open_in_memory(alloc) else {
            return Err(Fault::WantOfMemory);
        };
        match SqlShelf::adopt(alloc, conn) {
            Ok(shelf) => Ok(shelf),
            Err((fault, _)) => Err(fault),
        }
    }
}
