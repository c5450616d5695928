//! What a shelf knows of its connection, with the reason why.

ghost use Rattle.std.specs.Prelude.{◌≡◌};
ghost use Rattle.hq_sql_open.specs.Standings.{HasReason};

use hq_sql::SqliteMemory;
use hq_sql_open::transaction::Standing;
use std::marker::Model;

/// What is known of a connection. It is gone, or could not be asked, only for a reason: memory was
/// refused, or the store failed, in this call or in an earlier one.
#[derive(Drop)]
pub(crate) struct Known<M: SqliteMemory> {
    memory: M,
    standing: Standing,
}

/// Seen as the standing.
impl<M: SqliteMemory> Model for Known<M> {
    ghost use Rattle.hq_sql_open.specs.Standings.{HasReason};
    ghost use Rattle.hq_sql_open.specs.declared.transaction.Standing.{Standing};

    ghost Value = { Standing };

    ghost view = { λ k. k.standing };

    ghost invariant = { λ k. HasReason M.refused M.failed k.standing };
}

impl<M: SqliteMemory> Known<M> {
    /// It keeps the memory, of which the reason speaks.
    pub(crate) fn new(memory: M, standing: Standing) -> Known<M>
        requires { HasReason M.refused M.failed standing }
        ensures { result ≡ standing }
    {
        Known { memory, standing }
    }

    /// The standing.
    pub(crate) fn get(&self) -> Standing
        ensures same { result ≡ self.now }
        ensures reason { HasReason M.refused M.failed self.now }
    {
        self.standing
    }
}
