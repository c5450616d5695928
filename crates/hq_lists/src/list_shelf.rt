//! The shelf of plain lists.

ghost use Rattle.std.specs.Prelude.{◌≡◌};
ghost use Rattle.hq_tables.specs.Tables.{no_tables};
ghost use Rattle.hq_lists.specs.Lists.{tables_of};

use crate::list_rows::ListRows;
use crate::{ends, heads, lines, marks, messages, notices};
use hq_kept::{Action, Class, End, Line, LookupKey, Mark, Message, Notice, Pattern};
use hq_memory::Memory;
use hq_moves::MovesMessages;
use hq_tables::{Account, Change, Shelf};
use hq_values::{Fault, Items, Label, Moment, Name, Serial, Spool};
use std::marker::Model;

/// The tables in plain lists in memory: slow, and simple to look through. Its only fault is 90,
/// where its memory refused a request, and it never closes.
#[derive(Drop)]
pub struct ListShelf<M: Memory> {
    memory: M,
    rows: ListRows,
}

/// Seen as its rows. They lie so that no message and no line stands twice, and recipients in the
/// order of their places; and each customer of whom there is a message or a line has a head.
impl<M: Memory> Model for ListShelf<M> {
    ghost use Rattle.hq_lists.specs.declared.list_rows.ListRows.{ListRows};
    ghost use Rattle.hq_lists.specs.Lists.{AreInOrder, tables_of};
    ghost use Rattle.hq_tables.specs.Sound.{AreCounted};

    ghost Value = { ListRows };

    ghost view = { λ s. s.rows };

    ghost invariant = { λ s. AreInOrder s.rows × AreCounted (tables_of s.rows) };
}

impl<M: Memory> ListShelf<M> {
    /// A shelf of which nobody has anything yet. It keeps the memory; this call takes none.
    pub fn new(memory: M) -> ListShelf<M>
        ensures { tables_of result ≡ no_tables }
    {
        let rows = ListRows {
            heads: memory.none(),
            messages: memory.none(),
            recipients: memory.none(),
            holds: memory.none(),
            lines: memory.none(),
            marks: memory.none(),
            notices: memory.none(),
            ends: memory.none(),
        };
        ListShelf { memory, rows }
    }
}

impl<M: Memory> Shelf for ListShelf<M> {
    ghost use Rattle.std.specs.Prelude.{◌≡◌, ⊤, false};
    ghost use Rattle.hq_values.specs.declared.failure.Fault.TheVariants.{WantOfMemory};
    ghost use Rattle.hq_lists.specs.Lists.{tables_of};

    /// It is always clean and open. It is in memory, and nothing opens it again: no opening finds
    /// anything.
    ghost sight = { record {
      tables = tables_of;
      is_closed = λ _. false;
      fault_count = λ _. 0;
      is_clean = λ _. ⊤;
      is_ours = λ _. ⊤;
      may_answer = λ fault. (fault ≡ WantOfMemory) × M.refused;
      may_leave = λ _ _. ⊥;
      leaves_desk = λ _. ⊤;
      goes_back = λ _ _. ⊤;
    } };

    fn account(&mut self, customer: &Name) -> Result<Account, Fault> {
        Ok(heads::account_in(
            self.rows.heads.as_slice(),
            self.rows.messages.as_slice(),
            self.rows.lines.as_slice(),
            customer,
        ))
    }

    fn message(&mut self, customer: &Name, serial: Serial) -> Result<Option<Message>, Fault> {
        Ok(messages::message_in(self.memory, self.rows.queue(), customer, serial)?)
    }

    fn by_spool(&mut self, customer: &Name, spool: &Spool) -> Result<Option<Message>, Fault> {
        Ok(messages::by_spool_in(self.memory, self.rows.queue(), customer, spool)?)
    }

    fn messages(
        &mut self,
        customer: &Name,
        after: Option<Serial>,
        limit: usize,
    ) -> Result<Items<Message>, Fault> {
        Ok(messages::page_in(self.memory, self.rows.queue(), customer, after, limit)?)
    }

    fn due(
        &mut self,
        customer: &Name,
        at: Moment,
        after: Option<Serial>,
        limit: usize,
    ) -> Result<Items<Message>, Fault> {
        Ok(messages::due_in(self.memory, self.rows.queue(), customer, at, after, limit)?)
    }

    fn line(
        &mut self,
        customer: &Name,
        class: Class,
        key: &LookupKey,
    ) -> Result<Option<Action>, Fault> {
        Ok(lines::line_in(
            self.memory,
            self.rows.lines.as_slice(),
            customer,
            class,
            key,
        )?)
    }

    fn lines(
        &mut self,
        customer: &Name,
        after: Option<&Pattern>,
        limit: usize,
    ) -> Result<Items<Line>, Fault> {
        let rows = self.rows.lines.as_slice();
        Ok(lines::page_in(self.memory, rows, customer, after, limit)?)
    }

    fn mark(&mut self, customer: &Name, label: &Label) -> Result<Option<Mark>, Fault> {
        Ok(marks::mark_in(self.memory, self.rows.marks.as_slice(), customer, label)?)
    }

    fn notice(&mut self, customer: &Name, number: u64) -> Result<Option<Notice>, Fault> {
        Ok(notices::notice_in(self.memory, self.rows.notices.as_slice(), customer, number)?)
    }

    fn notices(
        &mut self,
        customer: &Name,
        after: Option<u64>,
        limit: usize,
    ) -> Result<Items<Notice>, Fault> {
        Ok(notices::page_in(
            self.memory,
            self.rows.notices.as_slice(),
            customer,
            after,
            limit,
        )?)
    }

    fn ends(
        &mut self,
        customer: &Name,
        before: Option<u64>,
        limit: usize,
    ) -> Result<Items<End>, Fault> {
        Ok(ends::page_in(
            self.memory,
            self.rows.ends.as_slice(),
            customer,
            before,
            limit,
        )?)
    }

    fn apply(&mut self, customer: &Name, changes: &[Change]) -> Result<(), Fault> {
        let mut next = self.rows.copy(self.memory)?;
        next.change_all(self.memory, customer, changes)?;
        self.rows = next;
        Ok(())
    }

    fn faults(&self) -> u64 {
        0
    }
}

/// The plain lists read and change the messages one by one.
impl<M: Memory> MovesMessages for ListShelf<M> {}
