//! The rows of all tables in plain lists, and what a change does to them.

ghost use Rattle.std.specs.Prelude.{◌≡◌, IfOk, OnOk};
ghost use Rattle.hq_memory.specs.Making.{MadeIn};
ghost use Rattle.hq_tables.specs.Tables.{write_all};
ghost use Rattle.hq_tables.specs.Sound.{AreCounted};
ghost use Rattle.hq_tables.specs.declared.change.Change.TheVariants.{PutMessage, DropMessage};
ghost use Rattle.hq_tables.specs.declared.change.Change.TheVariants.{PutLine};
ghost use Rattle.hq_lists.specs.Lists.{tables_of, AreInOrder};
ghost use Rattle.hq_lists.specs.Made.{IsMade};

use crate::heads::ListedHead;
use crate::{ends, heads, holds, lines, marks, messages, notices, recipients};
use hq_kept::{Line, Message};
use hq_memory::Memory;
use hq_rows::{EndRow, HoldRow, LineRow, MarkRow, MessageRow, NoticeRow, RecipientRow};
use hq_tables::Change;
use hq_values::{Name, Serial, TryCopy, copy_all};
use std::alloc::AllocError;

/// The rows of all tables. Heads are listed without the counts, which are those of the rows.
#[derive(Drop)]
pub struct ListRows {
    pub heads: Vec<ListedHead>,
    pub messages: Vec<MessageRow>,
    pub recipients: Vec<RecipientRow>,
    pub holds: Vec<HoldRow>,
    pub lines: Vec<LineRow>,
    pub marks: Vec<MarkRow>,
    pub notices: Vec<NoticeRow>,
    pub ends: Vec<EndRow>,
}

/// The rows that messages are read from.
#[derive(Clone, Copy)]
pub struct QueueRows<'r> {
    pub messages: &'r [MessageRow],
    pub recipients: &'r [RecipientRow],
    pub holds: &'r [HoldRow],
}

impl ListRows {
    /// The rows that messages are read from.
    pub fn queue(&self) -> QueueRows<'_>
        ensures messages { result.messages.now ≡ self.now.messages.items }
        ensures recipients { result.recipients.now ≡ self.now.recipients.items }
        ensures holds { result.holds.now ≡ self.now.holds.items }
    {
        QueueRows {
            messages: self.messages.as_slice(),
            recipients: self.recipients.as_slice(),
            holds: self.holds.as_slice(),
        }
    }

    /// The same rows on their own.
    pub fn copy<M: Memory>(&self, memory: M) -> Result<ListRows, AllocError>
        ensures tables { MadeIn M.refused result (λ copy. tables_of copy ≡ tables_of self.now) }
        ensures order { AreInOrder self.now → IfOk result AreInOrder }
    {
        let heads = copy_all(memory, self.heads.as_slice())?;
        let messages = copy_all(memory, self.messages.as_slice())?;
        let recipients = copy_all(memory, self.recipients.as_slice())?;
        let holds = copy_all(memory, self.holds.as_slice())?;
        let lines = copy_all(memory, self.lines.as_slice())?;
        let marks = copy_all(memory, self.marks.as_slice())?;
        let notices = copy_all(memory, self.notices.as_slice())?;
        let ends = copy_all(memory, self.ends.as_slice())?;
        Ok(ListRows {
            heads,
            messages,
            recipients,
            holds,
            lines,
            marks,
            notices,
            ends,
        })
    }

    /// Puts a message. After an error the rows are given up.
    fn put_message<M: Memory>(
        &mut self,
        memory: M,
        customer: &Name,
        message: &Message,
    ) -> Result<(), AllocError>
        ensures made { MadeIn M.refused result
            (λ _. IsMade customer.now (PutMessage message.now) self.old self.new) }
        ensures order { AreInOrder self.old → OnOk result (AreInOrder self.new) }
    {
        let serial = message.serial;
        heads::keep_head(memory, &mut self.heads, customer)?;
        messages::put_message(memory, &mut self.messages, customer, message)?;
        recipients::put_recipients(
            memory,
            &mut self.recipients,
            customer,
            serial,
            message.pending.as_slice(),
        )?;
        holds::put_hold(memory, &mut self.holds, customer, serial, &message.reason)
    }

    /// Drops a message.
    fn drop_message(&mut self, customer: &Name, serial: Serial)
        ensures made { IsMade customer.now (DropMessage serial) self.old self.new }
        ensures order { AreInOrder self.old → AreInOrder self.new }
    {
        messages::drop_message(&mut self.messages, customer, serial);
        recipients::drop_recipients(&mut self.recipients, customer, serial);
        holds::drop_hold(&mut self.holds, customer, serial);
    }

    /// Puts a line. After an error the rows are given up.
    fn put_line<M: Memory>(
        &mut self,
        memory: M,
        customer: &Name,
        line: &Line,
    ) -> Result<(), AllocError>
        ensures made { MadeIn M.refused result
            (λ _. IsMade customer.now (PutLine line.now) self.old self.new) }
        ensures order { AreInOrder self.old → OnOk result (AreInOrder self.new) }
    {
        heads::keep_head(memory, &mut self.heads, customer)?;
        lines::put_line(memory, &mut self.lines, customer, line)
    }

    /// Makes one change. After an error the rows are given up.
    fn change<M: Memory>(
        &mut self,
        memory: M,
        customer: &Name,
        change: &Change,
    ) -> Result<(), AllocError>
        ensures made { MadeIn M.refused result
            (λ _. IsMade customer.now change.now self.old self.new) }
        ensures order { AreInOrder self.old → OnOk result (AreInOrder self.new) }
    {
        match change {
            Change::PutHead(head) => heads::put_head(memory, &mut self.heads, customer, *head)?,
            Change::PutMessage(message) => self.put_message(memory, customer, message)?,
            Change::DropMessage(serial) => self.drop_message(customer, *serial),
            Change::PutLine(line) => self.put_line(memory, customer, line)?,
            Change::DropLine(pattern) => lines::drop_line(&mut self.lines, customer, pattern),
            Change::PutMark(mark) => marks::put_mark(memory, &mut self.marks, customer, mark)?,
            Change::AddNotice(notice) => {
                notices::put_notice(memory, &mut self.notices, customer, notice)?
            }
            Change::DropNoticesBelow(number) => {
                notices::drop_below(&mut self.notices, customer, *number)
            }
            Change::PutEnds(ends) => ends::put_ends(memory, &mut self.ends, customer, ends)?,
            Change::DropEndsTo(number) => ends::drop_to(&mut self.ends, customer, *number),
        }
        Ok(())
    }

    /// Makes all changes in order. After an error the rows are given up.
    pub fn change_all<M: Memory>(
        &mut self,
        memory: M,
        customer: &Name,
        changes: &[Change],
    ) -> Result<(), AllocError>
        ensures made { AreCounted (tables_of self.old) → MadeIn M.refused result
            (λ _. tables_of self.new ≡ write_all customer.now changes.now (tables_of self.old)) }
        ensures order { AreInOrder self.old → OnOk result (AreInOrder self.new) }
    {
        for change in changes {
            self.change(memory, customer, change)?;
        }
        Ok(())
    }
}
