//! Copies of the rows.

ghost use Rattle.std.specs.Prelude.{◌≡◌};

use crate::rows::{EndRow, HoldRow, LineRow, MarkRow, MessageRow, NoticeRow, RecipientRow};
use hq_memory::Memory;
use hq_values::TryCopy;
use std::alloc::AllocError;

impl TryCopy for MessageRow {
    fn copy<M: Memory>(&self, memory: M) -> Result<MessageRow, AllocError> {
        let customer = self.customer.copy(memory)?;
        let sender = self.sender.copy(memory)?;
        let spool = self.spool.copy(memory)?;
        Ok(MessageRow {
            customer,
            serial: self.serial,
            sender,
            spool,
            size: self.size,
            arrival: self.arrival,
            state: self.state,
            next_try: self.next_try,
            attempts: self.attempts,
            warned: self.warned,
        })
    }
}

impl TryCopy for RecipientRow {
    fn copy<M: Memory>(&self, memory: M) -> Result<RecipientRow, AllocError> {
        let customer = self.customer.copy(memory)?;
        let pending = self.pending.copy(memory)?;
        Ok(RecipientRow {
            customer,
            serial: self.serial,
            place: self.place,
            pending,
        })
    }
}

impl TryCopy for HoldRow {
    fn copy<M: Memory>(&self, memory: M) -> Result<HoldRow, AllocError> {
        let customer = self.customer.copy(memory)?;
        let reason = self.reason.copy(memory)?;
        Ok(HoldRow {
            customer,
            serial: self.serial,
            reason,
        })
    }
}

impl TryCopy for LineRow {
    fn copy<M: Memory>(&self, memory: M) -> Result<LineRow, AllocError> {
        let customer = self.customer.copy(memory)?;
        let line = self.line.copy(memory)?;
        Ok(LineRow { customer, line })
    }
}

impl TryCopy for MarkRow {
    fn copy<M: Memory>(&self, memory: M) -> Result<MarkRow, AllocError> {
        let customer = self.customer.copy(memory)?;
        let mark = self.mark.copy(memory)?;
        Ok(MarkRow { customer, mark })
    }
}

impl TryCopy for NoticeRow {
    fn copy<M: Memory>(&self, memory: M) -> Result<NoticeRow, AllocError> {
        let customer = self.customer.copy(memory)?;
        let notice = self.notice.copy(memory)?;
        Ok(NoticeRow { customer, notice })
    }
}

impl TryCopy for EndRow {
    fn copy<M: Memory>(&self, memory: M) -> Result<EndRow, AllocError> {
        let customer = self.customer.copy(memory)?;
        let end = self.end.copy(memory)?;
        Ok(EndRow { customer, end })
    }
}
