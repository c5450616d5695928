//! What can be changed of one customer.

ghost use Rattle.std.specs.Prelude.{◌≡◌};

use hq_kept::{Ends, Head, Line, Mark, Message, Notice, Pattern};
use hq_memory::Memory;
use hq_values::{Serial, TryCopy};
use std::alloc::AllocError;

/// One change of one customer's rows.
#[derive(Drop)]
pub enum Change {
    /// Sets the head.
    PutHead(Head),
    /// Sets the message of this serial, and deals its recipients anew.
    PutMessage(Message),
    /// Drops the message of this serial and all its recipients; nothing where there is none.
    DropMessage(Serial),
    /// Sets the line of its pattern.
    PutLine(Line),
    /// Drops the line of this pattern; nothing where there is none.
    DropLine(Pattern),
    /// Sets the mark of its label.
    PutMark(Mark),
    /// Sets the notice of its number.
    AddNotice(Notice),
    /// Drops the notices of numbers below this one.
    DropNoticesBelow(u64),
    /// Sets these ends, in place of all from the number of the first of them on.
    PutEnds(Ends),
    /// Drops the ends of numbers up to this one.
    DropEndsTo(u64),
}

impl TryCopy for Change {
    fn copy<M: Memory>(&self, memory: M) -> Result<Change, AllocError> {
        match self {
            Change::PutHead(head) => Ok(Change::PutHead(*head)),
            Change::PutMessage(message) => Ok(Change::PutMessage(message.copy(memory)?)),
            Change::DropMessage(serial) => Ok(Change::DropMessage(*serial)),
            Change::PutLine(line) => Ok(Change::PutLine(line.copy(memory)?)),
            Change::DropLine(pattern) => Ok(Change::DropLine(pattern.copy(memory)?)),
            Change::PutMark(mark) => Ok(Change::PutMark(mark.copy(memory)?)),
            Change::AddNotice(notice) => Ok(Change::AddNotice(notice.copy(memory)?)),
            Change::DropNoticesBelow(number) => Ok(Change::DropNoticesBelow(*number)),
            Change::PutEnds(ends) => Ok(Change::PutEnds(ends.copy(memory)?)),
            Change::DropEndsTo(number) => Ok(Change::DropEndsTo(*number)),
        }
    }
}
