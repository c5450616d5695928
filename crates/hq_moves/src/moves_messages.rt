//! What a shelf does that moves one message of a customer, and moves or drops all.

ghost use Rattle.std.specs.Prelude.{◌≡◌, Some, true, is_some, OnOk};
ghost use Rattle.hq_memory.specs.Making.{MadeIn};
ghost use Rattle.hq_tables.specs.Readings.{read_tables};
ghost use Rattle.hq_tables.specs.Shelves.{FindsSound, Keeps, KeepsOnErr, OnSound, StopLeavesWhole};
ghost use Rattle.hq_tables.specs.Tables.{write_all};
ghost use Rattle.hq_rules.specs.Desks.{or_memory};
ghost use Rattle.hq_rules.specs.Queues.{moved_by, moves_of};
ghost use Rattle.hq_reads.specs.Memory.{with_memory};
ghost use Rattle.hq_moves.specs.Moved.{all_moved, moved_count, DropAll};
ghost use Rattle.hq_moves.specs.Moved.{move_found, one_moved, would_move};

use hq_decisions::{messages, queues};
use hq_kept::{Message, QueueState};
use hq_memory::Memory;
use hq_rules::{Decision, Move};
use hq_tables::{Change, Shelf};
use hq_values::{Fault, Items, Name, Serial};
use std::alloc::AllocError;

/// The most messages that a customer can have.
const MOST_MESSAGES: usize = 1000;

/// The changes of the move, of the messages as they are read.
fn changes_of<S: Shelf, M: Memory>(
    shelf: &mut S,
    memory: M,
    customer: &Name,
    by: Move,
) -> Result<Items<Change>, Fault>
    ensures found { FindsSound S.sight shelf.old shelf.new result customer.now
        (λ rows. moves_of by rows.messages) }
    ensures kept { Keeps (with_memory M.refused S.sight) shelf.old shelf.new result }
{
    let messages = shelf.messages(customer, None, MOST_MESSAGES)?;
    let decision = queues::move_all(memory, by, messages)?;
    Ok(decision.changes)
}

/// What the move makes of the message that was found.
fn decide_move<M: Memory>(
    memory: M,
    by: Move,
    found: Option<Message>,
) -> Result<Decision, AllocError>
    ensures { MadeIn M.refused result (λ decision. decision ≡ move_found by found) }
{
    match by {
        Move::Hold => messages::hold_found(memory, found),
        Move::Release(at) => messages::release_found(memory, at, found),
    }
}

/// Whether the move changes a message.
fn applies(by: Move, message: &Message) -> bool
    ensures { result ≡ is_some (moved_by by message.now) }
{
    match (by, message.state) {
        (Move::Hold, QueueState::Hold) => false,
        (Move::Hold, _) => true,
        (Move::Release(_), QueueState::Hold) => true,
        (Move::Release(_), _) => false,
    }
}

/// A shelf that moves one message of a customer, and moves or drops all, in its own way.
pub trait MovesMessages: Shelf {
    /// How many of the customer's messages the move changes.
    fn moving<M: Memory>(&mut self, memory: M, customer: &Name, by: Move) -> Result<u64, Fault>
        ensures found { FindsSound Self.sight self.old self.new result customer.now
            (moved_count by) }
        ensures kept { Keeps (or_memory M.refused Self.sight) self.old self.new result }
    {
        let changes = changes_of(self, memory, customer, by)?;
        Ok(changes.as_slice().len() as u64)
    }

    /// Makes the move of all the customer's messages, or of none: so also where the process or its
    /// machine stops in it.
    fn move_all<M: Memory>(&mut self, memory: M, customer: &Name, by: Move) -> Result<(), Fault>
        ensures made { OnSound Self.sight self.old self.new
            (OnOk result (Self.sight.tables self.new
            ≡ all_moved customer.now by (Self.sight.tables self.old))) }
        ensures stops { OnSound Self.sight self.old self.new (StopLeavesWhole Self.sight self.old
            self.new (all_moved customer.now by (Self.sight.tables self.old))) }
        ensures kept { KeepsOnErr (or_memory M.refused Self.sight) self.old self.new result }
    {
        let changes = changes_of(self, memory, customer, by)?;
        self.apply(customer, changes.as_slice())
    }

    /// Whether the move changes the customer's message of a serial; none, where it has no such
    /// message.
    fn would_move(
        &mut self,
        customer: &Name,
        serial: Serial,
        by: Move,
    ) -> Result<Option<bool>, Fault>
        ensures found { FindsSound Self.sight self.old self.new result customer.now
            (would_move by serial) }
        ensures kept { Keeps Self.sight self.old self.new result }
    {
        match self.message(customer, serial)? {
            None => Ok(None),
            Some(message) => Ok(Some(applies(by, &message))),
        }
    }

    /// Makes the move of the customer's message of a serial, or nothing. Where the move does not
    /// change that message, no promise is made of the tables after `Ok`.
    fn move_one<M: Memory>(
        &mut self,
        memory: M,
        customer: &Name,
        serial: Serial,
        by: Move,
    ) -> Result<(), Fault>
        ensures made { OnSound Self.sight self.old self.new
            (would_move by serial (read_tables customer.now (Self.sight.tables self.old))
            ≡ Some true → OnOk result (Self.sight.tables self.new
            ≡ one_moved customer.now serial by (Self.sight.tables self.old))) }
        ensures stops { OnSound Self.sight self.old self.new
            (would_move by serial (read_tables customer.now (Self.sight.tables self.old))
            ≡ Some true → StopLeavesWhole Self.sight self.old self.new
            (one_moved customer.now serial by (Self.sight.tables self.old))) }
        ensures kept { KeepsOnErr (or_memory M.refused Self.sight) self.old self.new result }
    {
        let found = self.message(customer, serial)?;
        let decision = decide_move(memory, by, found)?;
        self.apply(customer, decision.changes.as_slice())
    }

    /// Makes all changes of the customer's rows, in order, or none, as `apply` does. The first
    /// `dropped` of them drop all its messages, in order of serial, so that a shelf may drop these
    /// at once. Where they are others, no promise is made of the tables after `Ok`.
    fn apply_dropping_all(
        &mut self,
        customer: &Name,
        changes: &[Change],
        dropped: usize,
    ) -> Result<(), Fault>
        ensures made { OnSound Self.sight self.old self.new
            (DropAll dropped changes.now (read_tables customer.now (Self.sight.tables self.old))
            → OnOk result (Self.sight.tables self.new
            ≡ write_all customer.now changes.now (Self.sight.tables self.old))) }
        ensures stops { OnSound Self.sight self.old self.new
            (DropAll dropped changes.now (read_tables customer.now (Self.sight.tables self.old))
            → StopLeavesWhole Self.sight self.old self.new
            (write_all customer.now changes.now (Self.sight.tables self.old))) }
        ensures kept { KeepsOnErr Self.sight self.old self.new result }
    {
        self.apply(customer, changes)
    }
}
