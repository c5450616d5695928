//! Each recipient that leaves in a call is told of in the history.

ghost use Rattle.std.specs.Prelude.{◌≡◌, ◌⊎◌, ◌-◌, ◌≤◌, ℕ, Some, List, true};
ghost use Rattle.std.specs.FinMap.{get};
ghost use Rattle.std.specs.List.{Contains};
ghost use Rattle.hq_kept.specs.Tallies.{all_gone};
ghost use Rattle.hq_kept.specs.declared.account.Entry.{Entry};
ghost use Rattle.hq_kept.specs.declared.message.Message.{Message};
ghost use Rattle.hq_kept.specs.declared.message.Pending.{Pending};
ghost use Rattle.hq_tables.specs.Sound.{SoundState};
ghost use Rattle.hq_tables.specs.Tables.{State};
ghost use Rattle.hq_rules.specs.declared.call.Call.{Call};
ghost use Rattle.hq_rules.specs.Machine.{step};
ghost use Rattle.hq_laws.specs.Leaving.{IsPending, IsRecorded, lets_go};

/// A recipient that was pending before a deletion, a report of an attempt or a sweep is pending
/// after it, or has an end of a number that was given then, where the customer's `history` is as
/// long as those who left.
pub fn each_who_left_is_told()
    ensures { (host : List ℕ) (entry : Entry) (s : State) (at : ℕ) (call : Call) → SoundState s
        → lets_go call ≡ true
        → (let after = (step host entry s at call).1 in
        all_gone after.head.tally - all_gone s.head.tally ≤ entry.history
        → (serial : ℕ) (m : Message) (p : Pending) → get s.messages serial ≡ Some m
        → Contains m.pending p
        → IsPending after serial p.address ⊎ IsRecorded s after at serial p.address) }
{}
