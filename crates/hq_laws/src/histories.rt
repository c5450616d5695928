//! A history keeps each end as it is until it drops it, and it drops only those that newer ones
//! take the place of.

ghost use Rattle.std.specs.Prelude.{◌≡◌, ◌⊎◌, ◌-◌, ◌<◌, ◌≤◌, ℕ, List, Some, None, true, is_some};
ghost use Rattle.std.specs.FinMap.{get};
ghost use Rattle.hq_kept.specs.Tallies.{all_gone};
ghost use Rattle.hq_kept.specs.declared.account.Entry.{Entry};
ghost use Rattle.hq_tables.specs.Sound.{SoundState};
ghost use Rattle.hq_tables.specs.Tables.{State, Past};
ghost use Rattle.hq_rules.specs.declared.call.Call.{Call};
ghost use Rattle.hq_rules.specs.Machine.{step};
ghost use Rattle.hq_laws.specs.Queued.{WasQueued};

/// An end that a number has after a call, it had before. Or the call gave the number: it is above
/// all that were given, the end's moment is the call's, and it tells of a pending recipient.
pub fn what_is_told_stays()
    ensures { (host : List ℕ) (entry : Entry) (s : State) (at : ℕ) (call : Call) (number : ℕ)
        (past : Past) → SoundState s
        → get (step host entry s at call).1.ends number ≡ Some past
        → (get s.ends number ≡ Some past)
        ⊎ ((all_gone s.head.tally < number) × (past.at ≡ at) × WasQueued s past.ended) }
{}

/// The last number that was given never falls, so no number is given twice.
pub fn no_number_is_given_twice()
    ensures { (host : List ℕ) (entry : Entry) (s : State) (at : ℕ) (call : Call) → SoundState s
        → all_gone s.head.tally ≤ all_gone (step host entry s at call).1.head.tally }
{}

/// A call in which no recipient left keeps the history as it is.
pub fn nothing_goes_where_nobody_left()
    ensures { (host : List ℕ) (entry : Entry) (s : State) (at : ℕ) (call : Call) → SoundState s
        → (let after = (step host entry s at call).1 in
        all_gone after.head.tally ≡ all_gone s.head.tally → after.ends ≡ s.ends) }
{}

/// After a call in which recipients left, only the last `history` numbers have ends. Of these, each
/// number of the call has one, and each earlier number has what it had.
pub fn the_newest_are_told()
    ensures { (host : List ℕ) (entry : Entry) (s : State) (at : ℕ) (call : Call) → SoundState s
        → (let after = (step host entry s at call).1 in
        let last = all_gone after.head.tally in
        all_gone s.head.tally < last → (number : ℕ) →
        (number ≤ last - entry.history → get after.ends number ≡ None)
        × (last - entry.history < number → number ≤ all_gone s.head.tally
        → get after.ends number ≡ get s.ends number)
        × (last - entry.history < number → all_gone s.head.tally < number → number ≤ last
        → is_some (get after.ends number) ≡ true)) }
{}
