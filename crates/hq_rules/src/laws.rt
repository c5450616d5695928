//! Laws over the definitions of the calls: which of them change nothing, with no program in them.
//! Each is an empty function whose contract is the law; they refuse wrong definitions.

ghost use Rattle.std.specs.Prelude.{◌≡◌, ℕ, true, List, Some};
ghost use Rattle.hq_values.specs.declared.failure.Refusal.{Refusal};
ghost use Rattle.hq_kept.specs.declared.account.Entry.{Entry};
ghost use Rattle.hq_kept.specs.declared.mark.Mark.{Mark};
ghost use Rattle.hq_tables.specs.Readings.{read_state, read_tables};
ghost use Rattle.hq_tables.specs.Tables.{State, Tables};
ghost use Rattle.hq_rules.specs.declared.answer.Answer.TheVariants.{Refused};
ghost use Rattle.hq_rules.specs.declared.call.Call.{Call};
ghost use Rattle.hq_rules.specs.declared.call.Call.TheVariants.{Import};
ghost use Rattle.hq_rules.specs.Machine.{step, shared};
ghost use Rattle.hq_rules.specs.Unchanged.{only_reads, tells_no_change};

/// What leaves the state of the machine of one customer as it was: a call that is refused; one that
/// only reads; one that is told to have changed nothing; and an import under a label that was used.
pub fn state_is_left()
    ensures refused { (host : List ℕ) (entry : Entry) (s : State) (at : ℕ) (call : Call)
        (refusal : Refusal) → (step host entry s at call).0 ≡ Refused refusal
        → (step host entry s at call).1 ≡ s }
    ensures reads { (host : List ℕ) (entry : Entry) (s : State) (at : ℕ) (call : Call)
        → only_reads call ≡ true → (step host entry s at call).1 ≡ s }
    ensures told { (host : List ℕ) (entry : Entry) (s : State) (at : ℕ) (call : Call)
        → tells_no_change (step host entry s at call).0 ≡ true
        → (step host entry s at call).1 ≡ s }
    ensures used { (host : List ℕ) (entry : Entry) (s : State) (at : ℕ) (label file : List ℕ)
        (mark : Mark) → (read_state s).mark label ≡ Some mark
        → (step host entry s at (Import label file)).1 ≡ s }
{}

/// The same calls leave the tables of all customers as they were.
pub fn tables_are_left()
    ensures refused { (host : List ℕ) (entry : Entry) (t : Tables) (at : ℕ) (call : Call)
        (refusal : Refusal) → (shared host entry t at call).0 ≡ Refused refusal
        → (shared host entry t at call).1 ≡ t }
    ensures reads { (host : List ℕ) (entry : Entry) (t : Tables) (at : ℕ) (call : Call)
        → only_reads call ≡ true → (shared host entry t at call).1 ≡ t }
    ensures told { (host : List ℕ) (entry : Entry) (t : Tables) (at : ℕ) (call : Call)
        → tells_no_change (shared host entry t at call).0 ≡ true
        → (shared host entry t at call).1 ≡ t }
    ensures used { (host : List ℕ) (entry : Entry) (t : Tables) (at : ℕ) (label file : List ℕ)
        (mark : Mark) → (read_tables entry.name t).mark label ≡ Some mark
        → (shared host entry t at (Import label file)).1 ≡ t }
{}
