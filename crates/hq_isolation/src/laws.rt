//! Laws over the definitions of the tables and of the calls: for every customer, every call and all
//! tables, with no program in them. Each is an empty function whose contract is the law.

ghost use Rattle.std.specs.Prelude.{◌≡◌, ◌≢◌, ℕ, List, None};
ghost use Rattle.hq_kept.specs.declared.account.Entry.{Entry};
ghost use Rattle.hq_kept.specs.declared.pattern.Class.{Class};
ghost use Rattle.hq_tables.specs.declared.change.Change.{Change};
ghost use Rattle.hq_tables.specs.Tables.{Tables, account, own, change_all, write_all};
ghost use Rattle.hq_tables.specs.Readings.{read_state, read_tables, counts_told};
ghost use Rattle.hq_tables.specs.Sound.{AreCounted};
ghost use Rattle.hq_rules.specs.declared.call.Call.{Call};
ghost use Rattle.hq_rules.specs.Machine.{step, shared};

/// Isolation of one call, for every kind at once: the caller is answered what the machine answers
/// that knows its state alone, its state afterwards is that machine's, and every other customer's
/// state is untouched.
pub fn isolated()
    ensures answer { (host : List ℕ) (entry : Entry) (t : Tables) (at : ℕ) (call : Call)
        → (shared host entry t at call).0 ≡ (step host entry (own entry.name t) at call).0 }
    ensures state { (host : List ℕ) (entry : Entry) (t : Tables) (at : ℕ) (call : Call)
        → own entry.name (shared host entry t at call).1
        ≡ (step host entry (own entry.name t) at call).1 }
    ensures others { (host : List ℕ) (entry : Entry) (t : Tables) (at : ℕ) (call : Call)
        (other : List ℕ) → other ≢ entry.name
        → own other (shared host entry t at call).1 ≡ own other t }
{}

/// Changes of a customer's rows are these changes of its own state.
pub fn own_state_is_changed()
    ensures { (customer : List ℕ) (changes : List Change) (t : Tables)
        → own customer (write_all customer changes t) ≡ change_all changes (own customer t) }
{}

/// Changes of a customer's rows leave the state of every other.
pub fn other_states_stay()
    ensures { (customer other : List ℕ) (changes : List Change) (t : Tables)
        → other ≢ customer → own other (write_all customer changes t) ≡ own other t }
{}

/// What is read of a customer in the tables of all is what is read of its own state.
pub fn own_state_is_read()
    ensures { (customer : List ℕ) (t : Tables)
        → read_tables customer t ≡ read_state (own customer t) }
{}

/// The counts in the head rows stay those of the rows, whatever is changed; and they are what is
/// read.
pub fn counts_are_kept()
    ensures stay { (customer : List ℕ) (changes : List Change) (t : Tables)
        → AreCounted t → AreCounted (write_all customer changes t) }
    ensures read { (t : Tables) → AreCounted t → (customer : List ℕ)
        → (read_tables customer t).counts ≡ counts_told (account t.heads customer).counts }
{}

/// A customer that keeps no line has none at any key.
pub fn no_line_is_read()
    ensures { (customer : List ℕ) (t : Tables) (class : Class) (key : List ℕ)
        → (read_tables customer t).counts.lines ≡ 0
        → (read_tables customer t).line class key ≡ None }
{}
