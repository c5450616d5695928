//! Laws over the definitions of a migration: for every customer and all tables, with no program in
//! them. Each is an empty function whose contract is the law.

ghost use Rattle.std.specs.Prelude.{◌≡◌, ℕ, List};
ghost use Rattle.hq_tables.specs.Tables.{Tables, own};
ghost use Rattle.hq_tables.specs.Sound.{Sound};
ghost use Rattle.hq_sql_open.specs.Lifted.{lift, lifted_tables, FirstSound};

/// What a migration makes of the tables it makes of each customer's state.
#[tactic(auto, using(crate::proofs::Lifted::own_lifted))]
pub fn lifted_state_is_own()
    ensures { (customer : List ℕ) (t : Tables) → own customer (lifted_tables t)
        ≡ lift (own customer t) }
{}

/// Tables that were sound before reasons were kept are sound after it.
pub fn lifted_tables_are_sound()
    ensures { (t : Tables) → FirstSound t → Sound (lifted_tables t) }
{}
