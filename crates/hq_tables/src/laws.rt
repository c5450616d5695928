//! Laws over the definitions of the tables, with no program in them. Each is an empty function
//! whose contract is the law; they refuse wrong definitions.

ghost use Rattle.std.specs.Prelude.{◌≡◌, ℕ, List};
ghost use Rattle.hq_tables.specs.Tables.{Tables, opening, no_tables, own};
ghost use Rattle.hq_tables.specs.Sound.{Shaped, Sound};

/// Sound tables are shaped.
pub fn sound_tables_are_shaped()
    ensures { (t : Tables) → Sound t → Shaped t }
{}

/// The empty tables are sound, and each customer's state in them is the opening state.
pub fn empty_tables_are_sound()
    ensures sound { Sound no_tables }
    ensures opening { (customer : List ℕ) → own customer no_tables ≡ opening }
{}
