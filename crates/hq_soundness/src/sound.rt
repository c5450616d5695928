//! Sound tables stay sound by every call, and by changes.

ghost use Rattle.std.specs.Prelude.{ℕ, List};
ghost use Rattle.hq_kept.specs.declared.account.Entry.{Entry};
ghost use Rattle.hq_tables.specs.declared.change.Change.{Change};
ghost use Rattle.hq_tables.specs.Tables.{Tables, own, change_all, write_all};
ghost use Rattle.hq_tables.specs.Sound.{Shaped, Sound, SoundState};
ghost use Rattle.hq_rules.specs.declared.call.Call.{Call};
ghost use Rattle.hq_rules.specs.Machine.{shared};
ghost use Rattle.hq_isolation.specs.Fits.{AllFit};

/// Sound tables stay sound by every call; so conservation holds for every customer afterwards.
pub fn stays_sound()
    ensures { (host : List ℕ) (entry : Entry) (t : Tables) (at : ℕ) (call : Call)
        → Sound t → Sound (shared host entry t at call).1 }
{}

/// Sound tables stay sound by changes that leave the customer's own state sound.
pub fn sound_tables_stay_sound()
    ensures { (customer : List ℕ) (changes : List Change) (t : Tables)
        → Sound t → SoundState (change_all changes (own customer t))
        → Sound (write_all customer changes t) }
{}

/// Changes that fit keep shaped tables shaped.
pub fn shaped_tables_stay_shaped()
    ensures { (customer : List ℕ) (changes : List Change) (t : Tables)
        → Shaped t → AllFit (own customer t) changes → Shaped (write_all customer changes t) }
{}
