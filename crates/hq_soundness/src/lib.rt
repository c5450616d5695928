//! Soundness of tables: every call keeps sound tables sound, so no recipient is lost. Changes that
//! fit one customer's state keep it shaped.
//!
//! These are laws over the definitions of the calls, with no program in them; each is the contract
//! of an empty function.
#![tactic(auto)]

mod sound;

pub use sound::{shaped_tables_stay_shaped, sound_tables_stay_sound, stays_sound};
