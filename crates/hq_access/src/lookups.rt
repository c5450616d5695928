//! The lookup of an address: the first of its keys that has a line.

ghost use Rattle.std.specs.Prelude.{◌≡◌, ℕ, List, Option, Result, IfOk, OnOk};
ghost use Rattle.hq_values.specs.declared.failure.Fault.{Fault};
ghost use Rattle.hq_kept.specs.declared.action.Action.{Action};
ghost use Rattle.hq_kept.specs.declared.pattern.Class.{Class};
ghost use Rattle.hq_kept.specs.Keys as rules;
ghost use Rattle.hq_rules.specs.Lookups.{first_match, Looks, TellsLines};

use crate::keys::keys_of;
use hq_kept::{Action, Class, LookupKey};
use hq_memory::Memory;
use hq_values::{Fault, Sender};

/// The lines of one access table, wherever they are kept.
pub trait Lines {
    /// What asking for a key may do: the lines before, the class, the key, the answer, and the
    /// lines after. So it says which lines these are, and in which faults asking may end.
    ghost gets: { Self → Class → List ℕ → Result (Option Action) Fault → Self → Type 0 };

    /// The action of the line of this class and key, where there is one.
    fn get(&mut self, class: Class, key: &LookupKey) -> Result<Option<Action>, Fault>
        ensures { gets self.old class key.now result self.new };
}

/// Looks an address up: the first of its keys that has a line of the class, with the line's action.
/// No key after it is asked for. It ends in a fault where asking does, or for want of memory
/// before the first key.
pub fn lookup<L: Lines, M: Memory>(
    memory: M,
    lines: &mut L,
    class: Class,
    who: &Sender,
) -> Result<Option<(LookupKey, Action)>, Fault>
    ensures asked { Looks M.refused L.gets class (rules.keys_of who.now) lines.old result
        lines.new }
    ensures found { (table : L → Class → List ℕ → Option Action) → TellsLines L.gets table
        → IfOk result (λ found. found ≡ first_match (table lines.old class)
        (rules.keys_of who.now)) }
    ensures same { (table : L → Class → List ℕ → Option Action) → TellsLines L.gets table
        → OnOk result (table lines.new ≡ table lines.old) }
{
    for key in keys_of(memory, who)? {
        if let Some(action) = lines.get(class, &key)? {
            return Ok(Some((key, action)));
        }
    }
    Ok(None)
}
