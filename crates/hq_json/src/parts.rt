//! Objects and lists as JSON, at the end of a body, from what they have.

ghost use Rattle.std.specs.Prelude.{◌≡◌, ◌++◌, map, OnErr};
ghost use Rattle.serde_json.specs.Data.{Data, array};
ghost use Rattle.serde_json.specs.View.{items_of};
ghost use Rattle.hq_json.specs.Objects.{having};
ghost use Rattle.hq_json.specs.Writing.{after};

use crate::writing::put_text;
use hq_memory::Memory;
use std::alloc::AllocError;

/// What can be the value of a member.
pub(crate) trait Value {
    /// The JSON value that it is told as.
    ghost told: { Self → Data };

    /// Writes it.
    fn put<M: Memory>(&self, memory: M, body: &mut Vec<u8>) -> Result<(), AllocError>
        ensures bytes { body.new.items ≡ after result body.old.items body.new.items
            (told self.now) }
        ensures cause { OnErr result M.refused };
}

/// A form in which each of a list is told.
pub(crate) trait Form<T> {
    /// The JSON value that it is told as.
    ghost told: { T → Data };

    /// Writes one of them.
    fn put<M: Memory>(memory: M, body: &mut Vec<u8>, one: &T) -> Result<(), AllocError>
        ensures bytes { body.new.items ≡ after result body.old.items body.new.items
            (told one.now) }
        ensures cause { OnErr result M.refused };
}

/// One as an entry of a list.
pub(crate) struct AsEntry;

/// An object with these members.
#[tactic(auto, unfolding(crate::specs::Writing::after))]
pub(crate) fn put_object<V: Value, M: Memory>(
    memory: M,
    body: &mut Vec<u8>,
    members: &[(&str, V)],
) -> Result<(), AllocError>
    ensures bytes { body.new.items ≡ after result body.old.items body.new.items
        (having (map (λ m. (m.0.now, V.told m.1)) members.now)) }
    ensures cause { OnErr result M.refused }
{
    memory.push(body, b'{')?;
    let mut is_later = false;
    for (name, value) in members {
        if is_later {
            memory.push(body, b',')?;
        }
        put_text(memory, body, name.as_bytes())?;
        memory.push(body, b':')?;
        value.put(memory, body)?;
        is_later = true;
    }
    memory.push(body, b'}')
}

/// A list of all of these, in this form.
#[tactic(auto, unfolding(crate::specs::Writing::after))]
pub(crate) fn put_list<T, F: Form<T>, M: Memory>(
    memory: M,
    body: &mut Vec<u8>,
    all: &[T],
) -> Result<(), AllocError>
    ensures bytes { body.new.items ≡ after result body.old.items body.new.items
        (array (items_of (map F.told all.now))) }
    ensures cause { OnErr result M.refused }
{
    memory.push(body, b'[')?;
    let mut is_later = false;
    for one in all {
        if is_later {
            memory.push(body, b',')?;
        }
        F::put(memory, body, one)?;
        is_later = true;
    }
    memory.push(body, b']')
}
