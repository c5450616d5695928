//! Copies of values that own memory, and lists of values as contracts see them.

ghost use Rattle.std.specs.Prelude.{◌≡◌, ◌==◌, [], length};
ghost use Rattle.hq_memory.specs.Making.{MadeIn};

use hq_memory::Memory;
use std::alloc::AllocError;
use std::marker::Model;
use std::mem;

/// A value that can be copied where memory allows.
pub trait TryCopy: Sized + Drop {
    /// An equal value of its own. The only error is want of memory.
    fn copy<M: Memory>(&self, memory: M) -> Result<Self, AllocError>
        ensures { MadeIn M.refused result (λ copy. copy ≡ self.now) };
}

/// Copies of all values, in order.
pub fn copy_all<T: TryCopy, M: Memory>(memory: M, values: &[T]) -> Result<Vec<T>, AllocError>
    ensures { MadeIn M.refused result (λ copies. copies.items ≡ values.now) }
{
    let mut copies = memory.room(values.len())?;
    for value in values {
        memory.push(&mut copies, value.copy(memory)?)?;
    }
    Ok(copies)
}

/// A list of values as a part of other values: a `Vec` whose room contracts do not see.
#[derive(Drop)]
pub struct Items<T> {
    values: Vec<T>,
}

impl<T> Model for Items<T> {
    ghost use Rattle.std.specs.Prelude.{List};
    ghost use Rattle.std.specs.Coded.{coded_list};

    ghost Value = { List T };

    ghost coded = { coded_list T.code };

    ghost view = { λ list. list.values.items };
}

impl<T> Items<T> {
    /// The list of a `Vec`, without taking memory.
    pub fn from_vec(values: Vec<T>) -> Items<T>
        ensures { result ≡ values.items }
    {
        Items { values }
    }

    /// The values in order.
    pub fn as_slice(&self) -> &[T]
        ensures { result.now ≡ self.now }
    {
        self.values.as_slice()
    }

    /// How many values there are.
    pub fn len(&self) -> usize
        ensures { result ≡ length self.now }
    {
        self.values.len()
    }

    /// Whether there are none.
    pub fn is_empty(&self) -> bool
        ensures { result ≡ (length self.now == 0) }
    {
        self.values.is_empty()
    }

    /// The `Vec` again, without taking memory.
    pub fn into_vec(self) -> Vec<T>
        ensures { result.items ≡ self }
    {
        self.values
    }

    /// Takes the values out, without taking memory: the list is empty then.
    pub fn take(&mut self) -> Vec<T>
        ensures taken { result.items ≡ self.old }
        ensures empty { self.new ≡ [] }
    {
        let alloc = *self.values.allocator();
        mem::replace(&mut self.values, Vec::new(alloc))
    }
}

impl<T: TryCopy> TryCopy for Items<T> {
    fn copy<M: Memory>(&self, memory: M) -> Result<Items<T>, AllocError> {
        let values = copy_all(memory, self.values.as_slice())?;
        Ok(Items { values })
    }
}
