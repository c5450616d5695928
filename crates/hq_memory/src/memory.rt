//! The calls that may end in want of memory, each as the library has it.

ghost use Rattle.std.specs.Prelude.{◌≡◌, ◌≤◌, ◌++◌, ⊤, [], ◌∷◌, if◌then◌else◌, is_ok, map, not};
ghost use Rattle.std.specs.Prelude.{option_map, true};
ghost use Rattle.std.specs.Prelude.{IfOk, IfSome, OnErr, OnOk, string_bytes, vec_len, vec_capacity};
ghost use Rattle.std.specs.BTreeSet.{IsEmpty, contains, Updates};
ghost use Rattle.std.specs.Char.{to_ascii_lowercase};
ghost use Rattle.hq_memory.specs.Making.{MadeIn};

use std::alloc::{AllocError, Global};
use std::collections::BTreeSet;
use std::fmt::Display;

/// Memory that may refuse. Code that takes any of it knows of a refusal only what these calls say,
/// so its own want of memory has that cause.
///
/// The calls of the library are trusted to give up for want of memory alone. `show` and `write`
/// also ask for a value whose `fmt` fails only where a write does, as those of texts and numbers.
pub trait Memory: Copy + Drop {
    /// It refused a request.
    ghost refused: { Type 0 };

    /// A text with nothing in it, without taking memory.
    fn no_text(self) -> String
        ensures bytes { string_bytes result ≡ [] };

    /// A text of its own.
    fn text(self, of: &str) -> Result<String, AllocError>
        ensures ok { MadeIn refused result (λ text. string_bytes text ≡ of.now) };

    /// What a value shows.
    fn show<D: Display + Drop>(self, value: D) -> Result<String, AllocError>
        ensures ok { MadeIn refused result (λ text. IfSome (D.output value)
            (λ shown. string_bytes text ≡ shown)) };

    /// A text in lower case; only ASCII letters change.
    fn lower(self, of: &str) -> Result<String, AllocError>
        ensures ok { MadeIn refused result (λ text. string_bytes text
            ≡ map to_ascii_lowercase of.now) };

    /// What a value shows, at the end of a text.
    fn write<D: Display + Drop>(self, to: &mut String, value: D) -> Result<(), AllocError>
        ensures bytes { MadeIn refused result (λ _. IfSome (D.output value)
            (λ shown. string_bytes to.new ≡ string_bytes to.old ++ shown)) };

    /// A text at the end of another, which stays where room was refused.
    fn append(self, to: &mut String, more: &str) -> Result<(), AllocError>
        ensures bytes { string_bytes to.new ≡ (if is_ok result
            then string_bytes to.old ++ more.now else string_bytes to.old) }
        ensures cause { OnErr result refused };

    /// A list with nothing in it, without taking memory.
    fn none<T>(self) -> Vec<T>
        ensures items { result.items ≡ [] };

    /// A list of one value.
    fn one<T: Drop>(self, value: T) -> Result<Vec<T>, AllocError>
        ensures items { MadeIn refused result (λ values. values.items ≡ value ∷ []) };

    /// An empty list with room for so many values.
    fn room<T>(self, most: usize) -> Result<Vec<T>, AllocError>
        ensures items { MadeIn refused result (λ values. values.items ≡ []) }
        ensures room { IfOk result (λ values. (vec_len values ≡ 0)
            × (most ≤ vec_capacity values)) };

    /// One value more at the end of a list, which stays where room was refused.
    fn push<T: Drop>(self, to: &mut Vec<T>, value: T) -> Result<(), AllocError>
        ensures items { to.new.items
            ≡ (if is_ok result then to.old.items ++ value ∷ [] else to.old.items) }
        ensures cause { OnErr result refused };

    /// Copies of bytes at the end of a list, which stays where room was refused.
    fn extend(self, to: &mut Vec<u8>, more: &[u8]) -> Result<(), AllocError>
        ensures items { to.new.items
            ≡ (if is_ok result then to.old.items ++ more.now else to.old.items) }
        ensures cause { OnErr result refused };

    /// Bytes of its own.
    fn bytes(self, of: &[u8]) -> Result<Vec<u8>, AllocError>
        ensures items { MadeIn refused result (λ bytes. bytes.items ≡ of.now) };

    /// A set with nothing in it, without taking memory.
    fn no_values<T: Ord>(self) -> BTreeSet<T>
        ensures empty { IsEmpty result };

    /// A set with one value more, and whether it is new.
    fn insert<T: Ord + Drop>(self, to: &mut BTreeSet<T>, value: T) -> Result<bool, AllocError>
        ensures is_new { MadeIn refused result (λ is_new. is_new ≡ not (contains T.cmp to.old
            value)) }
        ensures values { OnOk result (Updates T.cmp to.old to.new value true) };
}

/// A text of its own, where there is one.
pub fn own_text<M: Memory>(memory: M, of: Option<&str>) -> Result<Option<String>, AllocError>
    ensures { MadeIn M.refused result (λ own. option_map string_bytes own
        ≡ option_map (λ text. text.now) of.entry) }
{
    match of {
        None => Ok(None),
        Some(text) => Ok(Some(memory.text(text)?)),
    }
}

/// The memory of the machine, of which nothing is said.
impl Memory for Global {
    ghost refused = { ⊤ };

    fn no_text(self) -> String {
        String::new(self)
    }

    fn text(self, of: &str) -> Result<String, AllocError> {
        String::from_str(self, of)
    }

    fn show<D: Display + Drop>(self, value: D) -> Result<String, AllocError> {
        String::format(self, value)
    }

    fn lower(self, of: &str) -> Result<String, AllocError> {
        of.to_ascii_lowercase(self)
    }

    fn write<D: Display + Drop>(self, to: &mut String, value: D) -> Result<(), AllocError> {
        to.write_fmt(value)
    }

    fn append(self, to: &mut String, more: &str) -> Result<(), AllocError> {
        to.push_str(more)
    }

    fn none<T>(self) -> Vec<T> {
        Vec::new(self)
    }

    fn one<T: Drop>(self, value: T) -> Result<Vec<T>, AllocError> {
        let mut values = Vec::with_capacity(self, 1)?;
        values.push_reserved(value);
        Ok(values)
    }

    fn room<T>(self, most: usize) -> Result<Vec<T>, AllocError> {
        Vec::with_capacity(self, most)
    }

    fn push<T: Drop>(self, to: &mut Vec<T>, value: T) -> Result<(), AllocError> {
        to.push(value)?;
        Ok(())
    }

    fn extend(self, to: &mut Vec<u8>, more: &[u8]) -> Result<(), AllocError> {
        to.extend_from_slice(more)
    }

    fn bytes(self, of: &[u8]) -> Result<Vec<u8>, AllocError> {
        Vec::from_slice(self, of)
    }

    fn no_values<T: Ord>(self) -> BTreeSet<T> {
        BTreeSet::new(self)
    }

    fn insert<T: Ord + Drop>(self, to: &mut BTreeSet<T>, value: T) -> Result<bool, AllocError> {
        Ok(to.insert(value)?)
    }
}
