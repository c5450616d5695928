//! The fields of a row.

ghost use Rattle.std.specs.Prelude.{◌≡◌, option_map, Result};
ghost use Rattle.csv.specs.Records.{fields_of};
ghost use Rattle.hq_values.specs.Readers.{ReadsIn};
ghost use Rattle.hq_values.specs.declared.failure.Refusal.{Refusal as AnyRefusal};
ghost use Rattle.hq_rules.specs.Fields.{utf8_in, text_field, number_field, refused_as};

use csv::ByteRecord;
use hq_memory::Memory;
use hq_values::{Fail, Refusal, read_number};

/// The most digits of a number.
const MOST_DIGITS: usize = 13;

/// A field that is UTF-8.
#[tactic(auto, using(crate::proofs::Texts::utf8_told, crate::proofs::Texts::utf8_refused))]
fn utf8_in(field: &[u8]) -> Option<&str>
    ensures { option_map (λ t. t.now) result ≡ utf8_in field.now }
{
    match str::from_utf8(field) {
        Ok(text) => Some(text),
        Err(_) => None,
    }
}

/// The field at a place, where it is a text.
pub(crate) fn text_field(row: &ByteRecord, place: usize) -> Option<&str>
    ensures { option_map (λ t. t.now) result ≡ text_field place (fields_of row.now) }
{
    match row.get(place) {
        Some(field) => utf8_in(field),
        None => None,
    }
}

/// The number at a place.
pub(crate) fn number_field(row: &ByteRecord, place: usize) -> Option<u64>
    ensures { result ≡ number_field place (fields_of row.now) }
{
    match row.get(place) {
        Some(field) => read_number(field, MOST_DIGITS),
        None => None,
    }
}

/// A reading, whose refusal is told as that of the row.
pub(crate) fn refused_as<M: Memory, T: Drop>(
    bad: Refusal,
    reading: Result<T, Fail>,
) -> Result<T, Fail>
    ensures { (read : Result T AnyRefusal) → ReadsIn M.refused reading read
        → ReadsIn M.refused result (refused_as bad read) }
{
    match reading {
        Ok(value) => Ok(value),
        Err(Fail::Refused(_)) => Err(Fail::Refused(bad)),
        Err(Fail::Fault(fault)) => Err(Fail::Fault(fault)),
    }
}
