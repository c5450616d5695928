//! Named keys, which customers have beside their own, and their file as CSV.

ghost use Rattle.std.specs.Prelude.{◌≡◌, ◌<◌, ◌≤◌, [], ◌∷◌, ◌++◌, length, IfOk, IsTrue, OnOk};
ghost use Rattle.std.specs.Prelude.{map as map_list, option_map};
ghost use Rattle.std.specs.List.{find, list_any};
ghost use Rattle.csv.specs.Records.{fields_of};
ghost use Rattle.hq_values.specs.Readers.{seen_by};
ghost use Rattle.hq_import.specs.Refused.{ReadsDirectory};
ghost use Rattle.hq_import.specs.First.{first_keys};
ghost use Rattle.hq_import.specs.Keys as keys;

use crate::columns::Column;
use crate::customers::{is_named, is_same_text, is_taken};
use crate::directory::{key_at, name_at, wrong_at};
use crate::fields::text_field;
use crate::records::{FILE_BYTES, is_header};
use crate::refused::{DirectoryFail, Wrong};
use csv::ByteRecord;
use hq_kept::Customer;
use hq_memory::Memory;
use hq_rules::{CsvMemory, MOST_ROWS};
use hq_values::{Key, Name};

/// The fields of the header.
const HEADER: [&str; 4] = ["customer", "name", "key", "right"];

/// What a key may ask for.
#[derive(Clone, Copy, Debug, PartialEq, Eq, Drop)]
pub enum Right {
    /// Every call of its customer.
    All,
    /// The calls that change nothing.
    Reading,
}

impl Right {
    /// The right that a text names.
    fn named(text: &str) -> Option<Right>
        ensures { result ≡ keys.right_named text.now }
    {
        match text {
            "all" => Some(Right::All),
            "read" => Some(Right::Reading),
            _ => None,
        }
    }
}

/// A named key: one of a customer beside its own.
#[derive(Debug, Drop)]
pub struct NamedKey {
    /// The name of the customer.
    pub customer: Name,
    /// The name of the key, which no other key of the customer has.
    pub name: Name,
    /// The key, which nobody else shows.
    pub key: Key,
    /// What it may ask for.
    pub right: Right,
}

impl NamedKey {
    /// Whether a text is this key.
    pub fn opens(&self, text: &str) -> bool
        ensures { result ≡ keys.opens text.now self.now }
    {
        is_same_text(text, self.key.as_str())
    }

    /// Whether another key is of the same customer, and has the same name.
    fn is_namesake(&self, other: &NamedKey) -> bool
        ensures { result ≡ keys.is_namesake self.now other.now }
    {
        is_same_text(self.customer.as_str(), other.customer.as_str())
            && is_same_text(self.name.as_str(), other.name.as_str())
    }
}

/// The first of these that a text is, without taking memory.
pub fn opened_by<'k>(named: &'k [NamedKey], text: &str) -> Option<&'k NamedKey>
    ensures { option_map (λ k. k.now) result ≡ find (keys.opens text.now) named.now }
{
    named.iter().find(|one| one.opens(text))
}

/// Whether a text is one of these.
fn opens_any(named: &[NamedKey], text: &str) -> bool
    ensures { result ≡ list_any (keys.opens text.now) named.now }
{
    named.iter().any(|one| one.opens(text))
}

/// Whether one of these is of the same customer as a key, and has its name.
fn has_namesake(named: &[NamedKey], key: &NamedKey) -> bool
    ensures { result ≡ list_any (keys.is_namesake key.now) named.now }
{
    named.iter().any(|one| key.is_namesake(one))
}

/// Whether a text is the key of a customer, or one of these. It takes no memory.
pub fn is_key_taken(customers: &[Customer], named: &[NamedKey], text: &str) -> bool
    ensures { result ≡ keys.is_key_taken customers.now named.now text.now }
{
    is_taken(customers, text) || opens_any(named, text)
}

/// The key of a row.
#[tactic(auto, unfolding(crate::specs::Keys::named_key_read))]
fn named_key_read<M: Memory>(
    memory: M,
    row: u32,
    record: &ByteRecord,
) -> Result<NamedKey, DirectoryFail>
    ensures { ReadsDirectory M.refused result (keys.named_key_read row (fields_of record.now)) }
{
    if record.len() != HEADER.len() {
        return Err(DirectoryFail::Refused(wrong_at(row, Wrong::KeyFields)));
    }
    let customer = name_at(
        memory,
        wrong_at(row, Wrong::Field(Column::Customer)),
        0,
        record,
    )?;
    let name = name_at(memory, wrong_at(row, Wrong::Field(Column::Name)), 1, record)?;
    let key = key_at(memory, wrong_at(row, Wrong::Field(Column::Key)), 2, record)?;
    let right = text_field(record, 3)
        .and_then(Right::named)
        .ok_or(wrong_at(row, Wrong::Field(Column::Right)))?;
    Ok(NamedKey {
        customer,
        name,
        key,
        right,
    })
}

/// The key of the row under these keys.
#[tactic(auto, unfolding(crate::specs::Keys::next_key))]
fn next_key<M: Memory>(
    memory: M,
    customers: &[Customer],
    earlier: &[NamedKey],
    record: &ByteRecord,
) -> Result<NamedKey, DirectoryFail>
    requires few { length earlier.now ≤ 1000 }
    ensures key { ReadsDirectory M.refused result
        (keys.next_key customers.now earlier.now (fields_of record.now)) }
    ensures few { OnOk result (length earlier.now < 1000) }
{
    let row = earlier.len() as u32 + 1;
    if earlier.len() >= MOST_ROWS {
        return Err(DirectoryFail::Refused(wrong_at(row, Wrong::TooMany)));
    }
    let key = named_key_read(memory, row, record)?;
    if !is_named(customers, key.customer.as_str()) {
        return Err(DirectoryFail::Refused(wrong_at(row, Wrong::NoCustomer)));
    }
    if has_namesake(earlier, &key) {
        return Err(DirectoryFail::Refused(wrong_at(row, Wrong::DoubledName)));
    }
    if is_key_taken(customers, earlier, key.key.as_str()) {
        return Err(DirectoryFail::Refused(wrong_at(row, Wrong::TakenKey)));
    }
    Ok(key)
}

/// The keys of the rows.
#[tactic(auto, unfolding(crate::specs::Keys::keys_under))]
fn keys_under<M: Memory>(
    memory: M,
    customers: &[Customer],
    rows: &[ByteRecord],
) -> Result<Vec<NamedKey>, DirectoryFail>
    ensures { ReadsDirectory M.refused (seen_by (λ v. v.items) result)
        (keys.keys_under customers.now [] (map_list fields_of rows.now)) }
{
    let mut named = memory.none();
    for row in rows {
        let key = next_key(memory, customers, named.as_slice(), row)?;
        memory.push(&mut named, key)?;
    }
    Ok(named)
}

/// The keys of the rows under a header.
#[tactic(auto, unfolding(crate::specs::Keys::listed_keys))]
fn keys_of<M: Memory>(
    memory: M,
    customers: &[Customer],
    records: &[ByteRecord],
) -> Result<Vec<NamedKey>, DirectoryFail>
    ensures named { ReadsDirectory M.refused (seen_by (λ v. v.items) result)
        (keys.listed_keys customers.now (map_list fields_of records.now)) }
    ensures joined { IfOk result (λ v. IsTrue (keys.are_keys customers.now v.items)) }
{
    let [header, rows @ ..] = records else {
        return Err(DirectoryFail::Refused(wrong_at(0, Wrong::NoRow)));
    };
    if rows.is_empty() {
        return Err(DirectoryFail::Refused(wrong_at(0, Wrong::NoRow)));
    }
    if !is_header(&HEADER, header) {
        return Err(DirectoryFail::Refused(wrong_at(0, Wrong::KeysHeader)));
    }
    keys_under(memory, customers, rows)
}

/// The keys of a file, from its first records.
#[tactic(auto, unfolding(crate::specs::First::first_keys))]
fn first_keys<M: CsvMemory>(
    memory: M,
    customers: &[Customer],
    file: &[u8],
) -> Result<Vec<NamedKey>, DirectoryFail>
    ensures named { ReadsDirectory M.refused (seen_by (λ v. v.items) result)
        (first_keys customers.now file.now) }
    ensures joined { IfOk result (λ v. IsTrue (keys.are_keys customers.now v.items)) }
{
    if file.len() > FILE_BYTES {
        return Err(DirectoryFail::Refused(wrong_at(0, Wrong::TooLong)));
    }
    let records = memory.first_records(file)?;
    keys_of(memory, customers, records.as_slice())
}

/// The named keys of these customers, in the order of the rows of a file under the header
/// `customer,name,key,right`. A right is `all` or `read`. Each key is of a customer, no two are the
/// same, none is a customer's own, and no two of a customer have the same name.
///
/// The first row that is not good refuses the file, and says what is wrong there, the first of
/// these:
///
/// - it stands behind 1,000 rows;
/// - it has not four fields;
/// - a field is not as its column has it, and the first such column is told;
/// - its customer is not in the directory;
/// - the customer has a key of this name;
/// - its key is a customer's own, or stands in an earlier row.
///
/// Row 0 is the header, the whole file, or a file without rows. The only other error is want of
/// memory.
pub fn read_keys<M: CsvMemory>(
    memory: M,
    customers: &[Customer],
    file: &[u8],
) -> Result<Vec<NamedKey>, DirectoryFail>
    ensures named { ReadsDirectory M.refused (seen_by (λ v. v.items) result)
        (keys.keys_in customers.now file.now) }
    ensures joined { IfOk result (λ v. IsTrue (keys.are_keys customers.now v.items)) }
{
    first_keys(memory, customers, file)
}
