//! The directory as CSV.

ghost use Rattle.std.specs.Prelude.{◌≡◌, ◌<◌, ◌≤◌, [], ◌∷◌, ◌++◌, length, IfOk, IsTrue, OnOk};
ghost use Rattle.std.specs.Prelude.{map as map_list, Result};
ghost use Rattle.csv.specs.Records.{fields_of};
ghost use Rattle.hq_values.specs.Readers.{ReadsIn, seen_by};
ghost use Rattle.hq_values.specs.declared.failure.Refusal.{Refusal as AnyRefusal};
ghost use Rattle.hq_kept.specs.Customers.{are_customers};
ghost use Rattle.hq_rules.specs.Fields.{refused_as};
ghost use Rattle.hq_import.specs.First.{first_customers};
ghost use Rattle.hq_import.specs.Seen.{KnowsNames, KnowsKeys};
ghost use Rattle.hq_import.specs.Refused.{ReadsDirectory};
ghost use Rattle.hq_import.specs.Directories.{wrong_at, name_at, key_at, name_read, key_read};
ghost use Rattle.hq_import.specs.Directories.{number_read};
ghost use Rattle.hq_import.specs.Directories.{IsLimited, history_read, quota_read, other_fields};
ghost use Rattle.hq_import.specs.Directories.{customer_read};
ghost use Rattle.hq_import.specs.Directories.{next_customer, customers_under, customers_in};
ghost use Rattle.hq_import.specs.Directories.{listed_customers, directory_in};
ghost use Rattle.hq_import.specs.Directories.{is_directory_header};
ghost use Rattle.hq_import.specs.declared.columns.Number.TheVariants.{History};

use crate::columns::{Column, Number};
use crate::fields::{number_field, text_field};
use crate::records::{FILE_BYTES, is_header};
use crate::refused::{DirectoryFail, DirectoryRefusal, Wrong};
use crate::seen::Seen;
use csv::ByteRecord;
use hq_kept::{Customer, Entry, Quota};
use hq_memory::Memory;
use hq_rules::{CsvMemory, MOST_ROWS};
use hq_values::{Fail, Key, Name};

/// The fields of the header of a directory that keeps no history.
const HEADER: [&str; 7] = [
    "name", "key", "messages", "bytes", "lines", "notices", "delay",
];

/// The fields of the header with one for the history.
const HISTORY_HEADER: [&str; 8] = [
    "name", "key", "messages", "bytes", "lines", "notices", "delay", "history",
];

/// What is wrong at a row: at 0 with the header or the whole file.
pub(crate) fn wrong_at(row: u32, wrong: Wrong) -> DirectoryRefusal
    ensures { result ≡ wrong_at row wrong }
{
    DirectoryRefusal { row, wrong }
}

/// A reading of a text, whose refusal is that of its column.
fn refused_at<M: Memory, T: Drop>(
    refusal: DirectoryRefusal,
    reading: Result<T, Fail>,
) -> Result<T, DirectoryFail>
    ensures { (read : Result T AnyRefusal) → ReadsIn M.refused reading read
        → ReadsDirectory M.refused result (refused_as refusal read) }
{
    match reading {
        Ok(value) => Ok(value),
        Err(Fail::Refused(_)) => Err(DirectoryFail::Refused(refusal)),
        Err(Fail::Fault(fault)) => Err(DirectoryFail::Fault(fault)),
    }
}

/// The name at a place of a row, or this refusal.
#[tactic(auto, unfolding(crate::specs::Directories::name_at))]
pub(crate) fn name_at<M: Memory>(
    memory: M,
    bad: DirectoryRefusal,
    place: usize,
    record: &ByteRecord,
) -> Result<Name, DirectoryFail>
    ensures { ReadsDirectory M.refused result (name_at bad place (fields_of record.now)) }
{
    let text = text_field(record, place).ok_or(bad)?;
    refused_at::<M, _>(bad, Name::parse(memory, text))
}

/// The key at a place of a row, or this refusal.
#[tactic(auto, unfolding(crate::specs::Directories::key_at))]
pub(crate) fn key_at<M: Memory>(
    memory: M,
    bad: DirectoryRefusal,
    place: usize,
    record: &ByteRecord,
) -> Result<Key, DirectoryFail>
    ensures { ReadsDirectory M.refused result (key_at bad place (fields_of record.now)) }
{
    let text = text_field(record, place).ok_or(bad)?;
    refused_at::<M, _>(bad, Key::parse(memory, text))
}

/// The name of a row, in its first field.
#[tactic(auto, unfolding(crate::specs::Directories::name_read))]
fn name_read<M: Memory>(memory: M, row: u32, record: &ByteRecord) -> Result<Name, DirectoryFail>
    ensures { ReadsDirectory M.refused result (name_read row (fields_of record.now)) }
{
    name_at(memory, wrong_at(row, Wrong::Field(Column::Name)), 0, record)
}

/// The key of a row, in its second field.
#[tactic(auto, unfolding(crate::specs::Directories::key_read))]
fn key_read<M: Memory>(memory: M, row: u32, record: &ByteRecord) -> Result<Key, DirectoryFail>
    ensures { ReadsDirectory M.refused result (key_read row (fields_of record.now)) }
{
    key_at(memory, wrong_at(row, Wrong::Field(Column::Key)), 1, record)
}

/// The number of a row in a column, within its limits.
fn number_read(row: u32, record: &ByteRecord, number: Number) -> Result<u64, DirectoryRefusal>
    ensures { IsLimited number result (number_read row (fields_of record.now) number) }
{
    let bad = wrong_at(row, Wrong::Field(Column::Number(number)));
    let Some(value) = number_field(record, number.place()) else {
        return Err(bad);
    };
    if !number.allows(value) {
        return Err(bad);
    }
    Ok(value)
}

/// Of how many recipients a row keeps the history.
fn history_read(row: u32, record: &ByteRecord) -> Result<u64, DirectoryRefusal>
    ensures { IsLimited History result (history_read row (fields_of record.now)) }
{
    if record.len() == HISTORY_HEADER.len() {
        number_read(row, record, Number::History)
    } else {
        Ok(0)
    }
}

/// The quota of a row.
fn quota_read(row: u32, record: &ByteRecord) -> Result<Quota, DirectoryRefusal>
    ensures { result ≡ quota_read row (fields_of record.now) }
{
    let messages = number_read(row, record, Number::Messages)?;
    let bytes = number_read(row, record, Number::Bytes)?;
    let lines = number_read(row, record, Number::Lines)?;
    let notices = number_read(row, record, Number::Notices)?;
    Ok(Quota {
        messages,
        bytes,
        lines,
        notices,
    })
}

/// What is told of a row that has not as many fields as its header.
fn other_fields(columns: usize) -> Wrong
    ensures { result ≡ other_fields columns }
{
    if columns == HISTORY_HEADER.len() {
        Wrong::HistoryFields
    } else {
        Wrong::Fields
    }
}

/// The customer of a row.
fn customer_read<M: Memory>(
    memory: M,
    columns: usize,
    row: u32,
    record: &ByteRecord,
) -> Result<Customer, DirectoryFail>
    ensures { ReadsDirectory M.refused result (customer_read columns row (fields_of record.now)) }
{
    if record.len() != columns {
        return Err(DirectoryFail::Refused(wrong_at(row, other_fields(columns))));
    }
    let name = name_read(memory, row, record)?;
    let key = key_read(memory, row, record)?;
    let quota = quota_read(row, record)?;
    let delay = number_read(row, record, Number::Delay)?;
    let history = history_read(row, record)?;
    let entry = Entry {
        name,
        quota,
        delay,
        history,
    };
    Ok(Customer { entry, key })
}

/// The customer of the row under these customers, whose names and keys are noted; and notes its
/// own.
#[tactic(auto, unfolding(crate::specs::Directories::next_customer))]
fn next_customer<M: Memory>(
    memory: M,
    columns: usize,
    earlier: &[Customer],
    names: &mut Seen,
    keys: &mut Seen,
    record: &ByteRecord,
) -> Result<Customer, DirectoryFail>
    requires few { length earlier.now ≤ 1000 }
    requires names { KnowsNames names.old earlier.now }
    requires keys { KnowsKeys keys.old earlier.now }
    ensures customer { ReadsDirectory M.refused result
        (next_customer columns earlier.now (fields_of record.now)) }
    ensures names { IfOk result (λ customer. KnowsNames names.new (earlier.now ++ customer ∷ [])) }
    ensures keys { IfOk result (λ customer. KnowsKeys keys.new (earlier.now ++ customer ∷ [])) }
    ensures few { OnOk result (length earlier.now < 1000) }
{
    let row = earlier.len() as u32 + 1;
    if earlier.len() >= MOST_ROWS {
        return Err(DirectoryFail::Refused(wrong_at(row, Wrong::TooMany)));
    }
    let customer = customer_read(memory, columns, row, record)?;
    if !names.note(memory, customer.entry.name.as_str())? {
        return Err(DirectoryFail::Refused(wrong_at(row, Wrong::DoubledName)));
    }
    if !keys.note(memory, customer.key.as_str())? {
        return Err(DirectoryFail::Refused(wrong_at(row, Wrong::DoubledKey)));
    }
    Ok(customer)
}

/// The customers of the rows.
#[tactic(auto, unfolding(crate::specs::Directories::customers_under))]
fn customers_under<M: Memory>(
    memory: M,
    columns: usize,
    rows: &[ByteRecord],
) -> Result<Vec<Customer>, DirectoryFail>
    ensures { ReadsDirectory M.refused (seen_by (λ v. v.items) result)
        (customers_under columns [] (map_list fields_of rows.now)) }
{
    let mut names = Seen::new(memory);
    let mut keys = Seen::new(memory);
    let mut customers = memory.none();
    for row in rows {
        let customer = next_customer(
            memory,
            columns,
            customers.as_slice(),
            &mut names,
            &mut keys,
            row,
        )?;
        memory.push(&mut customers, customer)?;
    }
    Ok(customers)
}

/// Whether a record is a header of a directory.
fn is_directory_header(header: &ByteRecord) -> bool
    ensures { result ≡ is_directory_header (fields_of header.now) }
{
    is_header(&HEADER, header) || is_header(&HISTORY_HEADER, header)
}

/// The customers of the rows under a header.
#[tactic(auto, unfolding(crate::specs::Directories::listed_customers))]
fn customers_of<M: Memory>(
    memory: M,
    records: &[ByteRecord],
) -> Result<Vec<Customer>, DirectoryFail>
    ensures customers { ReadsDirectory M.refused (seen_by (λ v. v.items) result)
        (listed_customers (map_list fields_of records.now)) }
    ensures apart { IfOk result (λ v. IsTrue (are_customers v.items)) }
{
    let [header, rows @ ..] = records else {
        return Err(DirectoryFail::Refused(wrong_at(0, Wrong::NoRow)));
    };
    if rows.is_empty() {
        return Err(DirectoryFail::Refused(wrong_at(0, Wrong::NoRow)));
    }
    if !is_directory_header(header) {
        return Err(DirectoryFail::Refused(wrong_at(0, Wrong::Header)));
    }
    customers_under(memory, header.len(), rows)
}

/// The customers of a directory, from its first records.
#[tactic(auto, unfolding(crate::specs::First::first_customers))]
fn first_customers<M: CsvMemory>(memory: M, file: &[u8]) -> Result<Vec<Customer>, DirectoryFail>
    ensures customers { ReadsDirectory M.refused (seen_by
        (λ v. v.items) result) (first_customers file.now) }
    ensures apart { IfOk result (λ v. IsTrue (are_customers v.items)) }
{
    if file.len() > FILE_BYTES {
        return Err(DirectoryFail::Refused(wrong_at(0, Wrong::TooLong)));
    }
    let records = memory.first_records(file)?;
    customers_of(memory, records.as_slice())
}

/// The customers of a directory, in the order of its rows, under the header
/// `name,key,messages,bytes,lines,notices,delay`, or that with `history` behind it. No two of them
/// have the same name or the same key.
///
/// The first row that is not good refuses the file, and says what is wrong there. In this order: it
/// stands behind 1,000 rows; it has not as many fields as the header; a field is not as its column
/// has it, and the first such column is told; its name, or else its key, is that of an earlier row.
/// Row 0 is the header, the whole file, or a file without rows. The only other error is want of
/// memory.
pub fn read_directory<M: CsvMemory>(memory: M, file: &[u8]) -> Result<Vec<Customer>, DirectoryFail>
    ensures customers { ReadsDirectory M.refused (seen_by
        (λ v. v.items) result) (directory_in file.now) }
    ensures apart { IfOk result (λ v. IsTrue (are_customers v.items)) }
{
    first_customers(memory, file)
}

/// The customers of a directory, as `read_directory` reads them. A refusal is that of the desk: 54
/// `DoubledName`, 55 `DoubledKey`, or for all else 53 `BadDirectory`, each with its row. The only
/// other error is want of memory.
pub fn directory_of<M: CsvMemory>(memory: M, file: &[u8]) -> Result<Vec<Customer>, Fail>
    ensures customers { ReadsIn M.refused (seen_by (λ v. v.items) result) (customers_in file.now) }
    ensures apart { IfOk result (λ v. IsTrue (are_customers v.items)) }
{
    Ok(read_directory(memory, file)?)
}
