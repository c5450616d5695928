//! The records of a CSV file, and the rows under its header.

ghost use Rattle.std.specs.Prelude.{◌≡◌, map as map_list};
ghost use Rattle.csv.specs.Records.{fields_of};
ghost use Rattle.hq_values.specs.Readers.{ReadsIn, seen_by};
ghost use Rattle.hq_import.specs.First.{first_records};
ghost use Rattle.hq_rules.specs.Records.{is_header, under_header};

use csv::ByteRecord;
use hq_rules::CsvMemory;
use hq_values::{Fail, Refusal};

/// The most bytes of a file, a byte order mark among them.
pub(crate) const FILE_BYTES: usize = 262_144;

/// The first records of a file that is not too long.
pub(crate) fn file_records<M: CsvMemory>(
    memory: M,
    bad: Refusal,
    file: &[u8],
) -> Result<Vec<ByteRecord>, Fail>
    ensures { ReadsIn M.refused (seen_by (λ v. map_list fields_of v.items) result)
        (first_records bad file.now) }
{
    if file.len() > FILE_BYTES {
        return Err(Fail::Refused(bad));
    }
    Ok(memory.first_records(file)?)
}

/// Whether a record has these fields.
#[tactic(auto, using(crate::proofs::Headers::lengths_differ))]
pub(crate) fn is_header(names: &[&str], header: &ByteRecord) -> bool
    ensures { result ≡ is_header (map_list (λ n. n.now) names.now) (fields_of header.now) }
{
    if header.len() != names.len() {
        return false;
    }
    for (place, name) in names.iter().enumerate() {
        let Some(field) = header.get(place) else {
            return false;
        };
        if name.as_bytes() != field {
            return false;
        }
    }
    true
}

/// The rows under the header.
pub(crate) fn under_header<'r>(
    names: &[&str],
    bad: Refusal,
    records: &'r [ByteRecord],
) -> Result<&'r [ByteRecord], Refusal>
    ensures { seen_by (λ rows. map_list fields_of rows.now) result
        ≡ under_header (map_list (λ n. n.now) names.now) bad (map_list fields_of records.now) }
{
    match records {
        [header, rows @ ..] if is_header(names, header) => Ok(rows),
        _ => Err(bad),
    }
}
