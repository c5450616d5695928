//! Memory that reads CSV.

ghost use Rattle.std.specs.Prelude.{◌≡◌, IfOk, map as map_list, take};
ghost use Rattle.csv.specs.Records.{fields_of};
ghost use Rattle.hq_memory.specs.Making.{MadeIn};
ghost use Rattle.hq_rules.specs.Records.{records_in};

use csv::{ByteRecord, ReaderBuilder};
use hq_memory::Memory;
use std::alloc::{AllocError, Global};

/// The most rows under the header.
pub const MOST_ROWS: usize = 1000;

/// The records that are read: the header, the rows, and one row more, which is one too many.
const MOST_RECORDS: usize = MOST_ROWS + 2;

/// Memory that also reads CSV. The library is trusted to give up for want of memory alone, where
/// it reads bytes that are there.
pub trait CsvMemory: Memory {
    /// The first 1,002 records of a file: the header, 1,000 rows, and one more, which is one too
    /// many.
    fn first_records(self, file: &[u8]) -> Result<Vec<ByteRecord>, AllocError>
        ensures records { MadeIn Self.refused result (λ records. map_list fields_of records.items
            ≡ take 1002 (records_in file.now)) };
}

impl CsvMemory for Global {
    fn first_records(self, file: &[u8]) -> Result<Vec<ByteRecord>, AllocError> {
        first_records(self, file)
    }
}

/// The first records of a file.
fn first_records(alloc: Global, file: &[u8]) -> Result<Vec<ByteRecord>, AllocError>
    ensures { IfOk result (λ records. map_list fields_of records.items
        ≡ take 1002 (records_in file.now)) }
{
    // Records of any number of fields, so that the reader refuses none of them.
    let reader = ReaderBuilder::new()
        .has_headers(false)
        .flexible(true)
        .from_reader(alloc, file);
    let mut records = Vec::new(alloc);
    for row in reader.into_byte_records() {
        // Over a slice the only error is want of memory.
        let Ok(row) = row else {
            return Err(AllocError);
        };
        records.push(row)?;
        if records.len() == MOST_RECORDS {
            return Ok(records);
        }
    }
    Ok(records)
}
