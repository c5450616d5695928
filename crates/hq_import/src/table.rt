//! Access tables as CSV.

ghost use Rattle.std.specs.Prelude.{◌<◌, ◌≤◌, [], ◌∷◌, ◌++◌, length, IfOk, IsTrue, OnOk};
ghost use Rattle.std.specs.Prelude.{map as map_list};
ghost use Rattle.csv.specs.Records.{fields_of};
ghost use Rattle.hq_values.specs.Readers.{ReadsIn, seen_by};
ghost use Rattle.hq_import.specs.First.{first_lines};
ghost use Rattle.hq_import.specs.Seen.{KnowsPatterns};
ghost use Rattle.hq_rules.specs.TableFiles.{line_in, next_line, lines_under, table_lines};
ghost use Rattle.hq_rules.specs.TableFiles.{patterns_apart};

use crate::fields::{refused_as, text_field};
use crate::records::{file_records, under_header};
use crate::seen::SeenPatterns;
use csv::ByteRecord;
use hq_kept::{Action, Class, Line, Pattern};
use hq_memory::Memory;
use hq_rules::{CsvMemory, MOST_ROWS};
use hq_values::{Fail, Refusal};

/// The fields of the header.
const HEADER: [&str; 3] = ["class", "pattern", "action"];

/// The line of a row.
#[tactic(auto, unfolding(hq_rules::specs::TableFiles::line_in))]
fn line_in<M: Memory>(memory: M, bad: Refusal, row: &ByteRecord) -> Result<Line, Fail>
    ensures { ReadsIn M.refused result (line_in bad (fields_of row.now)) }
{
    if row.len() != HEADER.len() {
        return Err(Fail::Refused(bad));
    }
    let class = text_field(row, 0).and_then(Class::named).ok_or(bad)?;
    let pattern = text_field(row, 1).ok_or(bad)?;
    let action = text_field(row, 2).ok_or(bad)?;
    let pattern = refused_as::<M, _>(bad, Pattern::parse(memory, class, pattern))?;
    let action = refused_as::<M, _>(bad, Action::parse(memory, action))?;
    Ok(Line { pattern, action })
}

/// The line of the row under these lines, whose patterns are noted; and notes its own.
#[tactic(auto, unfolding(hq_rules::specs::TableFiles::next_line))]
fn next_line<M: Memory>(
    memory: M,
    earlier: &[Line],
    seen: &mut SeenPatterns,
    row: &ByteRecord,
) -> Result<Line, Fail>
    requires few { length earlier.now ≤ 1000 }
    requires noted { KnowsPatterns seen.old earlier.now }
    ensures line { ReadsIn M.refused result (next_line earlier.now (fields_of row.now)) }
    ensures noted { IfOk result (λ line. KnowsPatterns seen.new (earlier.now ++ line ∷ [])) }
    ensures few { OnOk result (length earlier.now < 1000) }
{
    let row_number = earlier.len() as u32 + 1;
    if earlier.len() >= MOST_ROWS {
        return Err(Fail::Refused(Refusal::BadCsv { row: row_number }));
    }
    let line = line_in(memory, Refusal::BadCsv { row: row_number }, row)?;
    if !seen.note(memory, &line.pattern)? {
        return Err(Fail::Refused(Refusal::DoubledPattern { row: row_number }));
    }
    Ok(line)
}

/// The lines of the rows.
#[tactic(auto, unfolding(hq_rules::specs::TableFiles::lines_under))]
fn lines_under<M: Memory>(memory: M, rows: &[ByteRecord]) -> Result<Vec<Line>, Fail>
    ensures { ReadsIn M.refused (seen_by
        (λ v. v.items) result) (lines_under [] (map_list fields_of rows.now)) }
{
    let mut seen = SeenPatterns::new(memory);
    let mut lines = memory.none();
    for row in rows {
        let line = next_line(memory, lines.as_slice(), &mut seen, row)?;
        memory.push(&mut lines, line)?;
    }
    Ok(lines)
}

/// The lines of an access table, from its first records.
#[tactic(auto, unfolding(crate::specs::First::first_lines))]
fn first_lines<M: CsvMemory>(memory: M, file: &[u8]) -> Result<Vec<Line>, Fail>
    ensures lines { ReadsIn M.refused (seen_by (λ v. v.items) result) (first_lines file.now) }
    ensures apart { IfOk result (λ v. IsTrue (patterns_apart v.items)) }
{
    let bad = Refusal::BadCsv { row: 0 };
    let records = file_records(memory, bad, file)?;
    let rows = under_header(&HEADER, bad, records.as_slice())?;
    lines_under(memory, rows)
}

/// The lines of an access table, in the order of its rows, under the header
/// `class,pattern,action`. Refused at the first row that is not good: 50 `BadCsv` (row 0 for the
/// header or the whole file), or 51 `DoubledPattern` where the row is good but its class and folded
/// pattern stand in an earlier row. The only other error is want of memory. No two lines are of one
/// class and one pattern.
pub fn lines_of<M: CsvMemory>(memory: M, file: &[u8]) -> Result<Vec<Line>, Fail>
    ensures lines { ReadsIn M.refused (seen_by (λ v. v.items) result) (table_lines file.now) }
    ensures apart { IfOk result (λ v. IsTrue (patterns_apart v.items)) }
{
    first_lines(memory, file)
}
