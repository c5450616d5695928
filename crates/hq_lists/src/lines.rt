//! The rows of lines: look-up, put, drop, counts and pages.

ghost use Rattle.std.specs.Prelude.{◌≡◌, not, OnOk, filter, map, take, option_map};
ghost use Rattle.std.specs.Prelude.{None, count_by};
ghost use Rattle.std.specs.List as list;
ghost use Rattle.std.specs.FinMap as maps;
ghost use Rattle.hq_memory.specs.Making.{MadeIn};
ghost use Rattle.hq_tables.specs.Tables.{line_cmp};
ghost use Rattle.hq_tables.specs.Readings.{line_of, after_pattern};
ghost use Rattle.hq_rows.specs.Listed.{lines_of};
ghost use Rattle.hq_rows.specs.Lookups.{is_line, is_line_past, line_rows_with, AreUniqueLines};

use hq_kept::{Action, Class, Line, LookupKey, Pattern};
use hq_memory::Memory;
use hq_rows::{LineRow, order};
use hq_values::{Items, Name, TryCopy};
use std::alloc::AllocError;
use std::cmp::Ordering;

fn find_line<'a>(
    rows: &'a [LineRow],
    customer: &Name,
    class: Class,
    key: &str,
) -> Option<&'a LineRow>
    ensures { option_map (λ row. row.now) result
        ≡ list.find (is_line customer.now (class, key.now)) rows.now }
{
    rows.iter().find(|row| row.is_at(customer, class, key))
}

/// The action of the customer's line of this class, at this key.
pub fn line_in<M: Memory>(
    memory: M,
    rows: &[LineRow],
    customer: &Name,
    class: Class,
    key: &LookupKey,
) -> Result<Option<Action>, AllocError>
    ensures { MadeIn M.refused result (λ found. found
        ≡ maps.get (lines_of rows.now) (customer.now, (class, key.now))) }
{
    match find_line(rows, customer, class, key.as_str()) {
        Some(row) => Ok(Some(row.line.action.copy(memory)?)),
        None => Ok(None),
    }
}

/// How many lines the customer has.
pub fn count_in(rows: &[LineRow], customer: &Name) -> u64
    ensures { result ≡ count_by (is_line_past customer.now None) rows.now }
{
    rows.iter()
        .filter(|row| row.is_past(customer, None))
        .count() as u64
}

fn drop_row(rows: &mut Vec<LineRow>, customer: &Name, pattern: &Pattern)
    ensures { rows.new.items ≡ filter
        (λ row. not (is_line customer.now pattern.now row)) rows.old.items }
{
    rows.retain(|row| row.is_other(customer, pattern));
}

/// Drops the line of a pattern.
pub fn drop_line(rows: &mut Vec<LineRow>, customer: &Name, pattern: &Pattern)
    ensures table { lines_of rows.new.items
        ≡ maps.remove (lines_of rows.old.items) (customer.now, pattern.now) }
    ensures unique { AreUniqueLines rows.old.items → AreUniqueLines rows.new.items }
{
    drop_row(rows, customer, pattern);
}

/// Sets the line of its pattern.
pub fn put_line<M: Memory>(
    memory: M,
    rows: &mut Vec<LineRow>,
    customer: &Name,
    line: &Line,
) -> Result<(), AllocError>
    ensures table { MadeIn M.refused result (λ _. lines_of rows.new.items ≡ maps.insert
        (lines_of rows.old.items) (customer.now, line.now.pattern) line.now.action) }
    ensures unique { AreUniqueLines rows.old.items → OnOk result (AreUniqueLines rows.new.items) }
{
    let row = LineRow {
        customer: customer.copy(memory)?,
        line: line.copy(memory)?,
    };
    drop_row(rows, customer, &line.pattern);
    memory.push(rows, row)?;
    Ok(())
}

/// The customer's lines after a pattern, as their rows lie.
fn lines_past<M: Memory>(
    memory: M,
    rows: &[LineRow],
    customer: &Name,
    after: Option<&Pattern>,
) -> Result<Vec<Line>, AllocError>
    ensures { MadeIn M.refused result (λ lines. lines.items ≡ map (λ row. row.line) (filter
        (is_line_past customer.now (option_map (λ p. p.now) after.entry)) rows.now)) }
{
    let mut lines = memory.none();
    for row in rows {
        if row.is_past(customer, after) {
            memory.push(&mut lines, row.line.copy(memory)?)?;
        }
    }
    Ok(lines)
}

fn line_order(a: &Line, b: &Line) -> Ordering
    ensures { result ≡ line_cmp a.now.pattern b.now.pattern }
{
    order(a.pattern.class(), a.pattern.as_str(), &b.pattern)
}

/// The customer's lines in the order of class and pattern: the first `limit` after a pattern, or of
/// all.
pub fn page_in<M: Memory>(
    memory: M,
    rows: &[LineRow],
    customer: &Name,
    after: Option<&Pattern>,
    limit: usize,
) -> Result<Items<Line>, AllocError>
    ensures { AreUniqueLines rows.now → MadeIn M.refused result (λ page.
        page ≡ take limit (after_pattern (option_map (λ p. p.now) after.entry)
        (map line_of (line_rows_with customer.now rows.now)))) }
{
    let mut lines = lines_past(memory, rows, customer, after)?;
    lines.sort_unstable_by(|a, b| line_order(a, b));
    lines.truncate(limit);
    Ok(Items::from_vec(lines))
}
