//! The rows of histories: addition, the drop of old ones, and pages.

ghost use Rattle.std.specs.Prelude.{◌≡◌, nat_le, nat_lt, not, OnOk, filter, map, take};
ghost use Rattle.std.specs.FinMap as maps;
ghost use Rattle.hq_memory.specs.Making.{MadeIn};
ghost use Rattle.hq_tables.specs.Tables.{left_of, newest_cmp, past_of, end_of};
ghost use Rattle.hq_tables.specs.Tables.{add_rows, last_before};
ghost use Rattle.hq_tables.specs.Readings.{before_end};
ghost use Rattle.hq_rows.specs.Listed.{ends_of};
ghost use Rattle.hq_rows.specs.Lookups.{is_end, is_end_before, is_kept_end, is_earlier_end};
ghost use Rattle.hq_rows.specs.Lookups.{end_rows_with, AreUniqueEnds};

use hq_kept::{End, Ends};
use hq_memory::Memory;
use hq_rows::EndRow;
use hq_values::{Items, Name, TryCopy};
use std::alloc::AllocError;
use std::cmp::Ordering;

fn drop_row(rows: &mut Vec<EndRow>, customer: &Name, number: u64)
    ensures { rows.new.items ≡ filter
        (λ row. not (is_end customer.now number row)) rows.old.items }
{
    rows.retain(|row| row.is_other(customer, number));
}

/// Sets the end of its number.
fn put_end<M: Memory>(
    memory: M,
    rows: &mut Vec<EndRow>,
    customer: &Name,
    end: End,
) -> Result<(), AllocError>
    ensures table { MadeIn M.refused result (λ _. ends_of rows.new.items
        ≡ maps.insert (ends_of rows.old.items) (customer.now, end.number) (past_of end)) }
    ensures unique { AreUniqueEnds rows.old.items → OnOk result (AreUniqueEnds rows.new.items) }
{
    let row = EndRow {
        customer: customer.copy(memory)?,
        end,
    };
    drop_row(rows, customer, row.end.number);
    memory.push(rows, row)?;
    Ok(())
}

fn drop_above(rows: &mut Vec<EndRow>, customer: &Name, number: u64)
    ensures { rows.new.items ≡ filter (is_earlier_end customer.now number) rows.old.items }
{
    rows.retain(|row| row.is_earlier(customer, number));
}

/// Sets these ends, in place of all from the number of the first of them on. Of more ends than the
/// number of the last, which no desk puts, the first ones have the number 0, and the last of these
/// stays.
pub fn put_ends<M: Memory>(
    memory: M,
    rows: &mut Vec<EndRow>,
    customer: &Name,
    ends: &Ends,
) -> Result<(), AllocError>
    ensures table { MadeIn M.refused result (λ _. ends_of rows.new.items
        ≡ add_rows customer.now ends.now.at ends.now.last ends.now.ended
        (maps.retain_keys (ends_of rows.old.items)
        (left_of customer.now (λ n. nat_le n (last_before ends.now))))) }
    ensures unique { AreUniqueEnds rows.old.items
        → OnOk result (AreUniqueEnds rows.new.items) }
{
    let mut left = ends.ended.len() as u64;
    drop_above(rows, customer, ends.last.saturating_sub(left));
    for ended in ends.ended.as_slice() {
        left -= 1;
        let end = End {
            number: ends.last.saturating_sub(left),
            at: ends.at,
            ended: ended.copy(memory)?,
        };
        put_end(memory, rows, customer, end)?;
    }
    Ok(())
}

/// Drops the customer's ends of numbers up to this one.
pub fn drop_to(rows: &mut Vec<EndRow>, customer: &Name, number: u64)
    ensures table { ends_of rows.new.items ≡ maps.retain_keys (ends_of rows.old.items)
        (left_of customer.now (nat_lt number)) }
    ensures unique { AreUniqueEnds rows.old.items → AreUniqueEnds rows.new.items }
{
    retain_above(rows, customer, number);
}

fn retain_above(rows: &mut Vec<EndRow>, customer: &Name, number: u64)
    ensures { rows.new.items ≡ filter (is_kept_end customer.now number) rows.old.items }
{
    rows.retain(|row| row.is_kept(customer, number));
}

/// The customer's ends before a number, as their rows lie.
fn ends_before<M: Memory>(
    memory: M,
    rows: &[EndRow],
    customer: &Name,
    before: Option<u64>,
) -> Result<Vec<End>, AllocError>
    ensures { MadeIn M.refused result (λ ends. ends.items ≡ map (λ row. row.end) (filter
        (is_end_before customer.now before) rows.now)) }
{
    let mut ends = memory.none();
    for row in rows {
        if row.is_before(customer, before) {
            memory.push(&mut ends, row.end.copy(memory)?)?;
        }
    }
    Ok(ends)
}

fn end_order(a: &End, b: &End) -> Ordering
    ensures { result ≡ newest_cmp a.now.number b.now.number }
{
    b.number.cmp(&a.number)
}

/// The customer's ends, the newest first: the first `limit` before a number, or of all.
pub fn page_in<M: Memory>(
    memory: M,
    rows: &[EndRow],
    customer: &Name,
    before: Option<u64>,
    limit: usize,
) -> Result<Items<End>, AllocError>
    ensures { AreUniqueEnds rows.now → MadeIn M.refused result (λ page. page ≡ take limit
        (before_end before (map end_of (end_rows_with customer.now rows.now)))) }
{
    let mut ends = ends_before(memory, rows, customer, before)?;
    ends.sort_unstable_by(|a, b| end_order(a, b));
    ends.truncate(limit);
    Ok(Items::from_vec(ends))
}
