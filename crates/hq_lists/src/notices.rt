//! The rows of notices: look-up, addition, the drop of old ones, and pages.

ghost use Rattle.std.specs.Prelude.{◌≡◌, nat_le, not, OnOk, filter, map, take, option_map};
ghost use Rattle.std.specs.List as list;
ghost use Rattle.std.specs.FinMap as maps;
ghost use Rattle.std.specs.Ordering.{nat_cmp};
ghost use Rattle.hq_memory.specs.Making.{MadeIn};
ghost use Rattle.hq_tables.specs.Tables.{Noted, left_of, noted_of, notice_of};
ghost use Rattle.hq_tables.specs.Readings.{after_number};
ghost use Rattle.hq_rows.specs.Listed.{notices_of};
ghost use Rattle.hq_rows.specs.Lookups.{is_notice, is_notice_past, is_kept_notice};
ghost use Rattle.hq_rows.specs.Lookups.{notice_rows_with, AreUniqueNotices};

use hq_kept::Notice;
use hq_memory::Memory;
use hq_rows::NoticeRow;
use hq_values::{Items, Name, TryCopy};
use std::alloc::AllocError;
use std::cmp::Ordering;

fn find_notice<'a>(rows: &'a [NoticeRow], customer: &Name, number: u64) -> Option<&'a NoticeRow>
    ensures { option_map (λ row. row.now) result
        ≡ list.find (is_notice customer.now number) rows.now }
{
    rows.iter().find(|row| row.is_at(customer, number))
}

/// The customer's notice of this number.
pub fn notice_in<M: Memory>(
    memory: M,
    rows: &[NoticeRow],
    customer: &Name,
    number: u64,
) -> Result<Option<Notice>, AllocError>
    ensures { MadeIn M.refused result
        (λ found. found ≡ option_map (λ (n : Noted). notice_of (number, n))
        (maps.get (notices_of rows.now) (customer.now, number))) }
{
    match find_notice(rows, customer, number) {
        Some(row) => Ok(Some(row.notice.copy(memory)?)),
        None => Ok(None),
    }
}

fn drop_row(rows: &mut Vec<NoticeRow>, customer: &Name, number: u64)
    ensures { rows.new.items ≡ filter
        (λ row. not (is_notice customer.now number row)) rows.old.items }
{
    rows.retain(|row| row.is_other(customer, number));
}

/// Sets the notice of its number.
pub fn put_notice<M: Memory>(
    memory: M,
    rows: &mut Vec<NoticeRow>,
    customer: &Name,
    notice: &Notice,
) -> Result<(), AllocError>
    ensures table { MadeIn M.refused result (λ _. notices_of rows.new.items ≡ maps.insert
        (notices_of rows.old.items) (customer.now, notice.now.number) (noted_of notice.now)) }
    ensures unique { AreUniqueNotices rows.old.items
        → OnOk result (AreUniqueNotices rows.new.items) }
{
    let row = NoticeRow {
        customer: customer.copy(memory)?,
        notice: notice.copy(memory)?,
    };
    drop_row(rows, customer, notice.number);
    memory.push(rows, row)?;
    Ok(())
}

/// Drops the customer's notices of numbers below this one.
pub fn drop_below(rows: &mut Vec<NoticeRow>, customer: &Name, number: u64)
    ensures table { notices_of rows.new.items ≡ maps.retain_keys (notices_of rows.old.items)
        (left_of customer.now (nat_le number)) }
    ensures unique { AreUniqueNotices rows.old.items → AreUniqueNotices rows.new.items }
{
    retain_from(rows, customer, number);
}

fn retain_from(rows: &mut Vec<NoticeRow>, customer: &Name, number: u64)
    ensures { rows.new.items ≡ filter (is_kept_notice customer.now number) rows.old.items }
{
    rows.retain(|row| row.is_kept(customer, number));
}

/// The customer's notices after a number, as their rows lie.
fn notices_past<M: Memory>(
    memory: M,
    rows: &[NoticeRow],
    customer: &Name,
    after: Option<u64>,
) -> Result<Vec<Notice>, AllocError>
    ensures { MadeIn M.refused result (λ notices. notices.items
        ≡ map (λ row. row.notice) (filter (is_notice_past customer.now after) rows.now)) }
{
    let mut notices = memory.none();
    for row in rows {
        if row.is_past(customer, after) {
            memory.push(&mut notices, row.notice.copy(memory)?)?;
        }
    }
    Ok(notices)
}

fn notice_order(a: &Notice, b: &Notice) -> Ordering
    ensures { result ≡ nat_cmp a.now.number b.now.number }
{
    a.number.cmp(&b.number)
}

/// The customer's notices in order of number: the first `limit` after a number, or of all.
pub fn page_in<M: Memory>(
    memory: M,
    rows: &[NoticeRow],
    customer: &Name,
    after: Option<u64>,
    limit: usize,
) -> Result<Items<Notice>, AllocError>
    ensures { AreUniqueNotices rows.now → MadeIn M.refused result (λ page. page ≡ take limit
        (after_number after (map notice_of (notice_rows_with customer.now rows.now)))) }
{
    let mut notices = notices_past(memory, rows, customer, after)?;
    notices.sort_unstable_by(|a, b| notice_order(a, b));
    notices.truncate(limit);
    Ok(Items::from_vec(notices))
}
