//! The rows of marks: look-up and put.

ghost use Rattle.std.specs.Prelude.{◌≡◌, not, filter, option_map};
ghost use Rattle.std.specs.List as list;
ghost use Rattle.std.specs.FinMap as maps;
ghost use Rattle.hq_memory.specs.Making.{MadeIn};
ghost use Rattle.hq_rows.specs.Listed.{marks_of};
ghost use Rattle.hq_rows.specs.Lookups.{is_mark};

use hq_kept::Mark;
use hq_memory::Memory;
use hq_rows::MarkRow;
use hq_values::{Label, Name, TryCopy};
use std::alloc::AllocError;

fn find_mark<'a>(rows: &'a [MarkRow], customer: &Name, label: &Label) -> Option<&'a MarkRow>
    ensures { option_map (λ row. row.now) result
        ≡ list.find (is_mark customer.now label.now) rows.now }
{
    rows.iter().find(|row| row.is_at(customer, label))
}

/// The customer's mark of this label.
pub fn mark_in<M: Memory>(
    memory: M,
    rows: &[MarkRow],
    customer: &Name,
    label: &Label,
) -> Result<Option<Mark>, AllocError>
    ensures { MadeIn M.refused result (λ found. found
        ≡ maps.get (marks_of rows.now) (customer.now, label.now)) }
{
    match find_mark(rows, customer, label) {
        Some(row) => Ok(Some(row.mark.copy(memory)?)),
        None => Ok(None),
    }
}

fn drop_row(rows: &mut Vec<MarkRow>, customer: &Name, label: &Label)
    ensures { rows.new.items ≡ filter
        (λ row. not (is_mark customer.now label.now row)) rows.old.items }
{
    rows.retain(|row| row.is_other(customer, label));
}

/// Sets the mark of its label.
pub fn put_mark<M: Memory>(
    memory: M,
    rows: &mut Vec<MarkRow>,
    customer: &Name,
    mark: &Mark,
) -> Result<(), AllocError>
    ensures { MadeIn M.refused result (λ _. marks_of rows.new.items ≡ maps.insert
        (marks_of rows.old.items) (customer.now, mark.now.label) mark.now) }
{
    let row = MarkRow {
        customer: customer.copy(memory)?,
        mark: mark.copy(memory)?,
    };
    drop_row(rows, customer, &mark.label);
    memory.push(rows, row)?;
    Ok(())
}
