//! Lines and marks as the parameters of statements.

ghost use Rattle.std.specs.Prelude.{◌≡◌, ℕ, pos, [], ◌∷◌};
ghost use Rattle.sqlite.specs.Values.{bound};
ghost use Rattle.sqlite.specs.declared.types.Value.TheVariants.{Text};
ghost use Rattle.hq_kept.specs.Patterns.{class_name};
ghost use Rattle.hq_sql.specs.Causes.{EndsSo};
ghost use Rattle.hq_sql.specs.Rows.{mark_columns};
ghost use Rattle.hq_sql_lines.specs.LinePages.{first_columns, after_columns};
ghost use Rattle.hq_sql_lines.specs.Marks.{mark_key_columns, mark_numbers, mark_row};

use hq_kept::{Class, Mark, Pattern};
use hq_sql::SqliteMemory;
use hq_sql::bind::{RowLimit, large};
use hq_values::{Label, Name};
use sqlite::Error;
use sqlite::types::ValueRef;

/// The key of a line.
pub(crate) fn line_key<'a>(customer: &'a Name, class: Class, key: &'a str) -> [ValueRef<'a>; 3]
    ensures { bound result ≡ Text customer.now ∷ Text (class_name class) ∷ Text key.now ∷ [] }
{
    [
        ValueRef::Text(customer.as_str().as_bytes()),
        ValueRef::Text(class.name().as_bytes()),
        ValueRef::Text(key.as_bytes()),
    ]
}

/// The columns of a line, in the order of the table; its action is in its written form.
pub(crate) fn line<'a>(
    customer: &'a Name,
    class: Class,
    key: &'a str,
    action: &'a str,
) -> [ValueRef<'a>; 4]
    ensures { bound result
        ≡ Text customer.now ∷ Text (class_name class) ∷ Text key.now ∷ Text action.now ∷ [] }
{
    [
        ValueRef::Text(customer.as_str().as_bytes()),
        ValueRef::Text(class.name().as_bytes()),
        ValueRef::Text(key.as_bytes()),
        ValueRef::Text(action.as_bytes()),
    ]
}

/// What the first page of lines is asked with.
pub(crate) fn first_lines<'a>(customer: &'a Name, most: &RowLimit) -> [ValueRef<'a>; 2]
    ensures { (limit : ℕ) → most.now.rows ≡ pos limit
        → bound result ≡ first_columns customer.now limit }
{
    [
        ValueRef::Text(customer.as_str().as_bytes()),
        ValueRef::Int(most.rows),
    ]
}

/// What the page of lines after a pattern is asked with.
pub(crate) fn lines_after<'a>(
    customer: &'a Name,
    last: &'a Pattern,
    most: &RowLimit,
) -> [ValueRef<'a>; 4]
    ensures { (limit : ℕ) → most.now.rows ≡ pos limit
        → bound result ≡ after_columns customer.now last.now limit }
{
    [
        ValueRef::Text(customer.as_str().as_bytes()),
        ValueRef::Text(last.class().name().as_bytes()),
        ValueRef::Text(last.as_str().as_bytes()),
        ValueRef::Int(most.rows),
    ]
}

/// The key of a mark.
pub(crate) fn mark_key<'a>(customer: &'a Name, label: &'a Label) -> [ValueRef<'a>; 2]
    ensures { bound result ≡ mark_key_columns (customer.now, label.now) }
{
    [
        ValueRef::Text(customer.as_str().as_bytes()),
        ValueRef::Text(label.as_str().as_bytes()),
    ]
}

/// The numbers of a mark, as columns take them.
#[derive(Clone, Copy, Debug, PartialEq, Eq, Drop)]
pub(crate) struct MarkNumbers {
    added: i64,
    changed: i64,
    same: i64,
}

/// The numbers of a mark; one of 2^63 or more fits no column.
pub(crate) fn numbers<M: SqliteMemory>(memory: M, mark: &Mark) -> Result<MarkNumbers, Error>
    ensures { EndsSo M.refused M.failed result (λ bound. bound ≡ mark_numbers mark.now) }
{
    Ok(MarkNumbers {
        added: large(memory, mark.added)?,
        changed: large(memory, mark.changed)?,
        same: large(memory, mark.same)?,
    })
}

/// The columns of a mark, in the order of the table.
pub(crate) fn mark<'a>(
    customer: &'a Name,
    mark: &'a Mark,
    numbers: &MarkNumbers,
) -> [ValueRef<'a>; 6]
    ensures { numbers.now ≡ mark_numbers mark.now
        → bound result ≡ mark_columns (mark_row customer.now mark.now) }
{
    [
        ValueRef::Text(customer.as_str().as_bytes()),
        ValueRef::Text(mark.label.as_str().as_bytes()),
        ValueRef::Blob(&mark.digest),
        ValueRef::Int(numbers.added),
        ValueRef::Int(numbers.changed),
        ValueRef::Int(numbers.same),
    ]
}
