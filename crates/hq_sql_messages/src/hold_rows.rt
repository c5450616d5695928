//! Reasons out of the rows of answers.

ghost use Rattle.std.specs.Prelude.{◌≡◌, [], option_map, slice_get, unwrap_or};
ghost use Rattle.hq_rows.specs.Listed.{hold_value};
ghost use Rattle.hq_sql.specs.Causes.{EndsSo};
ghost use Rattle.hq_sql.specs.Rows.{hold_shown};

use hq_sql::{SqliteMemory, values};
use hq_values::Text;
use sqlite::{Error, Row};

/// The reason of the first row; the empty one where there is none.
pub(crate) fn first_reason<M: SqliteMemory>(memory: M, rows: &[Row]) -> Result<Text, Error>
    ensures { EndsSo M.refused M.failed result (λ reason. reason
        ≡ unwrap_or (option_map (λ r. hold_value (hold_shown r)) (slice_get rows.now 0)) []) }
{
    match rows.first() {
        None => Ok(Text::empty(memory)),
        Some(row) => values::reason(memory, row, 2),
    }
}
