//! The rows of the tables, one type for each table, and the tests of their keys; and what lists of
//! rows stand for, whichever store keeps them.
#![tactic(auto)]

mod copies;
mod rows;

pub use rows::{
    EndRow, HeadRow, HoldRow, LineRow, MarkRow, MessageRow, NoticeRow, RecipientRow, order,
};
