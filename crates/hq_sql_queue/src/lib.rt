//! Whole messages of the store on `sqlite`: their rows with their recipients and their reasons, one
//! or a page of them.
#![tactic(auto)]

mod dealing;
mod page_parts;
pub mod queued;
