//! For tests alone: a history of customers that come and leave, sessions of a desk over two files
//! in memory, which lose what was not synced between one session and the next. No program calls it.
#![tactic(auto)]

#[cfg(test)]
mod histories;
