//! The tests of the wire that lines of a batch cannot say: bodies at their longest, words that no
//! line has, directories that are refused, runs, how much a report asks for at once, one connection
//! by itself; and what `Display` and `Debug` write of refusals, faults and keys. What lines can say
//! stands in `tests/examples/` and `tests/store/`. The tests stand apart so that the wire is proved
//! once, and not again with them.
#![tactic(auto)]

#[cfg(test)]
mod connections;
#[cfg(test)]
mod exchanges;
#[cfg(test)]
mod printed;
#[cfg(test)]
mod relay;
#[cfg(test)]
mod reports;
#[cfg(test)]
mod runs;
