//! The program `hq_main`: the desk of a mail relay's customers.
//!
//! `serve` answers over HTTP and `batch` over lines; other words do one call over a store. Without
//! words two built-in customers are served over lines, from an empty desk in memory.
#![tactic(auto)]

mod command;
mod rounds;
mod stores;

use command::command;
use hq_batch::{not_begun, words};
use hq_log::HostLogs;
use hq_network::HostNetwork;
use hq_sql_shelf::{Disk, DiskStores, HostDisk};
use std::io::{self, BufWriter};
use std::process::ExitCode;

/// Runs the program over the process's input and outputs, its network and logs, and the stores of a
/// disk. A reply is gathered, and written at once when it is whole.
fn run_words<'r, D: Disk + Drop>(
    rt: &'r HostRuntime,
    disk: D,
    words: &'r [String],
) -> io::Result<u8> {
    let mut output = BufWriter::new(rt.alloc(), rt.stdout())?;
    Ok(command(
        rt,
        &mut HostNetwork::new(rt),
        &mut HostLogs::new(rt),
        &mut DiskStores::new(disk),
        words,
        &mut rt.stdin(),
        &mut output,
        &mut rt.stderr(),
    ))
}

/// Runs the program with the words that the process has.
fn run<D: Disk + Drop>(rt: &HostRuntime, disk: D) -> io::Result<u8> {
    let words = words(rt)?;
    run_words(rt, disk, words.as_slice())
}

fn main(rt: HostRuntime) -> ExitCode {
    let status = match run(&rt, HostDisk::new(&rt)) {
        Ok(status) => status,
        Err(error) => not_begun(&error, &mut rt.stderr()),
    };
    ExitCode::from(status)
}
