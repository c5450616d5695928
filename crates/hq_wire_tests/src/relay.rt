//! The relay of these tests, its two customers, and what they ask as lines `METHOD PATH KEY BODY`.

use hq_desk::Desk;
use hq_kept::{Customer, Entry, Quota};
use hq_lists::ListShelf;
use hq_memory::own_text;
use hq_moves::MovesMessages;
use hq_values::{Fail as Failure, Host, Key, Moment, Name};
use hq_wire::{Directory, Exchange, Reply, are_customers, exchange};
use std::alloc::Global;
use std::process::Abort;
use std::str;
use std::test::Fail;

/// The moment of every exchange: 2026-01-01T00:00:00Z.
const START: u64 = 1_767_225_600;

fn acme_quota() -> Quota {
    Quota {
        messages: 2,
        bytes: 10_000,
        lines: 10,
        notices: 5,
    }
}

fn birch_quota() -> Quota {
    Quota {
        messages: 100,
        bytes: 1_000_000,
        lines: 100,
        notices: 10,
    }
}

fn customer(alloc: Global, name: &str, key: &str, quota: Quota) -> Result<Customer, Failure> {
    let entry = Entry {
        name: Name::parse(alloc, name)?,
        quota,
        delay: 3600,
        history: 0,
    };
    let key = Key::parse(alloc, key)?;
    Ok(Customer { entry, key })
}

fn customers(alloc: Global) -> Result<Vec<Customer>, Failure> {
    let mut customers = Vec::new(alloc);
    for (name, key, quota) in [
        ("acme", "acmekey000000001", acme_quota()),
        ("birch", "birchkey00000001", birch_quota()),
    ] {
        customers.push(customer(alloc, name, key, quota)?)?;
    }
    Ok(customers)
}

/// The directory of both customers under this key of the relay, or its refusal.
pub fn directory_under(
    rt: &(impl Abort + AllocGlobal),
    relay_key: &str,
) -> Result<Directory, Failure> {
    let customers = customers(rt.alloc())?;
    assert!(rt; are_customers(customers.as_slice()));
    let relay_key = Key::parse(rt.alloc(), relay_key)?;
    Directory::new(rt.alloc(), relay_key, customers)
}

pub fn directory(rt: &(impl Abort + AllocGlobal)) -> Result<Directory, Failure> {
    directory_under(rt, "relaykey00000001")
}

/// A desk over this shelf.
pub fn desk_over<S: MovesMessages + Drop>(alloc: Global, shelf: S) -> Result<Desk<S>, Failure> {
    Ok(Desk::new(shelf, Host::parse(alloc, "relay.example")?))
}

/// A word of a line; the last one has the rest of the line, and one that is missing is empty.
fn word<'a>(line: &'a str, index: usize) -> &'a str {
    line.splitn(4, ' ').nth(index).unwrap_or("")
}

pub fn exchange_of(
    alloc: Global,
    method: &str,
    path: &str,
    key: Option<&str>,
    body: &str,
) -> Result<Exchange, Fail> {
    Ok(Exchange {
        at: Moment::new(START).ok_or("no moment")?,
        method: String::from_str(alloc, method)?,
        path: String::from_str(alloc, path)?,
        key: own_text(alloc, key)?,
        body: Vec::from_slice(alloc, body.as_bytes())?,
    })
}

/// The exchange of a line; the key `-` is none.
pub fn asked(alloc: Global, line: &str) -> Result<Exchange, Fail> {
    let key = match word(line, 2) {
        "-" => None,
        key => Some(key),
    };
    exchange_of(alloc, word(line, 0), word(line, 1), key, word(line, 3))
}

/// A reply as a line `STATUS BODY`.
pub fn line_of(alloc: Global, reply: &Reply<'_>) -> Result<String, Fail> {
    let body = str::from_utf8(reply.body.as_bytes())?;
    Ok(format!(in alloc; "{} {body}", reply.status)?)
}

/// A reply, in a function of its own: its callers need nothing of the contract of an exchange.
fn replied<'d>(
    alloc: Global,
    desk: &mut Desk<ListShelf<Global>>,
    directory: &'d Directory,
    asked: &Exchange,
) -> Reply<'d> {
    exchange(alloc, desk, directory, asked)
}

/// Asks, and compares what is replied.
pub fn expect_reply(
    rt: &(impl Abort + AllocGlobal),
    desk: &mut Desk<ListShelf<Global>>,
    asked: &Exchange,
    want: &str,
) -> Result<(), Fail> {
    let directory = directory(rt)?;
    let reply = replied(rt.alloc(), desk, &directory, asked);
    assert_eq!(rt; line_of(rt.alloc(), &reply)?.as_str(), want);
    Ok(())
}

/// Asks an empty desk, and compares what is replied.
pub fn expect_first_reply(
    rt: &(impl Abort + AllocGlobal),
    asked: &Exchange,
    want: &str,
) -> Result<(), Fail> {
    let mut desk = desk_over(rt.alloc(), ListShelf::new(rt.alloc()))?;
    expect_reply(rt, &mut desk, asked, want)
}

/// Asks each line in turn, and compares what is replied.
pub fn expect_rows(
    rt: &(impl Abort + AllocGlobal),
    desk: &mut Desk<ListShelf<Global>>,
    rows: &[(&str, &str)],
) -> Result<(), Fail> {
    for (line, want) in rows {
        expect_reply(rt, desk, &asked(rt.alloc(), line)?, want)?;
    }
    Ok(())
}
