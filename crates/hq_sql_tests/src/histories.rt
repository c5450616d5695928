//! A history of customers that come and leave, and what they are replied.

use hq_kept::{Customer, Entry, Quota};
use hq_sql_across::{Visit, history};
use hq_values::{Fail as Failure, Host, Key, Moment, Name};
use hq_wire::{Directory, Exchange, Reply, are_customers};
use sqlite::{Alter, Connection, FileStore, Files, Options};
use sqlite_disk::Memory;
use sqlite_trees::store::Reopen;
use std::alloc::{AllocError, Global};
use std::process::Abort;
use std::str;
use std::test::Fail;

/// The moment of every exchange: 2026-01-01T00:00:00Z.
const START: u64 = 1_767_225_600;

const SUBMIT_ACME: &str =
    "POST /relay/submit/acme relaykey00000001 {\"spool\":\"s1\",\"sender\":\"ann@a.example\",\
     \"recipients\":[\"bob@far.example\"],\"size\":900}";

const SUBMIT_BIRCH: &str =
    "POST /relay/submit/birch relaykey00000001 {\"spool\":\"s1\",\"sender\":\"ann@a.example\",\
     \"recipients\":[\"bob@far.example\"],\"size\":900}";

const QUEUED_FIRST: &str =
    "200 {\"id\":\"0000000001\",\"recipients\":[\"bob@far.example\"],\"refused\":[],\
     \"state\":\"incoming\",\"verdict\":\"queued\"}";

const HOLD_ACME: &str = "POST /v1/hold/0000000001 acmekey000000001";

const DELETE_ACME: &str = "DELETE /v1/message/0000000001 acmekey000000001";

const LIST_ACME: &str = "GET /v1/messages acmekey000000001";

const LISTED_NONE: &str = "200 {\"messages\":[],\"more\":false}";

const LIST_BIRCH: &str = "GET /v1/messages birchkey00000001";

const LISTED_BIRCH: &str =
    "200 {\"messages\":[{\"arrival\":1767225600,\"id\":\"0000000001\",\"reason\":\"\",\
     \"recipients\":1,\"sender\":\"ann@a.example\",\"size\":900,\"state\":\"incoming\"}],\
     \"more\":false}";

const LIST_CEDAR: &str = "GET /v1/messages cedarkey00000001";

const NO_KEY: &str = "401 {\"error\":2,\"name\":\"NoKey\"}";

/// What each customer's key is.
const KEYS: [(&str, &str); 3] = [
    ("acme", "acmekey000000001"),
    ("birch", "birchkey00000001"),
    ("cedar", "cedarkey00000001"),
];

/// The customers of a session, and its lines, each with its reply.
#[derive(Drop)]
struct Session {
    customers: &'static [(&'static str, &'static str)],
    rows: &'static [(&'static str, &'static str)],
}

/// Three sessions: birch has left in the second and is back in the third, in which cedar is new.
/// The first opens a store in which nothing was made.
fn sessions() -> [Session; 3] {
    [
        Session {
            customers: &KEYS[..2],
            rows: &[
                (SUBMIT_ACME, QUEUED_FIRST),
                (SUBMIT_BIRCH, QUEUED_FIRST),
                (LIST_CEDAR, NO_KEY),
            ],
        },
        Session {
            customers: &KEYS[..1],
            rows: &[
                (HOLD_ACME, "200 {\"changed\":1}"),
                (LIST_BIRCH, NO_KEY),
                (DELETE_ACME, "200 {\"changed\":1}"),
            ],
        },
        Session {
            customers: &KEYS,
            rows: &[
                (HOLD_ACME, "404 {\"error\":10,\"name\":\"NoMessage\"}"),
                (LIST_ACME, LISTED_NONE),
                (LIST_BIRCH, LISTED_BIRCH),
                (LIST_CEDAR, LISTED_NONE),
            ],
        },
    ]
}

fn customer(alloc: Global, name: &str, key: &str) -> Result<Customer, Failure> {
    let quota = Quota {
        messages: 100,
        bytes: 1_000_000,
        lines: 100,
        notices: 10,
    };
    let entry = Entry {
        name: Name::parse(alloc, name)?,
        quota,
        delay: 3600,
        history: 0,
    };
    let key = Key::parse(alloc, key)?;
    Ok(Customer { entry, key })
}

/// The directory of these customers, with their keys.
fn directory(
    rt: &(impl Abort + AllocGlobal),
    named: &[(&str, &str)],
) -> Result<Directory, Failure> {
    let alloc = rt.alloc();
    let mut customers = Vec::new(alloc);
    for (name, key) in named {
        customers.push(customer(alloc, name, key)?)?;
    }
    assert!(rt; are_customers(customers.as_slice()));
    let relay_key = Key::parse(alloc, "relaykey00000001")?;
    Directory::new(alloc, relay_key, customers)
}

/// A word of a line; the last one has the rest of the line, and one that is missing is empty.
fn word<'a>(line: &'a str, index: usize) -> &'a str {
    line.splitn(4, ' ').nth(index).unwrap_or("")
}

/// The exchange of a line `METHOD PATH KEY BODY`.
fn asked(alloc: Global, line: &str) -> Result<Exchange, Fail> {
    Ok(Exchange {
        at: Moment::new(START).ok_or("no moment")?,
        method: String::from_str(alloc, word(line, 0))?,
        path: String::from_str(alloc, word(line, 1))?,
        key: Some(String::from_str(alloc, word(line, 2))?),
        body: Vec::from_slice(alloc, word(line, 3).as_bytes())?,
    })
}

/// A reply as a line `STATUS BODY`.
fn line_of(alloc: Global, reply: &Reply<'_>) -> Result<String, Fail> {
    let body = str::from_utf8(reply.body.as_bytes())?;
    Ok(format!(in alloc; "{} {body}", reply.status)?)
}

/// What is asked in each session, by its directory.
fn visits(rt: &(impl Abort + AllocGlobal)) -> Result<Vec<Visit>, Fail> {
    let alloc = rt.alloc();
    let mut visits = Vec::new(alloc);
    for session in sessions() {
        let mut exchanges = Vec::new(alloc);
        for (line, _) in session.rows {
            exchanges.push(asked(alloc, line)?)?;
        }
        visits.push(Visit {
            directory: directory(rt, session.customers)?,
            exchanges,
        })?;
    }
    Ok(visits)
}

/// A connection to two new files in memory.
fn connected(alloc: Global) -> Result<Connection<FileStore<Memory>>, Fail> {
    let files = Files {
        log: Memory::new(alloc),
        db: Memory::new(alloc),
    };
    match Connection::open_files(alloc, files, Options::new(1)) {
        Ok(conn) => Ok(conn),
        Err(_) => Err(Fail::from("not opened")),
    }
}

/// The replies of each session, over any store: its callers need nothing of the contract of a
/// history, which is dear to read over a store of two files.
fn replied<'v, S: Alter + Reopen + Drop>(
    alloc: Global,
    conn: Connection<S>,
    visits: &'v [Visit],
) -> Result<(Vec<Vec<Reply<'v>>>, bool), Fail> {
    let host = Host::parse(alloc, "relay.example")?;
    let served = history(alloc, conn, &host, visits)?;
    Ok((served.replies, served.in_doubt))
}

/// A stop loses nothing that was replied before it, each customer is told of its own alone, and
/// one that left finds its records when it is back.
#[test]
fn sessions_of_customers_that_come_and_leave(rt: HostRuntime) -> Result<(), Fail> {
    let alloc = rt.alloc();
    let visits = visits(&rt)?;
    let conn = connected(alloc)?;
    let (replies, in_doubt) = replied(alloc, conn, visits.as_slice())?;
    assert!(rt; !in_doubt);
    assert_eq!(rt; replies.len(), 3);
    for (told, session) in replies.iter().zip(sessions()) {
        assert_eq!(rt; told.len(), session.rows.len());
        for (reply, (_, want)) in told.iter().zip(session.rows) {
            assert_eq!(rt; line_of(alloc, reply)?.as_str(), *want);
        }
    }
    Ok(())
}
