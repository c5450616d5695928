//! Many exchanges in one run.

use crate::relay::{asked, desk_over, directory, line_of};
use hq_lists::ListShelf;
use hq_wire::{Directory, Exchange, Reply, run};
use std::alloc::Global;
use std::process::Abort;
use std::test::Fail;

const SUBMIT_ACME: &str =
    "POST /relay/submit/acme relaykey00000001 {\"spool\":\"s1\",\"sender\":\"ann@a.example\",\
     \"recipients\":[\"bob@far.example\"],\"size\":900}";

const SUBMIT_BIRCH: &str =
    "POST /relay/submit/birch relaykey00000001 {\"spool\":\"s1\",\"sender\":\"ann@a.example\",\
     \"recipients\":[\"bob@far.example\"],\"size\":900}";

const QUEUED_FIRST: &str =
    "200 {\"id\":\"0000000001\",\"recipients\":[\"bob@far.example\"],\"refused\":[],\
     \"state\":\"incoming\",\"verdict\":\"queued\"}";

const HOLD_ACME: &str = "POST /v1/hold/0000000001 acmekey000000001";

const LIST_BIRCH: &str = "GET /v1/messages birchkey00000001";

const LISTED_BIRCH: &str =
    "200 {\"messages\":[{\"arrival\":1767225600,\"id\":\"0000000001\",\"reason\":\"\",\
     \"recipients\":1,\"sender\":\"ann@a.example\",\"size\":900,\"state\":\"incoming\"}],\
     \"more\":false}";

/// The replies are those of the rows, in order.
fn expect_replies(
    rt: &(impl Abort + AllocGlobal),
    replies: &[Reply<'_>],
    rows: &[(&str, &str)],
) -> Result<(), Fail> {
    assert_eq!(rt; replies.len(), rows.len());
    for (reply, (_, want)) in replies.iter().zip(rows) {
        assert_eq!(rt; line_of(rt.alloc(), reply)?.as_str(), *want);
    }
    Ok(())
}

/// The rows are replied to in one run over an empty desk.
fn expect_run(rt: &(impl Abort + AllocGlobal), rows: &[(&str, &str)]) -> Result<(), Fail> {
    let alloc = rt.alloc();
    let directory = directory(rt)?;
    let exchanges = exchanges(alloc, rows)?;
    let mut desk = desk_over(alloc, ListShelf::new(alloc))?;
    let replies = run(alloc, &mut desk, &directory, exchanges.as_slice())?;
    expect_replies(rt, replies.as_slice(), rows)
}

fn exchanges(alloc: Global, rows: &[(&str, &str)]) -> Result<Vec<Exchange>, Fail> {
    let mut exchanges = Vec::new(alloc);
    for (line, _) in rows {
        exchanges.push(asked(alloc, line)?)?;
    }
    Ok(exchanges)
}

/// Both customers submit, acme holds its message twice, and birch lists its own.
const FIRST_ROWS: &[(&str, &str)] = &[
    (SUBMIT_ACME, QUEUED_FIRST),
    (SUBMIT_BIRCH, QUEUED_FIRST),
    (HOLD_ACME, "200 {\"changed\":1}"),
    (HOLD_ACME, "200 {\"changed\":0}"),
    (LIST_BIRCH, LISTED_BIRCH),
];

/// The share of birch, which it is replied to in the same way alone.
const BIRCH_ROWS: &[(&str, &str)] = &[(SUBMIT_BIRCH, QUEUED_FIRST), (LIST_BIRCH, LISTED_BIRCH)];

#[test]
fn runs(rt: HostRuntime) -> Result<(), Fail> {
    for rows in [FIRST_ROWS, BIRCH_ROWS, &[]] {
        expect_run(&rt, rows)?;
    }
    Ok(())
}
