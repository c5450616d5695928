//! One connection of `serve_one`, which the program does not call: what it sends, and what is
//! written to it. Expected values are the form of a response and the replies of the desk's calls.

use crate::relay::{desk_over, directory};
use hq_lists::ListShelf;
use hq_log::NoLog;
use hq_serve::serve_one;
use hq_values::Moment;
use std::process::Abort;
use std::test::Fail;

const EMPTY: &str = "HTTP/1.1 200 OK\r\nContent-Type: application/json\r\nContent-Length: 108\r\n\
    Connection: close\r\n\r\n{\"accepted\":0,\"bytes\":0,\"deleted\":0,\"delivered\":0,\
    \"expired\":0,\"failed\":0,\"lines\":0,\"messages\":0,\"pending\":0}";

const REFUSED: &str = "HTTP/1.1 400 Bad Request\r\nContent-Type: application/json\r\n\
    Content-Length: 31\r\nConnection: close\r\n\r\n{\"error\":1,\"name\":\"BadRequest\"}";

/// What a connection sends, and what is written to it.
const CONNECTIONS: [(&[u8], &str); 4] = [
    (b"", ""),
    (
        b"GET /v1/usage HTTP/1.1\r\nX-Desk-Key: acmekey000000001\r\n\r\n",
        EMPTY,
    ),
    (b"GET /v1/usage HT", REFUSED),
    (
        b"GET /v1/usage HTTP/1.1\r\nX-Desk-Key: acmekey000000001\r\n\
            Content-Length: 0\r\nContent-Length: 0\r\n\r\n",
        REFUSED,
    ),
];

/// What is written to a connection that sends these bytes.
fn response(rt: &(impl Abort + AllocGlobal), input: &[u8]) -> Result<Vec<u8>, Fail> {
    let alloc = rt.alloc();
    let directory = directory(rt)?;
    let mut desk = desk_over(alloc, ListShelf::new(alloc))?;
    let (mut reader, mut output) = (input, Vec::new(alloc));
    let at = Moment::no_later(0);
    match serve_one(
        alloc,
        &mut reader,
        &mut output,
        &mut desk,
        &directory,
        at,
        &mut NoLog,
    ) {
        Ok(()) => Ok(output),
        Err(_) => Err(Fail::from("a fault")),
    }
}

#[test]
fn connections(rt: HostRuntime) -> Result<(), Fail> {
    for (input, wanted) in CONNECTIONS {
        let output = response(&rt, input)?;
        assert_eq!(rt; output.as_slice(), wanted.as_bytes());
    }
    Ok(())
}
