//! Exchanges one by one.

use crate::relay::{
    asked, desk_over, directory_under, exchange_of, expect_first_reply, expect_rows,
};
use hq_lists::ListShelf;
use std::test::Fail;

const BAD_JSON: &str = "400 {\"error\":7,\"name\":\"BadJson\"}";

const BODY_TOO_LONG: &str = "413 {\"error\":6,\"name\":\"BodyTooLong\"}";

/// A body may have 262,144 bytes; one more is told before all else.
#[test]
fn bodies_of_spaces(rt: HostRuntime) -> Result<(), Fail> {
    for (line, length, want) in [
        (
            "POST /relay/submit/acme relaykey00000001",
            262_144,
            BAD_JSON,
        ),
        (
            "POST /relay/submit/acme relaykey00000001",
            262_145,
            BODY_TOO_LONG,
        ),
        ("PUT /nowhere -", 262_145, BODY_TOO_LONG),
    ] {
        let mut asked = asked(rt.alloc(), line)?;
        asked.body = vec![in rt.alloc(); b' '; length]?;
        expect_first_reply(&rt, &asked, want)?;
    }
    Ok(())
}

const NO_KEY: &str = "401 {\"error\":2,\"name\":\"NoKey\"}";

const NO_ROUTE: &str = "404 {\"error\":4,\"name\":\"NoRoute\"}";

const WRONG_METHOD: &str = "405 {\"error\":5,\"name\":\"WrongMethod\"}";

const BAD_FIELD: &str = "400 {\"error\":8,\"name\":\"BadField\"}";

/// A key that is `-` or empty, a method that is empty, spaces in a path.
#[test]
fn words_that_no_line_has(rt: HostRuntime) -> Result<(), Fail> {
    for (method, path, key, want) in [
        ("GET", "/v1/messages", "-", NO_KEY),
        ("GET", "/v1/messages", "", NO_KEY),
        ("", "/v1/messages", "acmekey000000001", WRONG_METHOD),
        ("GET", "/v1/messages ", "acmekey000000001", NO_ROUTE),
        (
            "GET",
            "/v1/message/000000000 ",
            "acmekey000000001",
            BAD_FIELD,
        ),
    ] {
        let asked = exchange_of(rt.alloc(), method, path, Some(key), "")?;
        expect_first_reply(&rt, &asked, want)?;
    }
    Ok(())
}

/// Line feeds may stand in a body.
#[test]
fn a_body_of_several_lines(rt: HostRuntime) -> Result<(), Fail> {
    let mut desk = desk_over(rt.alloc(), ListShelf::new(rt.alloc()))?;
    expect_rows(
        &rt,
        &mut desk,
        &[(
            "POST /relay/submit/acme relaykey00000001 \n{\"spool\":\"s1\",\n\"sender\":\"\",\
             \"recipients\":[\"b@c\"],\"size\":1}\r\n",
            "200 {\"id\":\"0000000001\",\"recipients\":[\"b@c\"],\"refused\":[],\
             \"state\":\"incoming\",\"verdict\":\"queued\"}",
        )],
    )
}

#[test]
fn the_relay_key_of_a_customer(rt: HostRuntime) -> Result<(), Fail> {
    for relay_key in ["acmekey000000001", "birchkey00000001"] {
        let refused = directory_under(&rt, relay_key).err().ok_or("taken")?;
        let shown = format!(in rt.alloc(); "{refused}")?;
        assert_eq!(rt; shown.as_str(), "57 BadRelayKey");
    }
    Ok(())
}
