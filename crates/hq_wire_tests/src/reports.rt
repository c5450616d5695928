//! How many messages a report asks a shelf for at once.

use crate::relay::{asked, desk_over, directory, line_of};
use hq_lists::ListShelf;
use hq_trial::{FailingShelf, Failure};
use hq_wire::exchange;
use std::test::Fail;

/// A report asks for at most a hundred messages, also of an empty queue.
#[test]
fn a_report_asks_for_a_hundred(rt: HostRuntime) -> Result<(), Fail> {
    let shelf = FailingShelf::new(ListShelf::new(rt.alloc()), Failure::DiskOnce { at: 0 });
    let mut desk = desk_over(rt.alloc(), shelf)?;
    let directory = directory(&rt)?;
    let asked = asked(rt.alloc(), "GET /v1/report acmekey000000001")?;
    let reply = exchange(rt.alloc(), &mut desk, &directory, &asked);
    assert_eq!(rt;
        line_of(rt.alloc(), &reply)?.as_str(),
        "200 {\"report\":\"Mail queue is empty\\n\"}"
    );
    assert_eq!(rt; desk.into_shelf().greatest_limit(), 100);
    Ok(())
}
