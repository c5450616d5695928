//! Replies to faults.

ghost use Rattle.std.specs.Prelude.{◌≡◌, not, option_map};
ghost use Rattle.hq_requests.specs.Directories.{whose_seen};
ghost use Rattle.hq_requests.specs.Named.{whose_told};
ghost use Rattle.hq_wire.specs.Replies.{fault_text, reply_of_fault, seen};
ghost use Rattle.hq_wire.specs.Replies.{tells_store, is_memory};

use hq_requests::{Body, Caller, Reply};
use hq_values::Fault;

/// The body of the reply to a fault.
pub(crate) fn fault_text(fault: Fault) -> &'static str
    ensures { result.now ≡ fault_text fault }
{
    match fault {
        Fault::WantOfMemory => "{\"error\":90,\"name\":\"WantOfMemory\"}",
        Fault::Disk => "{\"error\":91,\"name\":\"Disk\"}",
        Fault::BadSchema => "{\"error\":92,\"name\":\"BadSchema\"}",
        Fault::Closed => "{\"error\":93,\"name\":\"Closed\"}",
    }
}

/// The reply to a fault, of this caller: 503 with a fixed text. It takes no memory.
#[tactic(auto, using(crate::proofs::Numbers::of_fault), unfolding(crate::specs::Replies::reply_of_fault))]
pub fn fault_reply<'d>(caller: Option<Caller<'d>>, fault: Fault) -> Reply<'d>
    ensures told { seen result ≡ reply_of_fault fault }
    ensures store { tells_store (seen result) ≡ not (is_memory fault) }
    ensures whose { whose_told result
        ≡ option_map whose_seen caller.entry }
{
    Reply {
        status: 503,
        number: fault.number(),
        caller,
        body: Body::Fixed(fault_text(fault)),
    }
}
