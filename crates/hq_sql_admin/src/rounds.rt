//! The words `usage`, and `sweep` without a customer: a call of each customer of a directory, one
//! after the other.

ghost use Rattle.hq_sql_admin.specs.Rounds.{AsksRound, RoundOver, RoundAt};
ghost use Rattle.hq_sql_admin.specs.Rounds.{SweepAllEnds, UsageEnds};

use crate::requests::{LOCALHOST, NO_MOMENT};
use hq_admin::{ToldAll, call_each};
use hq_desk::Desk;
use hq_kept::Customer;
use hq_moves::MovesMessages;
use hq_rules::EachCall;
use hq_settings::{Files, Trouble, customers_of};
use hq_sql_shelf::Stores;
use hq_values::{Fault, Host, Moment};
use hq_words::{Sweep, UsageWord};
use std::alloc::Global;

/// A call of each customer that is asked for.
#[derive(Drop)]
struct Round {
    /// The relay's name.
    host: Host,
    /// When it is done.
    at: Moment,
    /// The call.
    each: EachCall,
    /// The customers, in the order of the directory.
    customers: Vec<Customer>,
}

/// The round of the customers of a directory, checked in the order relay's name, directory.
fn round_of<F: Files>(
    rt: &F,
    host: &str,
    at: Moment,
    each: EachCall,
    directory: &str,
) -> Result<Round, Trouble>
    ensures { AsksRound (F.reads rt.now) host.now at each directory.now result }
{
    let host = Host::parse(rt.alloc(), host)?;
    let customers = customers_of(rt, directory)?;
    Ok(Round {
        host,
        at,
        each,
        customers,
    })
}

/// Does the calls that are asked for over a shelf, and gives it back.
fn call_all<S: MovesMessages + Drop>(
    alloc: Global,
    shelf: S,
    asked: Round,
) -> (Result<ToldAll, Trouble>, S)
    ensures { RoundOver S.sight asked result.0 shelf result.1 }
{
    let Round {
        host,
        at,
        each,
        customers,
    } = asked;
    let mut desk = Desk::new(shelf, host);
    let done = match call_each(alloc, &mut desk, at, each, customers.as_slice()) {
        Ok(told) => Ok(told),
        Err(_) => Err(Trouble::from(Fault::WantOfMemory)),
    };
    (done, desk.into_shelf())
}

/// Does the calls that are asked for over the store of a path, which is made if it is missing, and
/// leaves it.
fn call_all_at<K: Stores>(
    alloc: Global,
    stores: &mut K,
    path: &str,
    asked: Round,
) -> Result<ToldAll, Trouble>
    ensures { RoundAt K.Store.sight K.does stores.old stores.new path.now asked result }
{
    let store = stores.open(path)?;
    let (done, store) = call_all(alloc, store, asked);
    stores.leave(store);
    done
}

/// What a sweep of the queues of all customers came to: a call for each of them, in the order of
/// the directory, up to the first fault. Checked in the order relay's name, directory, store, which
/// is made where it is missing; what a customer's call refuses is told among the others.
pub fn sweep_all<F: Files, K: Stores>(
    rt: &F,
    stores: &mut K,
    given: &Sweep,
) -> Result<ToldAll, Trouble>
    ensures { SweepAllEnds K.Store.sight K.does stores.old stores.new (F.reads rt.now) given.now
        result }
{
    let asked = round_of(rt, given.host, given.at, EachCall::Sweep, given.directory)?;
    call_all_at(rt.alloc(), stores, given.store, asked)
}

/// What each customer of a directory uses, in its order, up to the first fault. Checked in the
/// order directory, store, which is made where it is missing.
pub fn usage<F: Files, K: Stores>(
    rt: &F,
    stores: &mut K,
    given: &UsageWord,
) -> Result<ToldAll, Trouble>
    ensures { UsageEnds K.Store.sight K.does stores.old stores.new (F.reads rt.now) given.now
        result }
{
    let at = Moment::no_later(NO_MOMENT);
    let asked = round_of(rt, LOCALHOST, at, EachCall::Usage, given.directory)?;
    call_all_at(rt.alloc(), stores, given.store, asked)
}
