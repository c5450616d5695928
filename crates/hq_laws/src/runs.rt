//! Laws over whole runs in one session: nobody else matters, which replies and which keys change
//! nothing, and one reading of each reply.

ghost use Rattle.std.specs.Prelude.{◌≡◌, ◌≢◌, ℕ, nat_le, not, true, List, length, Ok};
ghost use Rattle.std.specs.Prelude.{Option, Some, string_bytes};
ghost use Rattle.hq_values.specs.Limits.{most_bytes};
ghost use Rattle.hq_tables.specs.Tables.{Tables, own};
ghost use Rattle.hq_rules.specs.Desks.{or_memory};
ghost use Rattle.hq_rules.specs.Unchanged.{only_reads};
ghost use Rattle.hq_import.specs.declared.keys.Right.TheVariants.{Reading};
ghost use Rattle.hq_rules.specs.declared.call.Call.{Call};
ghost use Rattle.hq_requests.specs.Calls.{Asked, asked_of, call_from, call_in};
ghost use Rattle.hq_requests.specs.Directories.{Held, held_on};
ghost use Rattle.hq_requests.specs.Named.{key_shown};
ghost use Rattle.hq_requests.specs.Routes.{changes, last_segment, methods_at, role_of};
ghost use Rattle.hq_requests.specs.declared.exchanges.Exchange.{Exchange};
ghost use Rattle.hq_requests.specs.declared.table.Methods.{Methods};
ghost use Rattle.hq_requests.specs.declared.table.Role.TheVariants.{Customer, RelayForAll};
ghost use Rattle.hq_requests.specs.declared.table.Route.{Route};
ghost use Rattle.hq_wire.specs.Exchanges.{Ask, MayReply, ask_of};
ghost use Rattle.hq_wire.specs.Replies.{SeenReply};
ghost use Rattle.hq_wire.specs.Runs.{AllReplied, share, heard};
ghost use Rattle.hq_requests.specs.declared.directory.Directory.{Directory};

use hq_memory::Memory;
use hq_rules::Acts;

/// Nobody else matters: two lists of what was asked, by exchanges or by lines, under one directory
/// and host, each over any kind of shelf, from tables that hold the same of a customer, in which
/// that customer's share is the same, give it equal replies, those of 503 left out, and leave the
/// same of it.
pub fn nobody_else_matters<D: Acts, M: Memory, E: Acts, N: Memory>()
    ensures replies { (host : List ℕ) (d : Directory) (c : List ℕ)
        (xs ys : List Ask) (rs qs : List SeenReply) (t u t' u' : Tables)
        → AllReplied (or_memory M.refused D.sight.store).may_answer host d t xs rs t'
        → AllReplied (or_memory N.refused E.sight.store).may_answer host d u ys qs u'
        → own c t ≡ own c u → share c xs rs ≡ share c ys qs → heard c xs rs ≡ heard c ys qs }
    ensures state { (host : List ℕ) (d : Directory) (c : List ℕ)
        (xs ys : List Ask) (rs qs : List SeenReply) (t u t' u' : Tables)
        → AllReplied (or_memory M.refused D.sight.store).may_answer host d t xs rs t'
        → AllReplied (or_memory N.refused E.sight.store).may_answer host d u ys qs u'
        → own c t ≡ own c u → share c xs rs ≡ share c ys qs → own c t' ≡ own c u' }
{}

/// A reply is read in one way: two replies of the same bytes and status to what was asked, over any
/// tables and any kinds of shelf, are the same. So the bytes of the reply to a call of all tell
/// which customers were done, what each of them was told, and at whom it stopped by which fault.
pub fn one_reading<D: Acts, M: Memory, E: Acts, N: Memory>()
    ensures { (host : List ℕ) (d : Directory) (a : Ask) (r q : SeenReply) (t t' u u' : Tables)
        → MayReply (or_memory M.refused D.sight.store).may_answer host d t a r t'
        → MayReply (or_memory N.refused E.sight.store).may_answer host d u a q u'
        → r.status ≡ q.status → r.body ≡ q.body → r ≡ q }
{}

/// The tables of all customers stay as they were where the status of a reply is not 200, so after
/// every refusal; and whatever is replied to a call that only reads, of one customer or of all.
pub fn tables_stay<D: Acts, M: Memory>()
    ensures refused { (host : List ℕ) (d : Directory) (a : Ask) (r : SeenReply) (t t' : Tables)
        → MayReply (or_memory M.refused D.sight.store).may_answer host d t a r t' → r.status ≢ 200
        → t' ≡ t }
    ensures reads { (host : List ℕ) (d : Directory) (a : Ask) (r : SeenReply) (t t' : Tables)
        (asked : Asked) → MayReply (or_memory M.refused D.sight.store).may_answer host d t a r t'
        → a.called ≡ Ok asked → only_reads (call_in asked) ≡ true → t' ≡ t }
{}

/// A key that may only read changes nothing: whatever is replied to an exchange that shows one, the
/// tables of all customers stay as they were.
pub fn a_reading_key_changes_nothing<D: Acts, M: Memory>()
    ensures { (host : List ℕ) (d : Directory) (x : Exchange) (held : Held) (r : SeenReply)
        (t t' : Tables) → held_on d Customer (key_shown x) (last_segment (string_bytes x.path))
        ≡ Ok held → held.right ≡ Reading
        → MayReply (or_memory M.refused D.sight.store).may_answer host d t (ask_of d x) r t'
        → t' ≡ t }
{}

/// What a route asks for only reads exactly where the route changes nothing: so a key that may only
/// read is refused no more than that.
pub fn a_route_reads_as_told()
    ensures { (route : Route) (segment body : List ℕ) (call : Call)
        → asked_of route segment body ≡ Ok call → only_reads call ≡ not (changes route) }
{}

/// A call of all customers looks at no body: at a path for all of them the same is asked by any two
/// bodies that are not too long.
pub fn a_call_of_all_looks_at_no_body()
    ensures { (d : Directory) (method path : List ℕ) (key : Option (List ℕ)) (methods : Methods)
        (body other : List ℕ) → methods_at path ≡ Some methods → role_of methods ≡ RelayForAll
        → nat_le (length body) most_bytes ≡ true → nat_le (length other) most_bytes ≡ true
        → call_from d method path key body ≡ call_from d method path key other }
{}
