//! Each law is an empty function whose contract is the law.

ghost use Rattle.std.specs.Prelude.{◌≡◌, ◌≢◌, ℕ, false, List, map};
ghost use Rattle.std.specs.List.{flat_map};
ghost use Rattle.hq_values.specs.Turns.{InTurn};
ghost use Rattle.hq_tables.specs.Shelves.{StopLeaves};
ghost use Rattle.hq_tables.specs.Sound.{Sound};
ghost use Rattle.hq_tables.specs.Tables.{Tables};
ghost use Rattle.hq_rules.specs.Desks.{or_memory};
ghost use Rattle.hq_wire.specs.Exchanges.{Ask, Exchanged, MayReply, calls_asked, with_refusals};
ghost use Rattle.hq_wire.specs.Replies.{SeenReply};
ghost use Rattle.hq_wire.specs.Runs.{AllReplied, deeds};
ghost use Rattle.hq_requests.specs.declared.directory.Directory.{Directory};
ghost use Rattle.hq_across.specs.Answered.{IsAnswered, NoFault, as_asked};
ghost use Rattle.hq_across.specs.Histories.{Session, Passed, InSessions, AloneAcross};
ghost use Rattle.hq_across.specs.Histories.{uncut, cut_with};
ghost use Rattle.hq_across.specs.Sessions.{IsJustOpened, IsSession};

use hq_memory::Memory;
use hq_rules::Acts;

/// Whatever the other customers do and whenever the machine stops: to every customer a history of
/// sessions is its own machine on its own calls, in each session by its entry in the directory of
/// that. Of the calls under way at the end of each session
/// the first are done, or none; so the one call of a customer is done or not, and a call of all is
/// done of the first customers.
pub fn alone_across_stops()
    ensures alone { (host : List ℕ) (h : List Session) (t t' : Tables)
        → InSessions (Passed host) h t t' → AloneAcross host h t t' }
    ensures sound { (host : List ℕ) (h : List Session) (t t' : Tables)
        → InSessions (Passed host) h t t' → Sound t → Sound t' }
{}

/// What was asked of a desk up to a stop is a session, whichever tables the next opening finds. At
/// most one call is under way then, the one at which the store was closed; and none, where the desk
/// is open.
pub fn exchanges_are_a_session<D: Acts, M: Memory>()
    ensures stopped { (d : Directory) (old new : D) (asks : List Ask) (rs : List SeenReply)
        → InTurn (Exchanged (with_refusals M.refused D.sight) d) old asks rs new
        → IsJustOpened (with_refusals M.refused D.sight) old
        → D.sight.store.is_clean new → StopLeaves D.sight.store new
        (IsSession (D.sight.host old) d asks rs (D.sight.store.tables old)) }
    ensures open { (d : Directory) (old new : D) (asks : List Ask) (rs : List SeenReply)
        → InTurn (Exchanged (with_refusals M.refused D.sight) d) old asks rs new
        → IsJustOpened (with_refusals M.refused D.sight) old
        → D.sight.store.is_clean new → D.sight.store.is_closed new ≡ false
        → StopLeaves D.sight.store new
        (Passed (D.sight.host old) (uncut d asks rs) (D.sight.store.tables old)) }
{}

/// An exchange whose reply never came is under way, also where it was done: a process that dies
/// between its commit and its reply.
pub fn lost_reply_is_under_way<D: Acts, M: Memory>()
    ensures { (host : List ℕ) (d : Directory) (asks : List Ask) (rs : List SeenReply) (a : Ask)
        (r : SeenReply) (t last t' : Tables)
        → AllReplied (or_memory M.refused D.sight.store).may_answer host d t asks rs last
        → (Sound t → Sound last)
        → MayReply (or_memory M.refused D.sight.store).may_answer host d last a r t'
        → Passed host (cut_with d asks rs a) t t' }
{}

/// Where no fault may be answered, each call is answered as its definition has it, and none by 503.
/// In a run all that was asked is done, so nothing is left out of what each customer hears alone.
/// So it is over plain lists, in memory that never refuses.
pub fn all_is_answered<D: Acts, M: Memory>()
    ensures answers { (host : List ℕ) (d : Directory) (a : Ask) (r : SeenReply) (t t' : Tables)
        → NoFault (or_memory M.refused D.sight.store)
        → MayReply (or_memory M.refused D.sight.store).may_answer host d t a r t'
        → IsAnswered host d t a r t' × (r.status ≢ 503) }
    ensures done { (host : List ℕ) (d : Directory) (asks : List Ask) (rs : List SeenReply)
        (t t' : Tables)
        → NoFault (or_memory M.refused D.sight.store)
        → AllReplied (or_memory M.refused D.sight.store).may_answer host d t asks rs t'
        → map as_asked (deeds asks rs)
        ≡ flat_map (λ (a : Ask). calls_asked d a.at a.called) asks }
{}
