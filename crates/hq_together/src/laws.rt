//! Laws of rounds, as functions that do nothing and whose contracts are the laws.

ghost use Rattle.std.specs.Prelude.{List};
ghost use Rattle.hq_values.specs.Turns.{InTurn};
ghost use Rattle.hq_tables.specs.Shelves.{StopLeaves};
ghost use Rattle.hq_requests.specs.declared.directory.Directory.{Directory};
ghost use Rattle.hq_wire.specs.Exchanges.{Ask, with_refusals};
ghost use Rattle.hq_wire.specs.Replies.{SeenReply};
ghost use Rattle.hq_across.specs.Sessions.{IsJustOpened};
ghost use Rattle.hq_together.specs.Sessions.{AreRoundsOfSession};
ghost use Rattle.hq_together.specs.Together.{ServedInRound};

use hq_memory::Memory;
use hq_rules::Acts;

/// What was asked of a desk in rounds up to a stop is a session, whichever tables the next opening
/// finds: `hq_across::laws::alone_across_stops` is said of it. The calls under way are of one
/// round, the one in which the store was closed; and none, where the desk is open.
pub fn rounds_are_a_session<D: Acts, M: Memory>()
    ensures { (d : Directory) (old new : D) (asked : List (List Ask))
        (replied : List (List SeenReply))
        → InTurn (ServedInRound (with_refusals M.refused D.sight) d) old asked replied new
        → IsJustOpened (with_refusals M.refused D.sight) old
        → D.sight.store.is_clean new → StopLeaves D.sight.store new
        (AreRoundsOfSession (with_refusals M.refused D.sight).store.may_answer (D.sight.host old)
        d asked replied (D.sight.store.tables old)) }
{}
