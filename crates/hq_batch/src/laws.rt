//! A law over what a batch writes, with no program in it: an empty function whose contract is the
//! law.

ghost use Rattle.hq_rules.specs.Desks.{or_memory};
ghost use Rattle.std.specs.Prelude.{◌≡◌, ◌∷◌, ◌++◌, [], ℕ, true, List};
ghost use Rattle.std.specs.List.{list_all};
ghost use Rattle.hq_values.specs.Words.{is_name};
ghost use Rattle.hq_tables.specs.Tables.{Tables};
ghost use Rattle.hq_json.specs.OneLine.{is_one_line};
ghost use Rattle.hq_requests.specs.Directories.{names_of};
ghost use Rattle.hq_wire.specs.Exchanges.{Ask, MayReply};
ghost use Rattle.hq_wire.specs.Replies.{SeenReply};
ghost use Rattle.hq_requests.specs.declared.directory.Directory.{Directory};
ghost use Rattle.hq_batch.specs.Batches.{reply_line};

use hq_memory::Memory;
use hq_rules::Acts;

/// A reply line has one LF, its last byte, whatever texts it tells of. So what a batch writes falls
/// apart at its LFs into the replies.
pub fn reply_lines_end_once<D: Acts, M: Memory>()
    ensures { (host : List ℕ) (d : Directory) (a : Ask) (r : SeenReply) (t t' : Tables)
        → list_all is_name (names_of d) ≡ true
        → MayReply (or_memory M.refused D.sight.store).may_answer host d t a r t'
        → (line : List ℕ) × (reply_line r ≡ line ++ 10 ∷ []) × (is_one_line line ≡ true) }
{}
