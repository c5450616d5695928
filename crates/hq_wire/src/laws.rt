//! A law over the definitions of replies, with no program in it: an empty function whose contract
//! is the law.

ghost use Rattle.std.specs.Prelude.{◌≡◌, ℕ, true, List};
ghost use Rattle.std.specs.List.{list_all};
ghost use Rattle.hq_values.specs.Words.{is_name};
ghost use Rattle.hq_tables.specs.Tables.{Tables};
ghost use Rattle.hq_rules.specs.Desks.{or_memory};
ghost use Rattle.hq_json.specs.OneLine.{is_one_line};
ghost use Rattle.hq_requests.specs.Directories.{names_of};
ghost use Rattle.hq_wire.specs.Exchanges.{Ask, MayReply};
ghost use Rattle.hq_wire.specs.Replies.{SeenReply};
ghost use Rattle.hq_requests.specs.declared.directory.Directory.{Directory};

use hq_memory::Memory;
use hq_rules::Acts;

/// Every reply is one line: its bytes have no LF, whatever texts they tell of.
pub fn replies_are_one_line<D: Acts, M: Memory>()
    ensures { (host : List ℕ) (d : Directory) (a : Ask) (r : SeenReply) (t t' : Tables)
        → list_all is_name (names_of d) ≡ true
        → MayReply (or_memory M.refused D.sight.store).may_answer host d t a r t' → is_one_line
        r.body ≡ true }
{}
