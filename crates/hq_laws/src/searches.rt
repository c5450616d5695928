//! A search of a history misses nothing.

ghost use Rattle.std.specs.Prelude.{◌≡◌, ◌<◌, ◌++◌, ℕ, List, filter, length, Some, None, Option};
ghost use Rattle.hq_kept.specs.declared.end.End.{End};
ghost use Rattle.hq_kept.specs.declared.pattern.Class.{Class};
ghost use Rattle.hq_tables.specs.Readings.{before_end};
ghost use Rattle.hq_rules.specs.Histories.{find_history, is_meant};
ghost use Rattle.hq_laws.specs.Searches.{told, goes_on, IsNewestFirst};

/// What a search tells, and what it would go on to find from the number that it tells, are all that
/// the pattern is for, in order; and it goes on from there with fewer ends.
pub fn a_search_misses_nothing()
    ensures last { (pattern : Class × List ℕ) (es : List End)
        → goes_on (find_history pattern es).answer ≡ None
        → told (find_history pattern es).answer ≡ filter (is_meant pattern) es }
    ensures moves_on { (pattern : Class × List ℕ) (es : List End) (n : ℕ)
        → goes_on (find_history pattern es).answer ≡ Some n
        → length (before_end (Some n) es) < length es }
    ensures next { (pattern : Class × List ℕ) (es : List End) (n : ℕ) → IsNewestFirst es
        → goes_on (find_history pattern es).answer ≡ Some n
        → told (find_history pattern es).answer
        ++ filter (is_meant pattern) (before_end (Some n) es) ≡ filter (is_meant pattern) es }
{}
