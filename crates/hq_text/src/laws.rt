//! Laws over the texts of notices, with no program in them. Each is an empty function whose
//! contract is the law.

ghost use Rattle.std.specs.Prelude.{◌≡◌, ℕ, List, IsTrue};
ghost use Rattle.hq_values.specs.Addresses.{is_address};
ghost use Rattle.hq_values.specs.Words.{is_host, is_text};
ghost use Rattle.hq_kept.specs.Statuses.{is_status};
ghost use Rattle.hq_kept.specs.declared.message.Message.{Message};
ghost use Rattle.hq_kept.specs.declared.outcome.Told.{Told};
ghost use Rattle.hq_text.specs.Determined.{stands_in_line, AreValues, AreAlike};
ghost use Rattle.hq_rules.specs.NoticeTexts.{status_text};
ghost use Rattle.hq_kept.specs.declared.kind.Kind.{Kind};

/// No value of a notice ends a line: hosts, addresses, status codes and texts are printable ASCII
/// and spaces.
pub fn values_stand_in_lines()
    ensures hosts { (host : List ℕ) → IsTrue (is_host host) → IsTrue (stands_in_line host) }
    ensures addresses { (address : List ℕ) → IsTrue (is_address address)
        → IsTrue (stands_in_line address) }
    ensures statuses { (status : List ℕ) → IsTrue (is_status status)
        → IsTrue (stands_in_line status) }
    ensures texts { (text : List ℕ) → IsTrue (is_text text) → IsTrue (stands_in_line text) }
{}

/// Where two status texts are equal, they are of the same queue ID, host and arrival, and tell of
/// the same recipients, in the same order, with the same statuses and texts; and where they tell of
/// any, they are of the same kind.
pub fn status_texts_determine()
    ensures { (host other : List ℕ) (m n : Message) (kind other_kind : Kind)
        (told others : List Told) → AreValues host m told → AreValues other n others
        → status_text host m kind told ≡ status_text other n other_kind others
        → AreAlike host other m n kind other_kind told others }
{}
