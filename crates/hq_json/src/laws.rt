//! Laws over the texts of answers, with no program in them. Each is an empty function whose
//! contract is the law.

ghost use Rattle.std.specs.Prelude.{◌≡◌, true};
ghost use Rattle.hq_rules.specs.declared.answer.Answer.{Answer};
ghost use Rattle.hq_json.specs.OneLine.{is_one_line};
ghost use Rattle.hq_json.specs.Replies.{answer_text};

/// Every answer is told on one line, whatever texts it tells of: its bytes have no LF.
pub fn answers_are_one_line()
    ensures { (answer : Answer) → is_one_line (answer_text answer) ≡ true }
{}
