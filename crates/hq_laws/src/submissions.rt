//! What a submission would be answered, it is answered.

ghost use Rattle.std.specs.Prelude.{◌≡◌, ℕ, List, None, Ok, codes};
ghost use Rattle.serde_json.specs.Data.{Data, Members, member, object};
ghost use Rattle.hq_kept.specs.declared.account.Entry.{Entry};
ghost use Rattle.hq_tables.specs.Readings.{read_tables};
ghost use Rattle.hq_tables.specs.Tables.{Tables};
ghost use Rattle.hq_rules.specs.declared.call.Call.TheVariants.{Admit, Submit};
ghost use Rattle.hq_rules.specs.declared.call.Envelope.{Envelope};
ghost use Rattle.hq_rules.specs.declared.call.Submission.{Submission};
ghost use Rattle.hq_kept.specs.declared.message.Message.{Message};
ghost use Rattle.hq_rules.specs.declared.answer.Answer.TheVariants.{Queued};
ghost use Rattle.hq_rules.specs.declared.verdict.Refused.{Refused};
ghost use Rattle.hq_laws.specs.InShort.{as_envelope, as_submission};
ghost use Rattle.hq_json.specs.Objects.{id};
ghost use Rattle.hq_json.specs.Replies.{answer_data};
ghost use Rattle.hq_rules.specs.Machine.{shared};
ghost use Rattle.hq_rules.specs.Submissions.{envelope_of, without_id};

/// A submission right after a call for its envelope, under a spool name that is not queued, is
/// answered as that call was, but for the queue ID: the same recipients in the same state, the same
/// refused ones, or the same refusal. So it is whatever the moments of both are. The call leaves
/// the tables of all customers as they were.
pub fn a_submission_is_answered_as_foreseen()
    ensures kept { (host : List ℕ) (entry : Entry) (t : Tables) (at : ℕ) (envelope : Envelope)
        → (shared host entry t at (Admit envelope)).1 ≡ t }
    ensures answer { (host : List ℕ) (entry : Entry) (t : Tables) (at later : ℕ) (sub : Submission)
        → (read_tables entry.name t).by_spool sub.spool ≡ None
        → (let before = shared host entry t at (Admit (envelope_of sub)) in
        without_id (shared host entry before.1 later (Submit sub)).0 ≡ before.0) }
{}

/// The body of an envelope is that of its submission without the spool name, and the reply to it is
/// that to the submission without the queue ID: what is read as a submission has its envelope, and
/// the members of the reply are the same but for `id`.
pub fn an_envelope_is_its_submission_in_short()
    ensures body { (d : Data) (sub : Submission) → as_submission d ≡ Ok sub
        → as_envelope d ≡ Ok (envelope_of sub) }
    ensures reply { (m : Message) (refused : List Refused) → (ms : Members)
        × (answer_data (Queued m refused) ≡ object (member (codes "id") (id m.serial) ms))
        × (answer_data (without_id (Queued m refused)) ≡ object ms) }
{}
