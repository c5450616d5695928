//! The members of a submission, or of its envelope, as they stand in a body, before their values
//! are read.

ghost use Rattle.std.specs.Prelude.{IsTrue, length, map};
ghost use Rattle.hq_rules.specs.Limits.{is_recipient_count, is_size};

/// The texts of 1 to 100 recipients, as they stand in the body.
#[derive(Drop)]
pub(crate) struct RecipientTexts<'v> {
    pub(crate) texts: Vec<&'v str>,
    pub(crate) ghost number: { IsTrue
        (is_recipient_count (length (map (λ text. text.now) texts.items))) },
}

/// The size of a message, in bytes.
#[derive(Clone, Copy, Drop)]
pub(crate) struct MessageSize {
    pub(crate) bytes: u32,
    pub(crate) ghost limit: { IsTrue (is_size bytes) },
}

/// The members of an envelope.
#[derive(Drop)]
pub(crate) struct EnvelopeTexts<'v> {
    pub(crate) sender: &'v str,
    pub(crate) recipients: RecipientTexts<'v>,
    pub(crate) size: MessageSize,
}

/// The members of a submission.
#[derive(Drop)]
pub(crate) struct SubmissionTexts<'v> {
    pub(crate) spool: &'v str,
    pub(crate) envelope: EnvelopeTexts<'v>,
}
