//! How answers are written, whoever writes them.

ghost use Rattle.std.specs.Prelude.{◌≡◌, IfOk, OnErr};

use crate::answer::Answer;
use hq_memory::Memory;
use std::alloc::AllocError;

/// An answer as it is written.
#[derive(Drop)]
pub struct Rendered {
    /// 0, or the refusal's number.
    pub number: u16,
    /// The text.
    pub bytes: Vec<u8>,
}

/// How an answer is written.
pub trait Render {
    ghost use Rattle.std.specs.Prelude.{List, ℕ};
    ghost use Rattle.hq_rules.specs.declared.answer.Answer.{Answer};

    /// The one text of an answer.
    ghost text: { Self → Answer → List ℕ };

    /// What is known of the text that an answer is written as.
    ghost fits: { Self → Answer → List ℕ → Type 0 };

    /// The answers that it is for.
    ghost takes: { Self → Answer → Type 0 };

    /// The text of an answer, or want of memory. An answer that it is not for may end so too.
    fn render<M: Memory>(&self, memory: M, answer: &Answer) -> Result<Vec<u8>, AllocError>
        ensures text { IfOk result (λ bytes. bytes.items ≡ text self.now answer.now) }
        ensures fits { IfOk result (λ bytes. fits self.now answer.now bytes.items) }
        ensures cause { OnErr result (takes self.now answer.now → M.refused) };
}
