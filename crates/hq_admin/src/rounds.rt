//! A round: one call of each customer of a directory.

ghost use Rattle.std.specs.Prelude.{◌≡◌, string_bytes, IfOk, OnErr};
ghost use Rattle.hq_memory.specs.Making.{MadeIn};
ghost use Rattle.hq_admin.specs.Rounds.{CallsEach, printed_of};

use crate::printed::put_answer;
use hq_kept::Customer;
use hq_memory::Memory;
use hq_rules::{Acts, Answer, EachCall, Render, Rendered};
use hq_values::{Fault, Moment, Name};
use std::alloc::{AllocError, Global};

/// What a round came to.
#[derive(Drop)]
pub struct ToldAll {
    /// What is printed of each customer whose call was done, in the order of the directory: 0 and
    /// its answer, or a refusal's number and its text.
    pub told: Vec<Rendered>,
    /// The fault that stopped it at the next customer.
    pub stopped: Option<Fault>,
}

/// What is printed of one customer among others.
fn text_of<M: Memory>(memory: M, name: &Name, answer: &Answer) -> Result<String, AllocError>
    ensures { MadeIn M.refused result (λ text. string_bytes text ≡ printed_of name.now answer.now) }
{
    let mut text = memory.no_text();
    match answer {
        Answer::Refused(refusal) => memory.write(
            &mut text,
            format_args!("{refusal} customer {}", name.as_str()),
        )?,
        _ => {
            memory.write(&mut text, format_args!("{}: ", name.as_str()))?;
            put_answer(memory, &mut text, answer)?;
        }
    }
    Ok(text)
}

/// An answer as it is printed of one customer among others.
#[derive(Drop)]
struct PrintedOf<'n> {
    name: &'n Name,
}

impl Render for PrintedOf<'_> {
    ghost use Rattle.std.specs.Prelude.{⊤};
    ghost use Rattle.hq_admin.specs.Rounds.{printed_of};

    ghost text = { λ by answer. printed_of by.name.now answer };

    ghost fits = { λ _ _ _. ⊤ };

    ghost takes = { λ _ _. ⊤ };

    fn render<M: Memory>(&self, memory: M, answer: &Answer) -> Result<Vec<u8>, AllocError> {
        let text = text_of(memory, self.name, answer)?;
        Ok(text.into_bytes())
    }
}

/// Makes this call of the customers of a directory at a moment, in their order, and stops at the
/// first fault. A refusal does not stop it. It takes the room for all answers first; where that is
/// refused, the desk stays as it is.
pub fn call_each<D: Acts>(
    alloc: Global,
    desk: &mut D,
    at: Moment,
    each: EachCall,
    customers: &[Customer],
) -> Result<ToldAll, AllocError>
    ensures done { IfOk result (CallsEach D.sight desk.old desk.new at each customers.now) }
    ensures none { OnErr result (desk.new ≡ desk.old) }
{
    let mut told = Vec::with_capacity(alloc, customers.len())?;
    for customer in customers {
        let by = PrintedOf {
            name: &customer.entry.name,
        };
        match desk.act(alloc, at, &customer.entry, each.call(), &by) {
            Ok(rendered) => told.push_reserved(rendered),
            Err(fault) => {
                return Ok(ToldAll {
                    told,
                    stopped: Some(fault),
                });
            }
        }
    }
    Ok(ToldAll {
        told,
        stopped: None,
    })
}
