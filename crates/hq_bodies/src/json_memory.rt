//! Memory that reads JSON.

ghost use Rattle.std.specs.Prelude.{◌≡◌, IfOk, option_map};
ghost use Rattle.serde_json.specs.View.{view};
ghost use Rattle.hq_memory.specs.Making.{MadeIn};
ghost use Rattle.hq_bodies.specs.Reading.{json_of};

use hq_rules::CsvMemory;
use serde_json::Value;
use std::alloc::{AllocError, Global};

/// Memory that also reads JSON: all that the desk asks of memory.
pub trait JsonMemory: CsvMemory {
    /// The value of a text that is JSON, or nothing. The library says of an error whether it is
    /// want of memory, and is trusted in that.
    fn json(self, text: &[u8]) -> Result<Option<Value>, AllocError>
        ensures value { MadeIn Self.refused result
            (λ value. option_map view value ≡ json_of text.now) };
}

impl JsonMemory for Global {
    fn json(self, text: &[u8]) -> Result<Option<Value>, AllocError> {
        value_in(self, text)
    }
}

/// The value of a text that is JSON, or nothing.
fn value_in(alloc: Global, text: &[u8]) -> Result<Option<Value>, AllocError>
    ensures { IfOk result (λ value. option_map view value ≡ json_of text.now) }
{
    match Value::from_slice(alloc, text) {
        Ok(value) => Ok(Some(value)),
        Err(error) => {
            if error.is_memory() {
                Err(AllocError)
            } else {
                Ok(None)
            }
        }
    }
}
