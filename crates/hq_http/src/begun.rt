//! The bytes of a head that is begun.

ghost use Rattle.std.specs.Prelude.{◌≡◌, ◌++◌, []};
ghost use Rattle.hq_memory.specs.Making.{MadeIn};
ghost use Rattle.hq_http.specs.Ends as ends;

use crate::ends::{HeadPlace, place_behind};
use hq_memory::Memory;
use std::alloc::AllocError;

/// The bytes so far, and where in a head they stop.
#[derive(Drop)]
pub(crate) struct Begun {
    /// The bytes so far.
    pub bytes: Vec<u8>,
    /// Where in a head they stop.
    pub place: HeadPlace,
    ghost known: { place ≡ ends.place_of bytes.items },
}

impl Begun {
    /// No bytes.
    pub fn new<M: Memory>(memory: M) -> Begun
        ensures { result.bytes.items ≡ [] }
    {
        Begun {
            bytes: memory.none(),
            place: HeadPlace::Before,
        }
    }

    /// With more bytes.
    pub fn more<M: Memory>(self, memory: M, chunk: &[u8]) -> Result<Begun, AllocError>
        ensures { MadeIn M.refused result (λ begun. begun.bytes.items
            ≡ self.bytes.items ++ chunk.now) }
    {
        let mut bytes = self.bytes;
        memory.extend(&mut bytes, chunk)?;
        let place = place_behind(self.place, chunk);
        Ok(Begun { bytes, place })
    }
}
