//! Numbers and operations by chance, from a seed.

ghost use Rattle.std.specs.Prelude.{◌≡◌, false, IfOk};
ghost use Rattle.ps_bucket_log.specs.Ops.{id_of, is_clear};

use case_words::Stop;
use ps_bucket_log::{Key, Op};
use ps_checksum::Sum;
use ps_data::{OpId, Text};
use std::alloc::Global;

/// What the next numbers come from.
#[derive(Clone, Copy)]
pub struct Chance {
    /// The last number, or the seed.
    pub state: u64,
}

impl Chance {
    /// A number below a limit, or 0 where the limit is 0.
    pub fn below(&mut self, limit: u64) -> u64 {
        self.state = self
            .state
            .wrapping_mul(6364136223846793005)
            .wrapping_add(1442695040888963407);
        (self.state >> 33).checked_rem(limit).unwrap_or(0)
    }

    fn key(&mut self, alloc: Global) -> Result<Key, Stop> {
        let row = match self.below(4) {
            0 => "a",
            1 => "b",
            2 => "c",
            _ => "d",
        };
        Ok(Key {
            kind: Text::from_str(alloc, "t")?,
            id: Text::from_str(alloc, row)?,
            subkey: Text::from_str(alloc, "s")?,
        })
    }

    /// A PUT or a REMOVE of one of four rows.
    pub fn op(&mut self, alloc: Global, id: u64) -> Result<Op, Stop>
        ensures { IfOk result (λ op. (id_of op ≡ id) × (is_clear op ≡ false)) }
    {
        let key = self.key(alloc)?;
        let sum = Sum(u32::try_from(self.below(4294967296))?);
        let id = OpId(id);
        if self.below(3) == 0 {
            Ok(Op::Remove { id, key, sum })
        } else {
            let content = Text::from_str(alloc, "{}")?;
            Ok(Op::Put {
                id,
                key,
                content,
                sum,
            })
        }
    }
}
