//! What is written behind a gate.
ghost use Rattle.std.specs.Prelude.{◌≡◌, ◌<◌, ◌^◌, ◌++◌, [], ◌∷◌, ℕ, length, IfOk};
ghost use Rattle.ps_journal.specs.Layout.{length_bytes, framed};

use ps_data::Memory;
use std::alloc::Global;

#[tactic(auto, unfolding(crate::specs::Layout::length_bytes))]
fn length_of(body: &[u8]) -> [u8; 4]
    requires { length body.now < 2 ^ 32 }
    ensures { result ≡ length_bytes (length body.now) }
{
    (body.len() as u32).to_be_bytes()
}

// The body with its length, and a shut gate.
pub(crate) fn block(alloc: Global, body: &[u8]) -> Result<Vec<u8>, Memory>
    requires { length body.now < 2 ^ 32 }
    ensures { IfOk result (λ block. block.items ≡ framed body.now ++ 0 ∷ []) }
{
    let mut block = Vec::new(alloc);
    block.extend_from_slice(&length_of(body))?;
    block.extend_from_slice(body)?;
    block.push(0)?;
    Ok(block)
}
