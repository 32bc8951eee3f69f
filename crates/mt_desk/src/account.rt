//! What the clients of a desk asked for in all.
ghost use Rattle.std.specs.Prelude.{◌≡◌, IfOk, IsPermutation, length, map};
ghost use Rattle.std.specs.List.Sorted.{IsNonDecreasingBy};

use crate::{DeskName, Pass};
use std::alloc::{AllocError, Global};

/// What the clients of a desk asked for in all.
#[derive(Drop)]
pub struct Account {
    /// Each client with the number of its calls, by client.
    pub calls: Vec<(u16, u64)>,
}

/// Each client with the number of its calls, in the order of the passes.
fn counted<D: DeskName>(alloc: Global, passes: &[Pass<D>]) -> Result<Vec<(u16, u64)>, AllocError>
    ensures { IfOk result (λ calls. calls.items ≡ map (λ pass. (pass.client, length pass.calls.items)) passes.now) }
{
    let mut counts = Vec::with_capacity(alloc, passes.len())?;
    for pass in passes {
        counts.push_reserved((pass.client(), pass.calls().len() as u64));
    }
    Ok(counts)
}

/// Each client with the number of its calls, by client.
pub(crate) fn counted_by_client<D: DeskName>(
    alloc: Global,
    passes: &[Pass<D>],
) -> Result<Vec<(u16, u64)>, AllocError>
    ensures numbers { IfOk result (λ calls. IsPermutation (map (λ pass. (pass.client, length pass.calls.items)) passes.now) calls.items) }
    ensures order { IfOk result (λ calls. IsNonDecreasingBy (λ call. call.0) calls.items) }
{
    let mut counts = counted(alloc, passes)?;
    counts.sort_unstable_by_key(|count| count.0);
    Ok(counts)
}
