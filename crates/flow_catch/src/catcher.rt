// Where an error goes on.

ghost use Rattle.std.specs.Prelude.{◌≡◌, reverse, IfOk};

use flow_base::memory::NoMemory;
use flow_class::class::Catcher;
use std::alloc::Global;

/// The catch part of a block whose errors go on at `block`, where the local `error` takes them: the
/// inner locals, which are given in the order of their declaration, are dropped in the opposite order.
pub fn catcher(
    alloc: Global,
    inner: &[u32],
    block: u32,
    error: Option<u32>,
) -> Result<Catcher, NoMemory>
    ensures block { IfOk result (λ c. c.block ≡ block) }
    ensures error { IfOk result (λ c. c.error ≡ error) }
    ensures drops { IfOk result (λ c. c.drops.items ≡ reverse inner.now) }
{
    Ok(Catcher {
        block,
        error,
        drops: inner.iter().rev().copied().collect(alloc)?,
    })
}
