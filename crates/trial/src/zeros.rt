// What a caller lends to a call that fills it.
ghost use Rattle.std.specs.Prelude.{◌≡◌, IfOk, replicate};

use std::alloc::{AllocError, Global};

// So many of one value.
pub(crate) fn copies<T: Copy>(heap: Global, value: T, n: u16) -> Result<Vec<T>, AllocError>
    ensures { IfOk result (λ v. v.items ≡ replicate n value) }
{
    let mut all = Vec::new(heap);
    for _i in 0..n {
        all.push(value)?;
    }
    Ok(all)
}
