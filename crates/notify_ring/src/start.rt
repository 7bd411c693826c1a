// The counts of a new drainer.
ghost use Rattle.std.specs.Prelude.{◌≡◌, ◌+◌, ◌^◌, ◌<◌, length, slice_index, slice_set, replicate};
ghost use Rattle.std.specs.Prelude.{IfOk};

use std::alloc::{AllocError, Global};

pub(crate) fn zeros(alloc: Global) -> Result<Vec<u64>, AllocError>
    ensures { IfOk result (λ v. v.items ≡ replicate 64 0) }
{
    Ok(Vec::from_array(alloc, [0; 64])?)
}

// The count of one poster, which is then one more.
pub(crate) fn count(counts: &mut Vec<u64>, from: u64) -> u64
    requires in_range { from < length counts.old.items }
    requires low { slice_index counts.old.items from < 2 ^ 56 }
    ensures found { result ≡ slice_index counts.old.items from }
    ensures more { counts.new.items ≡ slice_set counts.old.items from
        (slice_index counts.old.items from + 1) }
{
    let at = from as usize;
    let found = counts[at];
    counts[at] = found + 1;
    found
}
