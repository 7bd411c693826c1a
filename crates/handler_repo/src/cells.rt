//! The cells of a repository that have no handler.
ghost use Rattle.std.specs.Prelude.{◌≤◌, ◌+◌, OnOk, length, vec_capacity};

use crate::cell::Spare;
use ev_types::NoMemory;

/// Makes cells until there are so many. As many handlers as are said have cells that may come back:
/// there is room for those too.
pub(crate) fn add_cells<H>(
    cells: &mut Vec<Spare<H>>,
    filled: usize,
    n: usize,
) -> Result<(), NoMemory>
    requires { filled + length cells.old.items ≤ vec_capacity cells.old }
    ensures places { filled + length cells.new.items ≤ vec_capacity cells.new }
    ensures enough { OnOk result (n ≤ length cells.new.items) }
    ensures kept { length cells.old.items ≤ length cells.new.items }
{
    let alloc = *cells.allocator();
    let Some(room) = filled.checked_add(n) else {
        return Err(NoMemory);
    };
    cells.reserve(room)?;
    for _ in cells.len()..n {
        cells.push_reserved(Spare::new(alloc)?);
    }
    Ok(())
}
