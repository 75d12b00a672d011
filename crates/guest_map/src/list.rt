// Lists of plain values.
ghost use Rattle.std.specs.Prelude.{◌≡◌, IfOk};

use std::alloc::{AllocError, Global};
use xm_num::ItemList;

// A list of these items.
pub fn listed<T: Copy>(alloc: Global, items: &[T]) -> Result<ItemList<T>, AllocError>
    ensures { IfOk result (λ list. list ≡ items.now) }
{
    let mut list = ItemList::new(alloc);
    for item in items {
        list.push(*item)?;
    }
    Ok(list)
}
