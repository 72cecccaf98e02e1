// Lists and the sets of their names, emptied where there is no memory for more.
ghost use Rattle.std.specs.Prelude.{◌≡◌, ℕ, List as Items, [], false};
ghost use Rattle.mps_sections.specs.Sets.{has};

use crate::name_set::NameSet;
use lp_model::List;
use std::alloc::Global;
use std::mem;

/// No items and no names.
pub(crate) fn clear<T: Drop>(alloc: Global, items: &mut List<T>, names: &mut NameSet)
    ensures items { items.new ≡ [] }
    ensures names { (q : Items ℕ) → has names.new q ≡ false }
{
    drop(mem::replace(items, List::new(alloc)));
    drop(mem::replace(names, NameSet::new(alloc)));
}
