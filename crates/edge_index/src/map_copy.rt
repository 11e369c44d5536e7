ghost use Rattle.std.specs.Prelude.{◌≡◌, IfOk};

use gdi_kinds::{Duplicate, NoMemory};
use std::alloc::Global;
use std::collections::BTreeMap;

/// A copy of a map, with the same entries.
pub fn copy_of_map<K: Ord + Copy + Drop, V: Duplicate + Drop>(
    alloc: Global,
    map: &BTreeMap<K, V, Global>,
) -> Result<BTreeMap<K, V, Global>, NoMemory>
    ensures { IfOk result (λ copied. copied.entries ≡ map.now.entries) }
{
    let mut copied = BTreeMap::new(alloc);
    for (key, value) in map.iter() {
        copied.insert(*key, value.copy(alloc)?)?;
    }
    Ok(copied)
}
