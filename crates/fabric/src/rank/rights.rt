//! Which rights a rank has. Its view knows them; the rank has a table of them, which tells the least.
ghost use Rattle.std.specs.Prelude.{◌≡◌, ◌<◌, ◌≤◌, [], ◌∷◌, true, false, get_or, length, IfOk, ℕ};
ghost use Rattle.std.specs.List.{range_with_len};
ghost use Rattle.window_rule.specs.RightsHold.{least_of};
ghost use Rattle.window_rule.specs.HistoryHolds.{is_among};
ghost use Rattle.fabric.specs.Window.{AreRights, any};

use crate::rank::{MOST_RANKS, Rank};
use gdi_kinds::NoMemory;
use object_words::Law;
use std::alloc::Global;

impl<L: Law> Rank<L> {
    /// The least rank whose right it holds. It makes its entries under this one.
    pub fn least_right(&self) -> u16
        ensures { result ≡ least_of self.now.view.rights }
    {
        for (rank, held) in self.rights.iter().enumerate() {
            if *held {
                return rank as u16;
            }
        }
        0
    }

    /// The table of one of its rights alone.
    pub(super) fn one_right(&self, alloc: Global, right: u16) -> Result<Vec<bool>, NoMemory>
        requires { is_among right self.now.view.rights ≡ true }
        ensures { IfOk result (λ held. AreRights held.items (right ∷ [])) }
    {
        let mut held = vec![in alloc; false; self.rights.len()]?;
        held[right as usize] = true;
        Ok(held)
    }
}

/// The table of the rights of all ranks of a window that has so many.
pub(crate) fn first_rights(alloc: Global, ranks: u64) -> Result<Vec<bool>, NoMemory>
    requires { ranks ≤ 64 }
    ensures { IfOk result (λ held. AreRights held.items (range_with_len 0 ranks)) }
{
    let mut held = vec![in alloc; false; MOST_RANKS]?;
    for rank in 0..ranks {
        held[rank as usize] = true;
    }
    Ok(held)
}

/// Adds the rights of another table.
pub(super) fn add_rights(held: &mut [bool], others: &[bool])
    requires held { length held.old ≡ 64 }
    requires others { length others.now ≡ 64 }
    ensures { (rank : ℕ) → get_or held.new rank false ≡ any (get_or held.old rank false) (get_or others.now rank false) }
{
    for rank in 0..MOST_RANKS {
        if others[rank] {
            held[rank] = true;
        }
    }
}
