ghost use Rattle.std.specs.Prelude.{◌≡◌, ℕ, ◌+◌, ◌-◌, ◌<◌, OnOk, if◌then◌else◌, ◌==◌};
ghost use Rattle.plain_graph.specs.Rooms.{taken_on};

use gdi_kinds::NoMemory;

/// How many blocks are taken on each rank, of which there are 64 at the most.
#[derive(Clone, Copy, Debug)]
pub(crate) struct Rooms {
    taken: [u64; 64],
}

impl Rooms {
    /// So many on each rank.
    pub(crate) fn all(blocks: u64) -> Rooms
        ensures { (rank : ℕ) → rank < 64 → taken_on result rank ≡ blocks }
    {
        Rooms {
            taken: [blocks; 64],
        }
    }

    /// How many are taken on a rank.
    pub(crate) fn taken(&self, rank: u16) -> u64
        requires { rank < 64 }
        ensures { result ≡ taken_on self.now rank }
    {
        self.taken[rank as usize]
    }

    /// Takes more on a rank.
    pub(crate) fn take(&mut self, rank: u16, blocks: u64) -> Result<(), NoMemory>
        requires { rank < 64 }
        ensures { OnOk result ((r : ℕ) → taken_on self.new r ≡ (if rank == r then taken_on self.old r + blocks else taken_on self.old r)) }
    {
        let rank = rank as usize;
        // No memory holds so many that their number passes 64 bits.
        let Some(taken) = self.taken[rank].checked_add(blocks) else {
            return Err(NoMemory);
        };
        self.taken[rank] = taken;
        Ok(())
    }

    /// Gives some back on a rank.
    pub(crate) fn give(&mut self, rank: u16, blocks: u64)
        requires { rank < 64 }
        ensures { (r : ℕ) → taken_on self.new r ≡ (if rank == r then taken_on self.old r - blocks else taken_on self.old r) }
    {
        let rank = rank as usize;
        self.taken[rank] = self.taken[rank].saturating_sub(blocks);
    }
}
