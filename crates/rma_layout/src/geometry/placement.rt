ghost use Rattle.std.specs.Prelude.{◌≡◌, ◌<◌, ◌↔◌, IsTrue};
ghost use Rattle.rma_layout.specs.Shape.{reserved_blocks};
ghost use Rattle.rma_layout.specs.Placement.{IsBlock, IsReserved, bucket_of, home_of, slot_of};

use crate::{DPtr, Geometry};

impl Geometry {
    /// The rank of a vertex.
    pub fn home(&self, id: u64) -> u16
        ensures value { result ≡ home_of self.now id }
        ensures within { result < self.now.ranks }
    {
        (id % self.ranks) as u16
    }

    /// The object that leads from a vertex's identifier to its object.
    pub fn bucket(&self, id: u64) -> DPtr
        ensures value { result ≡ bucket_of self.now id }
        ensures is_block { IsBlock self.now result }
        ensures reserved { IsReserved self.now result.block }
    {
        DPtr::new(self.home(id), 1 + id / self.ranks % self.buckets)
    }

    /// The object of the index that keeps this label of this vertex.
    pub fn slot(&self, label: u32, id: u64) -> DPtr
        ensures value { result ≡ slot_of self.now label id }
        ensures is_block { IsBlock self.now result }
        ensures reserved { IsReserved self.now result.block }
    {
        // Each part is below 2 to the power of 64, and their sum need not be.
        let slot = (u64::from(label) % self.slots + id / self.ranks % self.slots) % self.slots;
        DPtr::new(self.home(id), 1 + self.buckets + slot)
    }

    /// How many blocks of each rank are reserved: block 0, the buckets and the slots, in this order.
    pub fn reserved(&self) -> u64
        ensures { result ≡ reserved_blocks self.now }
    {
        1 + self.buckets + self.slots
    }

    /// Whether a block is reserved. Such a block is always with its own object, and in no free list.
    pub fn is_reserved(&self, block: DPtr) -> bool
        ensures { IsTrue result ↔ IsReserved self.now block.block }
    {
        block.block() < self.reserved()
    }
}
