//! The words that a window begins with.
ghost use Rattle.std.specs.Prelude.{◌*◌, ◌+◌, ◌<◌, ◌≡◌, ◌^◌, IfOk};
ghost use Rattle.rma_layout.specs.Ranges.{IsInRange};
ghost use Rattle.window_rule.specs.Opening as opening;
ghost use Rattle.window_rule.specs.Opening.{AreWords, first_head_word, first_next, first_word_of, set_so_far};

use free_list::head_of;
use gdi_kinds::NoMemory;
use rma_layout::{DPtr, Geometry, Word};
use std::alloc::Global;

/// The words of a new window whose heads have this tag: every one is 0 but the heads and the free lists.
pub(crate) fn first_words(
    alloc: Global,
    geometry: &Geometry,
    tag: u64,
) -> Result<Vec<u64>, NoMemory>
    requires { tag < 2 ^ 44 }
    ensures { IfOk result (λ words. AreWords geometry.now words.items (first_word_of geometry.now tag)) }
{
    geometry.keeps_ranges();
    let mut words = vec![in alloc; 0; geometry.window_words() as usize]?;
    set_heads(words.as_mut_slice(), geometry, tag);
    set_free_lists(words.as_mut_slice(), geometry, tag);
    Ok(words)
}

/// Sets the head of each rank.
fn set_heads(words: &mut [u64], geometry: &Geometry, tag: u64)
    requires range { IsInRange geometry.now }
    requires tag { tag < 2 ^ 44 }
    requires words { AreWords geometry.now words.old (set_so_far geometry.now tag 0 0) }
    ensures { AreWords geometry.now words.new (set_so_far geometry.now tag geometry.now.ranks 0) }
{
    let head = first_head(geometry, tag);
    for rank in 0..geometry.ranks() {
        words[geometry.number(Word::Head(rank as u16)) as usize] = head;
    }
}

/// Sets the free-list words of all blocks.
fn set_free_lists(words: &mut [u64], geometry: &Geometry, tag: u64)
    requires range { IsInRange geometry.now }
    requires words { AreWords geometry.now words.old (set_so_far geometry.now tag geometry.now.ranks 0) }
    ensures { AreWords geometry.now words.new (first_word_of geometry.now tag) }
{
    for rank in 0..geometry.ranks() {
        set_free_list(words, geometry, rank as u16, tag);
    }
}

/// Sets the free-list words of the blocks of a rank, once those of the ranks before it are set.
fn set_free_list(words: &mut [u64], geometry: &Geometry, rank: u16, tag: u64)
    requires range { IsInRange geometry.now }
    requires rank { rank < geometry.now.ranks }
    requires words { AreWords geometry.now words.old (set_so_far geometry.now tag geometry.now.ranks (rank * geometry.now.blocks)) }
    ensures { AreWords geometry.now words.new (set_so_far geometry.now tag geometry.now.ranks ((rank + 1) * geometry.now.blocks)) }
{
    let _tag = tag;
    for block in 0..geometry.blocks() {
        let next = next_free(geometry, block);
        words[geometry.number(Word::FreeList(DPtr::new(rank, block))) as usize] = next;
    }
}

/// The head of each rank: this tag, and the first block that is not reserved, 0 if there is none.
fn first_head(geometry: &Geometry, tag: u64) -> u64
    requires range { IsInRange geometry.now }
    requires tag { tag < 2 ^ 44 }
    ensures { result ≡ first_head_word geometry.now tag }
{
    head_of(tag, first_free(geometry))
}

/// The first block of each rank that is not reserved, 0 if there is none.
fn first_free(geometry: &Geometry) -> u64
    requires { IsInRange geometry.now }
    ensures first { result ≡ opening.first_free geometry.now }
    ensures small { result < 2 ^ 20 }
{
    let first = geometry.reserved();
    if first < geometry.blocks() { first } else { 0 }
}

/// The block behind this one in the free list of its rank, 0 if there is none.
fn next_free(geometry: &Geometry, block: u64) -> u64
    requires range { IsInRange geometry.now }
    requires block { block < geometry.now.blocks }
    ensures { result ≡ first_next geometry.now block }
{
    if geometry.reserved() <= block && block + 1 < geometry.blocks() {
        block + 1
    } else {
        0
    }
}
