ghost use Rattle.std.specs.Prelude.{◌≡◌, ◌-◌, ◌/◌, ◌%◌, ◌+◌, ◌<◌, ◌≤◌, ◌⊎◌, ℕ, length, get_or, Some};
ghost use Rattle.rma_layout.specs.Placement.{IsBlock, Place, metadata, raw_of};
ghost use Rattle.window_rule.specs.Known.{cell_of};
ghost use Rattle.window_rule.specs.Partition.{times};
ghost use Rattle.window_rule.specs.Reads.{MayPut, put_in};
ghost use Rattle.window_rule.specs.Trails.{Follows};
ghost use Rattle.object_moves.specs.Stores.{AreFilled, AreLinkedTo, OnlyCells, link_in};

use crate::loading::Blocks;
use fabric::{Rank, Window};
use object_words::{Law, Words};
use rma_layout::DPtr;

/// Links the first `used` of these blocks to a chain. Between the first `kept` of them the links stand already.
pub(crate) fn put_links<L: Law>(
    window: &Window<L>,
    rank: &mut Rank<L>,
    blocks: &Blocks,
    kept: usize,
    used: usize,
)
    requires window { rank.old.window ≡ window.now }
    requires used { used ≤ length blocks.now }
    requires kept { kept ≤ length blocks.now }
    requires blocks { (j : ℕ) → j < used → IsBlock window.now.shape (get_or blocks.now j metadata) }
    requires may { (j : ℕ) → j < used → MayPut rank.old.view (get_or blocks.now j metadata) }
    requires once { (block : Place) → times block blocks.now ≤ 1 }
    requires stand { (j : ℕ) → j + 1 < kept → cell_of rank.old.view.cells (get_or blocks.now j metadata) 0 ≡ Some (raw_of (get_or blocks.now (j + 1) metadata)) }
    ensures window { rank.new.window ≡ rank.old.window }
    ensures spares { rank.new.spares ≡ rank.old.spares }
    ensures only { OnlyCells rank.old.view rank.new.view }
    ensures linked { AreLinkedTo blocks.now used used rank.old.view.cells rank.new.view.cells }
    ensures follows { Follows rank.old.view rank.new.view }
{
    window.geometry().keeps_ranges();
    for j in 0..used {
        let word = link(blocks, used, j).unwrap_or(0);
        settle(window, rank, *blocks.at(j), 0, link(blocks, kept, j), word);
    }
}

/// Stores those words that differ from the old ones.
pub(crate) fn put_payload<L: Law>(
    window: &Window<L>,
    rank: &mut Rank<L>,
    blocks: &Blocks,
    old: &Words,
    words: &Words,
)
    requires window { rank.old.window ≡ window.now }
    requires reach { (m : ℕ) → m < length words.now → m / (window.now.shape.words - 1) < length blocks.now }
    requires blocks { (m : ℕ) → m < length words.now → IsBlock window.now.shape (get_or blocks.now (m / (window.now.shape.words - 1)) metadata) }
    requires may { (m : ℕ) → m < length words.now → MayPut rank.old.view (get_or blocks.now (m / (window.now.shape.words - 1)) metadata) }
    requires once { (block : Place) → times block blocks.now ≤ 1 }
    requires stand { (m : ℕ) → m < length words.now → m < length old.now →
        cell_of rank.old.view.cells (get_or blocks.now (m / (window.now.shape.words - 1)) metadata) (1 + m % (window.now.shape.words - 1)) ≡ Some (get_or old.now m 0) }
    ensures window { rank.new.window ≡ rank.old.window }
    ensures spares { rank.new.spares ≡ rank.old.spares }
    ensures only { OnlyCells rank.old.view rank.new.view }
    ensures filled { AreFilled window.now.shape blocks.now words.now (length words.now) rank.old.view.cells rank.new.view.cells }
    ensures follows { Follows rank.old.view rank.new.view }
{
    let geometry = window.geometry();
    geometry.keeps_ranges();
    let per_block = geometry.words() as usize - 1;
    for k in 0..words.len() {
        let was = old.as_slice().get(k).copied();
        settle(
            window,
            rank,
            *blocks.at(k / per_block),
            1 + (k % per_block) as u64,
            was,
            *words.at(k),
        );
    }
}

/// The link of a block in a chain of so many, if there is a next one.
fn link(blocks: &Blocks, count: usize, j: usize) -> Option<u64>
    requires count { count ≤ length blocks.now }
    requires within { j < length blocks.now }
    ensures { result ≡ link_in blocks.now count j }
{
    if j < count && j + 1 < count {
        Some(blocks.at(j + 1).raw())
    } else {
        None
    }
}

/// Stores a word, unless it is known to stand there.
fn settle<L: Law>(
    window: &Window<L>,
    rank: &mut Rank<L>,
    b: DPtr,
    i: u64,
    was: Option<u64>,
    word: u64,
)
    requires window { rank.old.window ≡ window.now }
    requires block { IsBlock window.now.shape b }
    requires within { i < window.now.shape.words }
    requires may { MayPut rank.old.view b }
    requires known { (w : ℕ) → was ≡ Some w → cell_of rank.old.view.cells b i ≡ Some w }
    ensures window { rank.new.window ≡ rank.old.window }
    ensures spares { rank.new.spares ≡ rank.old.spares }
    ensures view { (rank.new.view ≡ put_in b i word rank.old.view) ⊎ ((rank.new.view ≡ rank.old.view) × (cell_of rank.old.view.cells b i ≡ Some word)) }
    ensures follows { Follows rank.old.view rank.new.view }
{
    if was != Some(word) {
        rank.put(window, b, i, word);
    }
}
