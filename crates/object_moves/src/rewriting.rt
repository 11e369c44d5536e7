ghost use Rattle.std.specs.Prelude.{◌≡◌, ◌≤◌, length};
ghost use Rattle.rma_layout.specs.Placement.{IsBlock, Place};
ghost use Rattle.window_rule.specs.Spares.{IsNoSpare};
ghost use Rattle.window_rule.specs.Trails.{Follows};
ghost use Rattle.object_moves.specs.Rewrites.{MayRewrite, Rewrites, chain_of_first};

use crate::loading::{Blocks, chain_blocks};
use crate::storing::{put_links, put_payload};
use fabric::{Rank, Window};
use object_words::{Law, Words};
use rma_layout::DPtr;

/// Gives an object new words: detaches it, stores the words that differ, and attaches it.
///
/// The first blocks, so many as `kept` says, are the object's chain. Those behind them are of the rank's own and no
/// spares. As many of the first as the new words take are the object's chain then, and what is left over is the rank's
/// own. `old` are the object's words, or the first of them. It takes no memory.
pub fn rewrite<L: Law>(
    window: &Window<L>,
    rank: &mut Rank<L>,
    at: DPtr,
    blocks: &Blocks,
    kept: usize,
    old: &Words,
    words: &Words,
)
    requires window { rank.old.window ≡ window.now }
    requires object { IsBlock window.now.shape at }
    requires may { MayRewrite window.now.shape at blocks.now kept old.now words.now rank.old }
    ensures window { rank.new.window ≡ rank.old.window }
    ensures spares { rank.new.spares ≡ rank.old.spares }
    ensures rewrites { Rewrites window.now.shape at (chain_of_first window.now.shape at blocks.now words.now) words.now
        rank.old.view rank.new.view }
    ensures no_spare { (block : Place) → IsNoSpare window.now.shape rank.old.view.private rank.old.spares block →
        IsNoSpare window.now.shape rank.new.view.private rank.new.spares block }
    ensures follows { Follows rank.old.view rank.new.view }
{
    let geometry = window.geometry();
    geometry.keeps_ranges();
    let _first = rank.first_spare(0);
    let used = used_of(blocks, chain_blocks(&geometry, at, words.len() as u64));
    rank.detach(window, at);
    put_links(window, rank, blocks, kept, used);
    put_payload(window, rank, blocks, old, words);
    rank.attach(window, at, words.len() as u64);
}

/// How many of these blocks are so many.
fn used_of(blocks: &Blocks, count: u64) -> usize
    requires { count ≤ length blocks.now }
    ensures { result ≡ count }
{
    let _most = blocks.len();
    count as usize
}
