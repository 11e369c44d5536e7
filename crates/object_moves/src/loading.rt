ghost use Rattle.std.specs.Prelude.{◌≡◌, ◌≢◌, ◌<◌, ◌-◌, ◌/◌, ◌%◌, ◌^◌, ℕ, IfOk, length};
ghost use Rattle.rma_layout.specs.Placement.{IsBlock};
ghost use Rattle.rma_layout.specs.Ranges.{IsInRange};
ghost use Rattle.object_words.specs.Chains.{place_of};
ghost use Rattle.window_rule.specs.Known.{chain_in, known_of};
ghost use Rattle.window_rule.specs.Lengths.{MayRead};
ghost use Rattle.window_rule.specs.Trails.{Follows};
ghost use Rattle.window_rule.specs.Truths.{IsTrueView};
ghost use Rattle.object_moves.specs.Loads.{IsChain, IsMeasured, IsWhole, Loads, blocks_asked, content_in};

use fabric::{Rank, Window};
use gdi_kinds::{ListOf, NoMemory};
use object_words::{Law, Words, blocks_for};
use rma_layout::{DPtr, Geometry};
use std::alloc::Global;

/// The blocks of an object, in the order of its chain.
pub type Blocks = ListOf<DPtr>;

/// An object that was loaded: the blocks of its chain, and its words.
#[derive(Drop)]
pub struct Loaded {
    pub blocks: Blocks,
    pub words: Words,
}

/// Loads an object that it has locked, or any object while it is whole in the gate: each word of it once.
///
/// The object is known from then on, also where the call is refused for want of memory.
pub fn load<L: Law>(
    window: &Window<L>,
    rank: &mut Rank<L>,
    alloc: Global,
    at: DPtr,
) -> Result<Loaded, NoMemory>
    requires window { rank.old.window ≡ window.now }
    requires object { IsBlock window.now.shape at }
    requires may { MayRead rank.old.view at }
    ensures window { rank.new.window ≡ rank.old.window }
    ensures spares { rank.new.spares ≡ rank.old.spares }
    ensures loads { Loads IsWhole at rank.old.view rank.new.view result }
    ensures truths { IsTrueView L.fits window.now.shape rank.new.view }
    ensures follows { Follows rank.old.view rank.new.view }
{
    window.geometry().keeps_ranges();
    let (blocks, length) = measure(window, rank, alloc, at)?;
    let words = payload(window, rank, alloc, at, &blocks, length)?;
    Ok(Loaded { blocks, words })
}

/// Loads the length and the links of an object as `load` does, and none of its words.
pub fn load_chain<L: Law>(
    window: &Window<L>,
    rank: &mut Rank<L>,
    alloc: Global,
    at: DPtr,
) -> Result<Blocks, NoMemory>
    requires window { rank.old.window ≡ window.now }
    requires object { IsBlock window.now.shape at }
    requires may { MayRead rank.old.view at }
    ensures window { rank.new.window ≡ rank.old.window }
    ensures spares { rank.new.spares ≡ rank.old.spares }
    ensures loads { Loads IsChain at rank.old.view rank.new.view result }
    ensures truths { IsTrueView L.fits window.now.shape rank.new.view }
    ensures follows { Follows rank.old.view rank.new.view }
{
    let (blocks, _length) = measure(window, rank, alloc, at)?;
    Ok(blocks)
}

/// The blocks of the chain of an object, and how many words it has.
fn measure<L: Law>(
    window: &Window<L>,
    rank: &mut Rank<L>,
    alloc: Global,
    at: DPtr,
) -> Result<(Blocks, u64), NoMemory>
    requires window { rank.old.window ≡ window.now }
    requires object { IsBlock window.now.shape at }
    requires may { MayRead rank.old.view at }
    ensures window { rank.new.window ≡ rank.old.window }
    ensures spares { rank.new.spares ≡ rank.old.spares }
    ensures loads { Loads IsMeasured at rank.old.view rank.new.view result }
    ensures truths { IsTrueView L.fits window.now.shape rank.new.view }
    ensures follows { Follows rank.old.view rank.new.view }
{
    let length = rank.length(window, at);
    let geometry = window.geometry();
    geometry.keeps_ranges();
    let count = chain_blocks(&geometry, at, length);
    let blocks = walk(window, rank, alloc, at, count)?;
    Ok((blocks, length))
}

/// How many blocks an object with so many words has: none where it isn't reserved and has no words.
pub fn chain_blocks(geometry: &Geometry, at: DPtr, length: u64) -> u64
    requires { IsInRange geometry.now }
    ensures { result ≡ blocks_asked geometry.now at length }
{
    if length == 0 && geometry.reserved() <= at.block() {
        0
    } else {
        blocks_for(length, geometry.words() - 1)
    }
}

/// The blocks of the chain of an object that it knows: from its own block on, along the links.
fn walk<L: Law>(
    window: &Window<L>,
    rank: &mut Rank<L>,
    alloc: Global,
    at: DPtr,
    count: u64,
) -> Result<Blocks, NoMemory>
    requires window { rank.old.window ≡ window.now }
    requires object { IsBlock window.now.shape at }
    requires range { IsInRange window.now.shape }
    requires truths { IsTrueView L.fits window.now.shape rank.old.view }
    requires count { count ≡ length (chain_in (known_of rank.old.view.known at)) }
    ensures window { rank.new.window ≡ rank.old.window }
    ensures spares { rank.new.spares ≡ rank.old.spares }
    ensures same { rank.new.view ≡ rank.old.view }
    ensures chain { IfOk result (λ blocks. blocks ≡ chain_in (known_of rank.old.view.known at)) }
{
    let mut blocks = Blocks::new(alloc);
    if count == 0 {
        return Ok(blocks);
    }
    let mut block = at;
    blocks.push(block)?;
    for _ in 1..count {
        block = pointer(rank.get(window, block, 0));
        blocks.push(block)?;
    }
    Ok(blocks)
}

/// The words along the chain of an object that it knows.
fn payload<L: Law>(
    window: &Window<L>,
    rank: &mut Rank<L>,
    alloc: Global,
    at: DPtr,
    blocks: &Blocks,
    count: u64,
) -> Result<Words, NoMemory>
    requires window { rank.old.window ≡ window.now }
    requires range { IsInRange window.now.shape }
    requires truths { IsTrueView L.fits window.now.shape rank.old.view }
    requires blocks { blocks.now ≡ chain_in (known_of rank.old.view.known at) }
    requires count { count ≡ length (content_in (known_of rank.old.view.known at)) }
    ensures window { rank.new.window ≡ rank.old.window }
    ensures spares { rank.new.spares ≡ rank.old.spares }
    ensures same { rank.new.view ≡ rank.old.view }
    ensures words { IfOk result (λ words. words ≡ content_in (known_of rank.old.view.known at)) }
{
    let per_block = window.geometry().words() - 1;
    let mut words = Words::new(alloc);
    for k in 0..count {
        let block = *blocks.at((k / per_block) as usize);
        words.push(rank.get(window, block, 1 + k % per_block))?;
    }
    Ok(words)
}

/// The block that a link names.
pub(crate) fn pointer(link: u64) -> DPtr
    ensures { result ≡ place_of link }
{
    DPtr::new((link >> 48) as u16, link & ((1 << 48) - 1))
}
