//! A worked transaction on the words of a window: two words are written into an object, and read.
ghost use Rattle.std.specs.Prelude.{◌≡◌, ◌<◌, [], IfOk, MatchResult};
ghost use Rattle.rma_layout.specs.Placement.{IsBlock, IsReserved};
ghost use Rattle.object_words.specs.Contents.{content_of};
ghost use Rattle.object_words.specs.Entries.{store_after};
ghost use Rattle.window_rule.specs.Trails.{Follows};
ghost use Rattle.window_rule.specs.Pairs.{IsAtRest, IsNext, pair_entry, pair_of};
ghost use Rattle.fabric.specs.MarkedPairs.{HasMarked};

use crate::rank::{Enters, Rank};
use crate::window::Window;
use object_words::{Carries, Law};
use rma_layout::DPtr;

/// A note with what its entry writes.
#[derive(Drop)]
struct Pair<'a, C> {
    note: &'a C,
    object: DPtr,
    first: u64,
    second: u64,
}

impl<'a, L: Law, C: Carries<L>> Carries<L> for Pair<'a, C> {
    ghost note = { λ pair. C.note pair.note.now };
}

impl<'a, L: Law, C: Carries<L>> Enters<L> for Pair<'a, C> {
    ghost use Rattle.window_rule.specs.Pairs.{pair_contents};

    ghost reads = { λ _. [] };

    ghost writes = { λ pair. pair_contents pair.object pair.first pair.second };
}

/// Writes two words into a reserved object, whatever it had before, as one entry of the history, and answers its number.
///
/// It is refused where another rank looks at the whole window, or has the object locked. The answer is then the word that
/// stood in the way, and nothing has changed.
pub fn write_pair<L: Law, C: Carries<L>>(
    rank: &mut Rank<L>,
    window: &Window<L>,
    o: DPtr,
    first: u64,
    second: u64,
    note: &C,
) -> Result<u64, u64>
    requires window { rank.old.window ≡ window.now }
    requires object { IsBlock window.now.shape o }
    requires reserved { IsReserved window.now.shape o.block }
    requires wide { 4 < window.now.shape.words }
    requires rest { IsAtRest rank.old.view }
    requires allowed { 0 < rank.old.view.allowance }
    requires fitting { L.fits window.now.shape (pair_entry rank.old.view o first second (C.note note.now)) }
    ensures window { rank.new.window ≡ rank.old.window }
    ensures rest { IsAtRest rank.new.view }
    ensures entry { MatchResult result (IsNext (pair_entry rank.old.view o first second (C.note note.now)) rank.old.view rank.new.view)
        (λ _. Follows rank.old.view rank.new.view) }
{
    rank.writer_try(window)?;
    if let Err(word) = rank.mark_try(window, o) {
        rank.writer_leave(window);
        return Err(word);
    }
    let number = write_marked(rank, window, o, first, second, note);
    Ok(number)
}

/// Writes two words into a reserved object that it has marked as a writer, having locked nothing else. They are one entry
/// of the history, whose number is the answer. It leaves the mark and the gate then.
pub fn write_marked<L: Law, C: Carries<L>>(
    rank: &mut Rank<L>,
    window: &Window<L>,
    o: DPtr,
    first: u64,
    second: u64,
    note: &C,
) -> u64
    requires window { rank.old.window ≡ window.now }
    requires object { IsBlock window.now.shape o }
    requires reserved { IsReserved window.now.shape o.block }
    requires wide { 4 < window.now.shape.words }
    requires begun { HasMarked o rank.old.view }
    requires allowed { 0 < rank.old.view.allowance }
    requires fitting { L.fits window.now.shape (pair_entry rank.old.view o first second (C.note note.now)) }
    ensures window { rank.new.window ≡ rank.old.window }
    ensures rest { IsAtRest rank.new.view }
    ensures entry { IsNext (pair_entry rank.old.view o first second (C.note note.now)) rank.old.view rank.new.view result }
{
    rank.stamp_up(window, o);
    rank.detach(window, o);
    rank.put(window, o, 0, 0);
    rank.put(window, o, 1, first);
    rank.put(window, o, 2, second);
    rank.attach(window, o, 2);
    let pair = Pair {
        note,
        object: o,
        first,
        second,
    };
    let number = rank.commit(window, &pair);
    rank.stamp_up(window, o);
    rank.mark_leave(window, o);
    rank.writer_leave(window);
    number
}

/// Reads an object that has two words: as the history gives them, of which the rank has then seen all.
///
/// The answer is None where the object has not just two words. It is refused where another rank has the object marked.
pub fn read_pair<L: Law>(
    rank: &mut Rank<L>,
    window: &Window<L>,
    o: DPtr,
) -> Result<Option<(u64, u64)>, u64>
    requires window { rank.old.window ≡ window.now }
    requires object { IsBlock window.now.shape o }
    requires reserved { IsReserved window.now.shape o.block }
    requires wide { 4 < window.now.shape.words }
    requires rest { IsAtRest rank.old.view }
    ensures window { rank.new.window ≡ rank.old.window }
    ensures rest { IsAtRest rank.new.view }
    ensures follows { Follows rank.old.view rank.new.view }
    ensures pair { IfOk result (λ pair. pair ≡ pair_of (content_of (store_after rank.new.view.seen) o)) }
{
    rank.share_try(window, o)?;
    if rank.length(window, o) != 2 {
        rank.share_leave(window, o);
        return Ok(None);
    }
    let pair = (rank.get(window, o, 1), rank.get(window, o, 2));
    rank.share_leave(window, o);
    Ok(Some(pair))
}
