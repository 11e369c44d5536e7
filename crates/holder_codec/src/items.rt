ghost use Rattle.std.specs.Prelude.{◌≡◌, ◌++◌, OnOk};
ghost use Rattle.std.specs.List.{flat_map, AllByRecursion};
ghost use Rattle.holder_codec.specs.Reading.{Gives, many_at, rising_at};
ghost use Rattle.holder_codec.specs.Order.{is_rising};

use crate::item::{Item, Ordered};
use crate::unread::Unread;
use gdi_kinds::{ListOf, NoMemory};
use object_words::Words;
use std::alloc::Global;

/// Puts the words of all items at the end.
pub(crate) fn write_all<I: Item>(items: &[I], out: &mut Words) -> Result<(), NoMemory>
    requires { AllByRecursion I.Fits items.now }
    ensures { OnOk result (out.new ≡ out.old ++ flat_map I.spelling items.now) }
{
    for item in items {
        item.write_to(out)?;
    }
    Ok(())
}

/// So many items that the words begin with, each before the next. The words after them are left.
#[tactic(auto, unfolding(crate::specs::Reading::rising_at))]
pub(crate) fn read_rising<I: Ordered + Drop>(
    alloc: Global,
    count: u64,
    words: &mut &[u64],
) -> Result<ListOf<I>, Unread>
    ensures { Gives (λ items. (items, words.new.now)) result (rising_at I.reading I.is_before count words.old.now) }
{
    let items = read_many(alloc, count, words)?;
    if !is_rising(items.as_slice()) {
        return Err(Unread::NotSpelled);
    }
    Ok(items)
}

/// So many items that the words begin with. The words after them are left.
pub(crate) fn read_many<I: Item + Drop>(
    alloc: Global,
    count: u64,
    words: &mut &[u64],
) -> Result<ListOf<I>, Unread>
    ensures { Gives (λ items. (items, words.new.now)) result (many_at I.reading count words.old.now) }
{
    let mut items = ListOf::new(alloc);
    for _ in 0..count {
        let item = I::read_from(alloc, words)?;
        items.push(item)?;
    }
    Ok(items)
}

/// Whether each item stands before the next.
fn is_rising<I: Ordered>(items: &[I]) -> bool
    ensures { result ≡ is_rising I.is_before items.now }
{
    let mut rest = items;
    while let [first, after @ ..] = rest {
        if let [second, ..] = after
            && !first.is_before(second)
        {
            return false;
        }
        rest = after;
    }
    true
}
