ghost use Rattle.std.specs.Prelude.{◌≡◌, ◌≢◌, ◌++◌, map, List, OnOk, IfOk, MatchOption};
ghost use Rattle.std.specs.List.{AllByRecursion};
ghost use Rattle.text_words.specs.Forms.{texts};
ghost use Rattle.outcome_text.specs.Outputs.{items_text};

use crate::item_readers::{edge_in, pair_in, prop_in, value_in};
use gdi_kinds::{EdgeLine, ListOf, Name, NoMemory, Pair, PropLine, Value};
use std::alloc::Global;
use text_words::{number_of, print_name, print_number, print_value};

/// What a reply lists.
pub(crate) trait Item: Sized {
    ghost use Rattle.std.specs.Prelude.{◌≡◌, ◌≢◌, ◌++◌, OnOk, IfOk, MatchOption, List, ℕ};

    ghost text: { Self → List ℕ };

    /// What an item that has a text keeps.
    ghost Fits: { Self → Type 0 };

    /// What an item keeps of which the text tells all.
    ghost Told: { Self → Type 0 };

    /// Writes the item.
    fn print(&self, out: &mut Vec<u8>) -> Result<(), NoMemory>
        ensures printed { OnOk result (out.new.items ≡ out.old.items ++ text self.now) }
        ensures fits { OnOk result (Told self.now → Fits self.now) };

    /// The item that a word is.
    fn read(alloc: Global, word: &[u8]) -> Result<Option<Self>, NoMemory>
        ensures { IfOk result (λ read. MatchOption read
            ((x : Self) → Fits x → word.now ≢ text x)
            (λ x. (word.now ≡ text x) × Fits x)) };
}

/// Writes items, each behind a space.
pub(crate) fn print_items<T: Item>(out: &mut Vec<u8>, items: &[T]) -> Result<(), NoMemory>
    ensures printed { OnOk result (out.new.items ≡ out.old.items ++ items_text (map T.text items.now)) }
    ensures fit { OnOk result (AllByRecursion (λ item. T.Told item → T.Fits item) items.now) }
{
    for item in items {
        out.push(b' ')?;
        item.print(out)?;
    }
    Ok(())
}

/// The items that words are.
pub(crate) fn read_items<T: Item + Drop>(
    alloc: Global,
    words: &[&[u8]],
) -> Result<Option<ListOf<T>>, NoMemory>
    ensures { IfOk result (λ read. MatchOption read
        ((xs : List T) → AllByRecursion T.Fits xs → texts words.now ≢ map T.text xs)
        (λ xs. (texts words.now ≡ map T.text xs) × AllByRecursion T.Fits xs)) }
{
    let mut items = ListOf::new(alloc);
    for word in words {
        match T::read(alloc, word)? {
            Some(item) => items.push(item)?,
            None => return Ok(None),
        }
    }
    Ok(Some(items))
}

impl Item for u64 {
    ghost use Rattle.std.specs.Fmt.{decimal};
    ghost use Rattle.outcome_text.specs.Runs.{IsNumber};

    ghost text = { λ n. decimal n };

    ghost Fits = { λ n. IsNumber n };

    ghost Told = { λ _. Unit {0} };

    fn print(&self, out: &mut Vec<u8>) -> Result<(), NoMemory> {
        print_number(out, *self)
    }

    fn read(_alloc: Global, word: &[u8]) -> Result<Option<u64>, NoMemory> {
        Ok(number_of(word))
    }
}

impl Item for Name {
    ghost use Rattle.gdi_kinds.specs.Names.{IsName};

    ghost text = { λ name. name };

    ghost Fits = { λ name. IsName name };

    ghost Told = { λ _. Unit {0} };

    fn print(&self, out: &mut Vec<u8>) -> Result<(), NoMemory> {
        print_name(out, self)
    }

    fn read(_alloc: Global, word: &[u8]) -> Result<Option<Name>, NoMemory> {
        Ok(Name::of(word))
    }
}

impl Item for Value {
    ghost use Rattle.text_words.specs.Spelling.{IsValue, value_text};

    ghost text = { λ v. value_text v };

    ghost Fits = { λ v. IsValue v };

    ghost Told = { λ _. Unit {0} };

    fn print(&self, out: &mut Vec<u8>) -> Result<(), NoMemory> {
        print_value(out, self)
    }

    fn read(alloc: Global, word: &[u8]) -> Result<Option<Value>, NoMemory> {
        value_in(alloc, word)
    }
}

impl Item for PropLine {
    ghost use Rattle.outcome_text.specs.Outputs.{prop_text};
    ghost use Rattle.outcome_text.specs.Runs.{IsPropLine};

    ghost text = { λ prop. prop_text prop };

    ghost Fits = { λ prop. IsPropLine prop };

    ghost Told = { λ _. Unit {0} };

    fn print(&self, out: &mut Vec<u8>) -> Result<(), NoMemory> {
        print_name(out, &self.name)?;
        out.push(b'=')?;
        print_value(out, &self.value)
    }

    fn read(alloc: Global, word: &[u8]) -> Result<Option<PropLine>, NoMemory> {
        prop_in(alloc, word)
    }
}

impl Item for Pair {
    ghost use Rattle.outcome_text.specs.Outputs.{pair_text};
    ghost use Rattle.outcome_text.specs.Runs.{IsPair};

    ghost text = { λ pair. pair_text pair };

    ghost Fits = { λ pair. IsPair pair };

    ghost Told = { λ _. Unit {0} };

    fn print(&self, out: &mut Vec<u8>) -> Result<(), NoMemory> {
        print_number(out, self.id)?;
        out.push(b':')?;
        print_number(out, self.number)
    }

    fn read(_alloc: Global, word: &[u8]) -> Result<Option<Pair>, NoMemory> {
        Ok(pair_in(word))
    }
}

impl Item for EdgeLine {
    ghost use Rattle.outcome_text.specs.Outputs.{edge_text};
    ghost use Rattle.outcome_text.specs.Runs.{IsEdgeLine};
    ghost use Rattle.outcome_text.specs.Told.{EndIsTold};

    ghost text = { λ line. edge_text line };

    ghost Fits = { λ line. IsEdgeLine line };

    ghost Told = { λ line. EndIsTold line };

    fn print(&self, out: &mut Vec<u8>) -> Result<(), NoMemory> {
        let way: &[u8] = if self.undirected {
            b"und:"
        } else if self.inward {
            b"in:"
        } else {
            b"out:"
        };
        out.extend_from_slice(way)?;
        print_number(out, self.source)?;
        out.push(b':')?;
        print_number(out, self.ordinal)?;
        out.push(b':')?;
        print_number(out, self.target)
    }

    fn read(_alloc: Global, word: &[u8]) -> Result<Option<EdgeLine>, NoMemory> {
        Ok(edge_in(word))
    }
}
