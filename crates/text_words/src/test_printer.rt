ghost use Rattle.std.specs.Prelude.{◌≡◌, ◌++◌, ◌∷◌, [], OnOk, Some};
ghost use Rattle.std.specs.List.{flat_map, AllByRecursion};
ghost use Rattle.text_words.specs.Spelling.{spaced, IsPart, atom_parts, alternative_parts, test_parts};

use crate::word_printer::{op_word, print_name, print_value};
use gdi_kinds::{Atom, AtomList, NoMemory, Test};

/// Writes a constraint, behind a space.
pub fn print_test(out: &mut Vec<u8>, test: &Test) -> Result<(), NoMemory>
    ensures printed { OnOk result (out.new.items ≡ out.old.items ++ flat_map spaced (test_parts (Some test.now))) }
    ensures parts { OnOk result (AllByRecursion IsPart (test_parts (Some test.now))) }
{
    out.extend_from_slice(b" where")?;
    let Some((first, others)) = test.as_slice().split_first() else {
        return Ok(());
    };
    print_alternative(out, first)?;
    for atoms in others {
        out.extend_from_slice(b" or")?;
        print_alternative(out, atoms)?;
    }
    Ok(())
}

fn print_alternative(out: &mut Vec<u8>, atoms: &AtomList) -> Result<(), NoMemory>
    ensures printed { OnOk result (out.new.items ≡ out.old.items ++ flat_map spaced (alternative_parts atoms.now)) }
    ensures parts { OnOk result (AllByRecursion IsPart (alternative_parts atoms.now)) }
{
    let Some((first, others)) = atoms.as_slice().split_first() else {
        return Ok(());
    };
    print_atom(out, first)?;
    for atom in others {
        out.extend_from_slice(b" and")?;
        print_atom(out, atom)?;
    }
    Ok(())
}

fn print_atom(out: &mut Vec<u8>, atom: &Atom) -> Result<(), NoMemory>
    ensures printed { OnOk result (out.new.items ≡ out.old.items ++ flat_map spaced (atom_parts atom.now)) }
    ensures parts { OnOk result (AllByRecursion IsPart (atom_parts atom.now)) }
{
    match atom {
        Atom::Has(label) => {
            out.extend_from_slice(b" has ")?;
            print_name(out, label)
        }
        Atom::Lacks(label) => {
            out.extend_from_slice(b" lacks ")?;
            print_name(out, label)
        }
        Atom::Prop(prop, op, value) => {
            out.extend_from_slice(b" prop ")?;
            print_name(out, prop)?;
            out.push(b' ')?;
            out.extend_from_slice(op_word(*op))?;
            out.push(b' ')?;
            print_value(out, value)
        }
    }
}
