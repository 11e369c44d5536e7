use constraints::passes;
use gdi_kinds::{Atom, AtomList, Name, NameList, Op, PropLine, PropList, Test, Text, Value};
use std::alloc::Global;
use std::test::Fail;

fn name_of(text: &str) -> Result<Name, Fail> {
    Ok(Name::of(text.as_bytes()).ok_or("no name")?)
}

// A property with its values; a digit is an integer, and another letter a text.
fn props_of(alloc: Global, lines: &[(&str, &str)]) -> Result<PropList, Fail> {
    let mut props = PropList::new(alloc);
    for (name, value) in lines {
        props.push(PropLine {
            name: name_of(name)?,
            value: value_of(alloc, value)?,
        })?;
    }
    Ok(props)
}

fn value_of(alloc: Global, value: &str) -> Result<Value, Fail> {
    Ok(match value {
        "true" => Value::Bool(true),
        "false" => Value::Bool(false),
        _ => match value.parse() {
            Ok(int) => Value::Int(int),
            Err(_) => Value::Text(Text::of(alloc, value.as_bytes())?),
        },
    })
}

// An atom by its words.
fn atom_of(alloc: Global, words: &[&str]) -> Result<Atom, Fail> {
    match words {
        ["has", label] => Ok(Atom::Has(name_of(label)?)),
        ["lacks", label] => Ok(Atom::Lacks(name_of(label)?)),
        [prop, op, value] => {
            let op = match *op {
                "=" => Op::Eq,
                "<>" => Op::Ne,
                "<" => Op::Lt,
                "<=" => Op::Le,
                ">" => Op::Gt,
                _ => Op::Ge,
            };
            Ok(Atom::Prop(name_of(prop)?, op, value_of(alloc, value)?))
        }
        _ => Err("no atom")?,
    }
}

fn test_of(alloc: Global, alternatives: &[&[&[&str]]]) -> Result<Test, Fail> {
    let mut test = Test::new(alloc);
    for alternative in alternatives {
        let mut atoms = AtomList::new(alloc);
        for words in *alternative {
            atoms.push(atom_of(alloc, words)?)?;
        }
        test.push(atoms)?;
    }
    Ok(test)
}

// On the labels A and B and the properties n of 5 and 3, t of b, and c of true.
const TESTS: [(&[&[&[&str]]], bool); 19] = [
    (&[&[&["has", "A"], &["n", ">=", "5"]]], true),
    (
        &[
            &[&["lacks", "A"]],
            &[&["n", "<>", "7"], &["c", "=", "false"]],
        ],
        false,
    ),
    (&[&[&["m", "<>", "1"]]], false),
    (&[&[&["t", "<", "ba"]]], true),
    (&[&[&["t", "<", "aa"]]], false),
    (&[&[&["t", "=", "b"]], &[&["has", "C"]]], true),
    (&[], false),
    (&[&[]], true),
    (&[&[&["has", "C"]], &[&["has", "B"]]], true),
    (&[&[&["lacks", "C"]]], true),
    (&[&[&["n", "<", "4"]]], true),
    (&[&[&["n", ">", "4"]]], true),
    (&[&[&["n", "=", "4"]]], false),
    (&[&[&["n", "<=", "3"]]], true),
    (&[&[&["n", "<=", "-3"]]], false),
    (&[&[&["n", "<>", "word"]]], false),
    (&[&[&["c", ">", "false"]]], true),
    (&[&[&["c", "<=", "false"]]], false),
    (&[&[&["t", ">", "true"]]], false),
];

#[test]
fn constraints_pass(rt: HostRuntime) -> Result<(), Fail> {
    let alloc = rt.alloc();
    let mut labels = NameList::new(alloc);
    labels.push(name_of("A")?)?;
    labels.push(name_of("B")?)?;
    let props = props_of(alloc, &[("n", "5"), ("n", "3"), ("t", "b"), ("c", "true")])?;
    for (alternatives, answer) in TESTS {
        let test = test_of(alloc, alternatives)?;
        assert_eq!(rt; passes(&test, &labels, &props), answer, "{alternatives:?}");
    }
    Ok(())
}
