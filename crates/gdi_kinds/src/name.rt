ghost use Rattle.std.specs.Prelude.{◌≡◌, ◌≤◌, length, nat_eq, MatchOption};
ghost use Rattle.std.specs.Cmp.Lexicographic.{pointwise, nat_list_eq_equiv};
ghost use Rattle.std.specs.Cmp.{partial_equiv_from_equiv};
ghost use Rattle.std.specs.List.{list_all};
ghost use Rattle.gdi_kinds.specs.Names.{IsName, begins_name, continues_name, is_name, padded};

use crate::{Duplicate, NoMemory};
use std::alloc::Global;
use std::marker::Model;

const MAX_BYTES: usize = 63;

/// The name of a label or a property type: 1 to 63 bytes, seen as these bytes. It begins with an ASCII
/// letter or `_`, and goes on with ASCII letters, digits and `_`.
#[derive(Clone, Copy, Debug)]
pub struct Name {
    len: u8,
    bytes: [u8; MAX_BYTES],
}

impl Model for Name {
    ghost use Rattle.std.specs.Prelude.{List, ℕ};
    ghost use Rattle.gdi_kinds.specs.Names.{IsPaddedName, name_of, padded};

    ghost Value = { List ℕ };

    ghost view = { λ name. name_of name.len name.bytes };

    ghost invariant = { λ name. IsPaddedName name.len name.bytes };

    ghost inverse = { λ bytes. record { len = Rattle.std.specs.Prelude.length bytes; bytes = padded bytes } };
}

impl Name {
    /// The name with these bytes. There is none exactly where they are no name.
    pub fn of(bytes: &[u8]) -> Option<Name>
        ensures { MatchOption result (¬ IsName bytes.now)
            (λ name. (name ≡ bytes.now) × IsName bytes.now) }
    {
        if !is_name(bytes) {
            return None;
        }
        Some(Name {
            len: bytes.len() as u8,
            bytes: padded(bytes),
        })
    }

    /// The bytes, 1 to 63.
    pub fn bytes(&self) -> &[u8]
        ensures value { result.now ≡ self.now }
        ensures name { IsName self.now }
    {
        &self.bytes[..usize::from(self.len)]
    }
}

impl PartialEq for Name {
    ghost eq = { pointwise nat_eq };

    ghost laws = { partial_equiv_from_equiv nat_list_eq_equiv };

    fn eq(&self, other: &Name) -> bool {
        self.bytes() == other.bytes()
    }
}

impl Eq for Name {
    ghost laws = { nat_list_eq_equiv };
}

impl Duplicate for Name {
    fn copy(&self, _alloc: Global) -> Result<Name, NoMemory> {
        Ok(*self)
    }
}

fn is_name(bytes: &[u8]) -> bool
    ensures { result ≡ is_name bytes.now }
{
    match bytes.split_first() {
        Some((first, rest)) => {
            begins_name(*first) && all_continue_name(rest) && rest.len() < MAX_BYTES
        }
        None => false,
    }
}

fn all_continue_name(bytes: &[u8]) -> bool
    ensures { result ≡ list_all continues_name bytes.now }
{
    bytes.iter().all(|b| continues_name(*b))
}

fn padded(bytes: &[u8]) -> [u8; MAX_BYTES]
    requires { length bytes.now ≤ MAX_BYTES }
    ensures { result ≡ padded bytes.now }
{
    let mut field = [0; MAX_BYTES];
    field[..bytes.len()].copy_from_slice(bytes);
    field
}

fn begins_name(b: u8) -> bool
    ensures { result ≡ begins_name b }
{
    b.is_ascii_alphabetic() || b == b'_'
}

fn continues_name(b: u8) -> bool
    ensures { result ≡ continues_name b }
{
    begins_name(b) || b.is_ascii_digit()
}
