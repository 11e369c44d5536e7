ghost use Rattle.std.specs.Prelude.{◌≡◌, ◌↔◌, IsTrue};

use crate::Same;
use gdi_kinds::ListOf;

impl<T: Same> Same for ListOf<T> {
    fn is_same(&self, other: &ListOf<T>) -> bool {
        are_same(self.as_slice(), other.as_slice())
    }
}

fn are_same<T: Same>(one: &[T], other: &[T]) -> bool
    ensures { IsTrue result ↔ (one.now ≡ other.now) }
{
    if one.len() != other.len() {
        return false;
    }
    for (index, item) in one.iter().enumerate() {
        if !item.is_same(&other[index]) {
            return false;
        }
    }
    true
}
