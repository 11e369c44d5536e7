ghost use Rattle.std.specs.Prelude.{◌≡◌, Bool, true, List};
ghost use Rattle.std.specs.List.{filter};
ghost use Rattle.std.specs.Cmp.{IsTotalOrder};
ghost use Rattle.std.specs.Ordering.{is_lt};
ghost use Rattle.std.specs.FinMap.{IsAntisymmetric};
ghost use Rattle.std.specs.declared.cmp.Ordering.{Ordering};
ghost use Rattle.rising_lists.specs.Rising.{is_rising, with_item};

/// A list that rises by its keys does so with one item more, in its place, and with the items of some keys left out.
pub fn one_item_more_or_less<E, K>()
    ensures more { (key : E → K) (R : K → K → Ordering) (before : E → E → Bool) (item : E) (items : List E) →
        IsTotalOrder R → IsAntisymmetric R → ((x y : E) → before x y ≡ is_lt (R (key x) (key y))) →
        is_rising before items ≡ true → is_rising before (with_item key R item items) ≡ true }
    ensures less { (key : E → K) (R : K → K → Ordering) (before : E → E → Bool) (p : K → Bool) (items : List E) →
        IsTotalOrder R → IsAntisymmetric R → ((x y : E) → before x y ≡ is_lt (R (key x) (key y))) →
        is_rising before items ≡ true → is_rising before (filter (λ item. p (key item)) items) ≡ true }
{}
