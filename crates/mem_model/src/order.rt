//! The order of keys: by location, then by the subkey's variant, then by what the subkey holds.
ghost use Rattle.std.specs.Prelude.{◌≡◌};
ghost use Rattle.std.specs.Ordering.{int_cmp};
ghost use Rattle.std.specs.Cmp.Lexicographic.{slice_cmp};
ghost use Rattle.mem_model.specs.Keys.{sub_numbers};
ghost use Rattle.mem_model.specs.KeyOrder.{
  key_eq,
  key_cmp-equivalence,
  key_cmp-partial_order,
  key_cmp-total,
  variant_number,
  held_cmp,
};
ghost use Rattle.mem_model.specs.Keys.{key_cmp};
ghost use Rattle.std.specs.Cmp.{partial_equiv_from_equiv};
ghost use Rattle.std.specs.Prelude.{Some};
ghost use Rattle.std.proofs.Common.{refl};

use crate::keys::{Key, Sub};
use std::cmp::Ordering;

impl PartialEq for Key {
    ghost eq = { key_eq };

    ghost laws = { partial_equiv_from_equiv key_cmp-equivalence };

    fn eq(&self, other: &Key) -> bool {
        self.cmp(other) == Ordering::Equal
    }
}

impl Eq for Key {
    ghost laws = { key_cmp-equivalence };
}

impl PartialOrd for Key {
    ghost partial_cmp = { λ k l. Some (key_cmp k l) };

    ghost laws = { key_cmp-partial_order };

    fn partial_cmp(&self, other: &Key) -> Option<Ordering> {
        Some(self.cmp(other))
    }
}

impl Ord for Key {
    ghost cmp = { key_cmp };

    ghost total = { key_cmp-total };

    ghost matches_partial_cmp = { λ k l. refl };

    ghost matches_eq = { λ k l. refl };

    fn cmp(&self, other: &Key) -> Ordering {
        match self.loc.cmp(&other.loc) {
            Ordering::Equal => order_of_subkeys(&self.sub, &other.sub),
            decided => decided,
        }
    }
}

/// The order of two subkeys of one location.
fn order_of_subkeys(a: &Sub, b: &Sub) -> Ordering
    ensures { result ≡ slice_cmp int_cmp (sub_numbers a.now) (sub_numbers b.now) }
{
    match variant_of(a).cmp(&variant_of(b)) {
        Ordering::Equal => order_of_contents(a, b),
        decided => decided,
    }
}

/// The order of what two subkeys of one variant hold.
fn order_of_contents(a: &Sub, b: &Sub) -> Ordering
    ensures { result ≡ held_cmp a.now b.now }
{
    match (a, b) {
        (Sub::Name(p), Sub::Name(q)) => p.as_str().cmp(q.as_str()),
        (Sub::At(i), Sub::At(j)) => i.cmp(j),
        _ => Ordering::Equal,
    }
}

/// The place of the subkey's variant among all variants.
fn variant_of(sub: &Sub) -> u8
    ensures { result ≡ variant_number sub.now }
{
    match sub {
        Sub::Name(_) => 0,
        Sub::At(_) => 1,
        Sub::Shape => 2,
        Sub::Bound => 3,
        Sub::Dom => 4,
        Sub::Proto => 5,
        Sub::Gone => 6,
    }
}
