//! What has a name, and the names of a list: which there are, where each stands first, and whether one stands twice.
ghost use Rattle.std.specs.Prelude.{◌≡◌, IfOk, map};
ghost use Rattle.gil_syntax.specs.Valid as valid;
ghost use Rattle.gil_syntax.specs.Valid.{is_among};
ghost use Rattle.gil_syntax.specs.Names.{has_name, place_of, first_place};

use crate::{Param, PredDef, Proc, Spec};
use gil_values::Text;
use std::alloc::{AllocError, Global};
use std::collections::{HashMap, HashSet};

/// A set of names.
pub(crate) type Names<'a> = HashSet<&'a str>;

/// The first place of each name of a list.
pub(crate) type Places<'a> = HashMap<&'a str, usize>;

/// What has a name.
pub(crate) trait Named {
    ghost use Rattle.std.specs.Prelude.{List, ℕ};

    ghost name_of: { Self → List ℕ };

    fn name(&self) -> &str
        ensures { result.now ≡ name_of self.now };
}

impl Named for Text {
    ghost name_of = { λ t. t };

    fn name(&self) -> &str {
        self.as_str()
    }
}

impl Named for Param {
    ghost name_of = { λ p. p.name };

    fn name(&self) -> &str {
        self.name.as_str()
    }
}

impl Named for Proc {
    ghost name_of = { λ q. q.name };

    fn name(&self) -> &str {
        self.name.as_str()
    }
}

impl Named for Spec {
    ghost name_of = { λ s. s.name };

    fn name(&self) -> &str {
        self.name.as_str()
    }
}

impl Named for PredDef {
    ghost name_of = { λ d. d.name };

    fn name(&self) -> &str {
        self.name.as_str()
    }
}

/// The names of a list.
pub(crate) fn names_in<'a, T: Named>(alloc: Global, items: &'a [T]) -> Result<Names<'a>, AllocError>
    ensures { IfOk result (λ s. has_name s ≡ is_among (map T.name_of items.now)) }
{
    let mut names = HashSet::new(alloc);
    for item in items {
        names.insert(item.name())?;
    }
    Ok(names)
}

/// The first place of each name.
pub(crate) fn first_places<'a, T: Named>(
    alloc: Global,
    items: &'a [T],
) -> Result<Places<'a>, AllocError>
    ensures { IfOk result (λ m. place_of m ≡ first_place (map T.name_of items.now)) }
{
    let mut places = HashMap::new(alloc);
    for (place, item) in items.iter().enumerate() {
        if !places.contains_key(item.name()) {
            places.insert(item.name(), place)?;
        }
    }
    Ok(places)
}

/// Whether two items have one name.
pub(crate) fn has_twice<T: Named>(alloc: Global, items: &[T]) -> Result<bool, AllocError>
    ensures { IfOk result (λ b. b ≡ valid.has_twice (map T.name_of items.now)) }
{
    let mut before = HashSet::new(alloc);
    for item in items {
        if !before.insert(item.name())? {
            return Ok(true);
        }
    }
    Ok(false)
}
