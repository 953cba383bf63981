//! Equalities that clash, terms that others link, and forms that grow, with memory to spare.
use crate::reading::list;
use equality_core::{Solved, equal};
use pure_terms::{Atom, Atoms, VarTable};
use std::alloc::Global;
use std::test::Fail;

/// Equalities, two sides, and whether the equalities link them; none where the equalities clash.
const LINKS: [(&str, &str, Option<bool>); 5] = [
    ("(w = x); (x = y);", "w; y;", Some(true)),
    ("(w = x); (x = y);", "w; z;", Some(false)),
    ("([w, x] = [y, z]); (z = 7);", "x; 7;", Some(true)),
    ("([w, x] = [y, z]); (z = 7);", "w; x;", Some(false)),
    ("(w = 1); ([w, x] = [x, y]); (y = 2);", "w; x;", None),
];

/// Whether the equalities of a text link the terms of the first two atoms of another.
fn is_linked(alloc: Global, stated: &str, sides: &[Atom]) -> Result<Option<bool>, Fail> {
    let [left, right] = sides else {
        return Err("no sides".into());
    };
    let text = list(alloc, stated)?;
    match equal(alloc, &text.vars, &text.atoms)? {
        Solved::Form(form) => Ok(Some(form.link(alloc, left.term(), right.term())?.is_some())),
        Solved::Clash(_) => Ok(None),
    }
}

#[test]
fn equal_terms_are_linked(rt: HostRuntime) -> Result<(), Fail> {
    for (stated, sides, linked) in LINKS {
        let sides = list(rt.alloc(), sides)?;
        let found = is_linked(rt.alloc(), stated, sides.atoms.as_slice())?;
        assert!(rt; found == linked, "{stated}");
    }
    Ok(())
}

#[test]
fn forms_grow_until_they_clash(rt: HostRuntime) -> Result<(), Fail> {
    let text = list(rt.alloc(), "(x = 1); (x = 2);")?;
    let [one, two] = text.atoms.as_slice() else {
        return Err("no equalities".into());
    };
    let Solved::Form(mut form) = equal(
        rt.alloc(),
        &VarTable::new(rt.alloc()),
        &Atoms::new(rt.alloc()),
    )?
    else {
        return Err("no form".into());
    };
    assert!(rt;
        form.extend(rt.alloc(), &text.vars, one)?.is_none(),
        "(x = 1)"
    );
    assert!(rt;
        form.extend(rt.alloc(), &text.vars, two)?.is_some(),
        "(x = 2)"
    );
    Ok(())
}
