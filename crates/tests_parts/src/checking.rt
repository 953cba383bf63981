//! For each rule of proofs one that closes its list, and for conditions of rules one that breaks it alone; and how each is printed.
//! Lists that can be met aren't tried, since no proof closes them.
use crate::proofs::{Compound, Simple, make_compound, make_simple};
use crate::reading::list;
use solver_print::push_proof;
use solver_proof::{ChainEnd, Proof, accepts};
use std::alloc::Global;
use std::test::Fail;

const IN_TURN: &str = "(x < y); (y < z); (z < x);";

const SHIFTED: &str = "((x + 3) = y); (y = (x + 2));";

const AT_MOST: &str = "(x <= y); (y <= x); not((y = x));";

/// Atoms, a proof, how it is printed, and whether it closes.
const SIMPLE: [(&str, Simple, &str, bool); 24] = [
    (
        IN_TURN,
        Simple::Sum(&[(0, 1), (1, 1), (2, 1)]),
        "sum [0:1, 1:1, 2:1]",
        true,
    ),
    (
        IN_TURN,
        Simple::Sum(&[(0, 2), (1, 2), (2, 2)]),
        "sum [0:2, 1:2, 2:2]",
        false,
    ),
    (IN_TURN, BOTH, "sum [0:1, 1:1]", false),
    (
        IN_TURN,
        Simple::Sum(&[(0, 1), (1, 1), (2, 1), (3, 1)]),
        "sum [0:1, 1:1, 2:1, 3:1]",
        false,
    ),
    (
        "(x <= 0); (x <= -1);",
        Simple::Sum(&[(0, -1), (1, 1)]),
        "sum [0:-1, 1:1]",
        false,
    ),
    ("(x <= 0); not((x < 1));", BOTH, "sum [0:1, 1:1]", true),
    ("(x <= 0); not((x <= 0));", BOTH, "sum [0:1, 1:1]", true),
    (SHIFTED, BOTH, "sum [0:1, 1:1]", true),
    (
        SHIFTED,
        Simple::Sum(&[(0, 0), (1, 1)]),
        "sum [0:0, 1:1]",
        false,
    ),
    (
        "(a = 0); (a = 1);",
        Simple::Sum(&[(0, 1), (1, -1)]),
        "sum [0:1, 1:-1]",
        false,
    ),
    (
        "(x < 0); (0 < x);",
        Simple::Sum(&[(0, 1), (0, 1), (1, 1)]),
        "sum [0:1, 0:1, 1:1]",
        false,
    ),
    ("(2 <= 1);", Simple::False(0), "false 0", true),
    ("not((1 = 1));", Simple::False(0), "false 0", true),
    (
        "(a = 1); (2 = a);",
        Simple::Chain(&[0, 1], ChainEnd::Literals),
        "chain [0, 1] literals",
        true,
    ),
    (
        "(x = a); (a = Null);",
        Simple::Chain(&[0, 1], ChainEnd::Kinds),
        "chain [0, 1] kinds",
        true,
    ),
    (
        "(a = c); not((c = a));",
        Simple::Chain(&[0], ChainEnd::Not(1)),
        "chain [0] not 1",
        true,
    ),
    (
        "(kind(a) = Sym); (a = Null);",
        Simple::Chain(&[1], ChainEnd::Kind(0)),
        "chain [1] kind 0",
        true,
    ),
    (
        "not((kind(a) = Kind)); (a = Null);",
        Simple::Chain(&[1], ChainEnd::Kind(0)),
        "chain [1] kind 0",
        true,
    ),
    (
        "(kind(a) = Undef);",
        Simple::Chain(&[], ChainEnd::Kind(0)),
        "chain [] kind 0",
        true,
    ),
    (
        "(kind(a) = Sym); (a = c); (kind(c) = Int);",
        Simple::Chain(&[1], ChainEnd::BothKinds(0, 2)),
        "chain [1] kind 0 2",
        true,
    ),
    (
        "(kind(a) = Sym); (a = c); not((kind(c) = Sym));",
        Simple::Chain(&[1], ChainEnd::BothKinds(0, 2)),
        "chain [1] kind 0 2",
        true,
    ),
    ("([x] = [x, y]);", Simple::Apart(0), "parts 0", true),
    (
        "([x, y] = [y, x]); (x < y);",
        Simple::Apart(0),
        "parts 0",
        false,
    ),
    (AT_MOST, Simple::Meet(0, 1, 2), "meet 0 1 2", true),
];

#[test]
fn rules_close_and_their_conditions_count(rt: HostRuntime) -> Result<(), Fail> {
    let alloc = rt.alloc();
    for (stated, form, printed, closes) in SIMPLE {
        let found = told(alloc, stated, &make_simple(alloc, form)?)?;
        assert!(rt;
            found.0.as_str() == printed && found.1 == closes,
            "{stated}"
        );
    }
    Ok(())
}

/// How a proof is printed, and whether it closes the atoms that a text states.
fn told(alloc: Global, stated: &str, proof: &Proof) -> Result<(String, bool), Fail> {
    let text = list(alloc, stated)?;
    let mut printed = String::new(alloc);
    push_proof(&mut printed, &text.names, proof)?;
    Ok((printed, accepts(&text.vars, &text.atoms, proof)))
}

const BOTH: Simple = Simple::Sum(&[(0, 1), (1, 1)]);

const BOTH_WAYS: &str = "not((x <= y)); not((y <= x));";

const NO_BOOLEAN: &str = "(kind(a) = Bool); not((a = true)); not((a = false));";

const NOT_TRUE: Simple = Simple::Chain(&[3], ChainEnd::Not(1));

const NOT_FALSE: Simple = Simple::Chain(&[3], ChainEnd::Not(2));

/// No value has none of these kinds.
const NO_KIND: &str =
    "not((kind(a) = Int)); not((kind(a) = Bool)); not((kind(a) = Str)); not((kind(a) = Sym)); not((kind(a) = Kind)); not((kind(a) = Proc)); not((kind(a) = List));";

/// For each kind, that the atom that denies it contradicts the one that states it, which is the last one.
const EACH_KIND: &[Simple] = &[
    Simple::Chain(&[], ChainEnd::BothKinds(0, 7)),
    Simple::Chain(&[], ChainEnd::BothKinds(1, 7)),
    Simple::Chain(&[], ChainEnd::BothKinds(2, 7)),
    Simple::Chain(&[], ChainEnd::BothKinds(3, 7)),
    Simple::Chain(&[], ChainEnd::BothKinds(4, 7)),
    Simple::Chain(&[], ChainEnd::BothKinds(5, 7)),
    Simple::Chain(&[], ChainEnd::BothKinds(6, 7)),
];

/// Atoms, a proof, how it is printed, and whether it closes.
const COMPOUND: [(&str, Compound, &str, bool); 9] = [
    (
        "([x, 1] = [2, y]); (x < y);",
        Compound::Parts(0, Simple::Sum(&[(1, 1), (2, -1), (3, -1)])),
        "parts 0 sum [1:1, 2:-1, 3:-1]",
        true,
    ),
    (
        NO_BOOLEAN,
        Compound::Values(0, &[NOT_TRUE, NOT_FALSE]),
        "values 0 [chain [3] not 1, chain [3] not 2]",
        true,
    ),
    (
        NO_BOOLEAN,
        Compound::Values(0, &[NOT_FALSE, NOT_TRUE]),
        "values 0 [chain [3] not 2, chain [3] not 1]",
        false,
    ),
    (
        "not(([x, 1] = [x, 1]));",
        Compound::Differ(0, &[Simple::Chain(&[], ChainEnd::Not(1)), Simple::False(1)]),
        "differ 0 [chain [] not 1, false 1]",
        true,
    ),
    (
        NO_KIND,
        Compound::Cases("a;", EACH_KIND),
        "cases a [chain [] kind 0 7, chain [] kind 1 7, chain [] kind 2 7, chain [] kind 3 7, chain [] kind 4 7, chain [] kind 5 7, chain [] kind 6 7]",
        true,
    ),
    (
        NO_KIND,
        Compound::Cases("c;", EACH_KIND),
        "cases c [chain [] kind 0 7, chain [] kind 1 7, chain [] kind 2 7, chain [] kind 3 7, chain [] kind 4 7, chain [] kind 5 7, chain [] kind 6 7]",
        false,
    ),
    (
        BOTH_WAYS,
        Compound::Split("(x <= y);", BOTH, BOTH),
        "split (x <= y) (sum [0:1, 1:1]) (sum [0:1, 1:1])",
        true,
    ),
    (
        BOTH_WAYS,
        Compound::Split("((x + y) = 0);", BOTH, BOTH),
        "split ((x + y) = 0) (sum [0:1, 1:1]) (sum [0:1, 1:1])",
        false,
    ),
    (
        BOTH_WAYS,
        Compound::Split("(a < 0);", BOTH, BOTH),
        "split (a < 0) (sum [0:1, 1:1]) (sum [0:1, 1:1])",
        false,
    ),
];

#[test]
fn rules_that_take_proofs_close(rt: HostRuntime) -> Result<(), Fail> {
    let alloc = rt.alloc();
    for (stated, form, printed, closes) in COMPOUND {
        let found = told(alloc, stated, &make_compound(alloc, form)?)?;
        assert!(rt;
            found.0.as_str() == printed && found.1 == closes,
            "{stated}"
        );
    }
    Ok(())
}
