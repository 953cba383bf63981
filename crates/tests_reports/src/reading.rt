//! Reports that are read back from their lines, and lines that are nearly those of a report.
use crate::parts::read;
use gil_report::text;
use report_json::{DEEPEST_REPORT, read_either};
use report_text::read_report;
use std::alloc::Global;
use std::test::Fail;
use value_text::ReadFault;

/// Whether the lines are read, as a report that has these lines.
fn is_read(alloc: Global, lines: &str) -> Result<bool, Fail> {
    match read(read_report(alloc, lines.as_bytes()))? {
        Some(report) => {
            let again = text(alloc, &report)?;
            Ok(again.as_slice() == lines.as_bytes())
        }
        None => Ok(false),
    }
}

/// The lines of a run that returns these pieces, each so many times.
fn returned(alloc: Global, pieces: &[(&str, usize)]) -> Result<String, Fail> {
    let mut lines = String::from_str(
        alloc,
        "gillian run gil-record entry main bound 1000\nreturned ",
    )?;
    for (piece, times) in pieces {
        for _ in 0..*times {
            lines.push_str(piece)?;
        }
    }
    lines.push_str("\n")?;
    Ok(lines)
}

#[test]
fn depth(rt: HostRuntime) -> Result<(), Fail> {
    let alloc = rt.alloc();
    let more = DEEPEST_REPORT.saturating_add(1);
    let deepest = returned(alloc, &[("[", DEEPEST_REPORT), ("]", DEEPEST_REPORT)])?;
    let deeper = returned(alloc, &[("[", more), ("]", more)])?;
    let literal = returned(
        alloc,
        &[("\"", 1), ("[", more), ("\\\"", 1), ("(", more), ("\"", 1)],
    )?;
    assert!(rt; read(read_either(alloc, deepest.as_bytes()))?.is_some());
    assert!(rt;
        matches!(
            read_either(alloc, deeper.as_bytes()),
            Err(ReadFault::Memory)
        )
    );
    assert!(rt; read(read_either(alloc, literal.as_bytes()))?.is_some());
    Ok(())
}

/// The lines of reports.
const ENDS_OF_RUNS: [&str; 9] = [
    "gillian run gil-record entry main bound 1000\nreturned [1, \"a\", $0]\n",
    "gillian run while entry f bound 0\nreturned [[], [-1, true], Undef, @main]\n",
    "gillian run clike entry main bound 7\nreturned -170141183460469231731687303715884105728\n",
    "gillian run gil-block entry main bound 7\nfailed \"\\\"\\\\\\n~\" main:3\n",
    "gillian run gil-object entry main bound 7\nvanished\n",
    "gillian run while entry main bound 7\ncut\n",
    "gillian run while entry main bound 7\nno input 2\n",
    "gillian run while entry main bound 7\nbad input 1\n",
    "gillian run while entry main bound 7\nnumber main:0\n",
];

#[test]
fn ends_of_runs(rt: HostRuntime) -> Result<(), Fail> {
    for lines in ENDS_OF_RUNS {
        assert!(rt; is_read(rt.alloc(), lines)?, "of {lines}");
    }
    Ok(())
}

/// The lines of reports.
const VERDICTS: [&str; 5] = [
    "gillian test while entry main bound 1000\nclean\n",
    "gillian test gil-record entry main bound 1000\nbug main:4 \"ten\" inputs [10, true]\n",
    "gillian sweep 3\nbytes 164\nclean\n",
    "gillian solve atoms\n",
    "gillian check while bound 20\n",
];

#[test]
fn verdicts(rt: HostRuntime) -> Result<(), Fail> {
    for lines in VERDICTS {
        assert!(rt; is_read(rt.alloc(), lines)?, "of {lines}");
    }
    Ok(())
}

#[test]
fn undecided(rt: HostRuntime) -> Result<(), Fail> {
    let alloc = rt.alloc();
    assert!(rt;
        is_read(
            alloc,
            "gillian test while entry main bound 20\nunknown main:2 path [1, 0] vars [int, any, fresh] given [(v0 <= 9), not(v1)] query [((v0 * v1) = 6), open(nth([v0, -1], 0))] outside 0\n"
        )?
    );
    assert!(rt;
        is_read(
            alloc,
            "gillian test while entry main bound 20\nunknown open:0 path [] vars [] given [] query [open, open(open)] outside 18446744073709551615\n"
        )?
    );
    Ok(())
}

/// The lines of reports.
const SOLUTIONS: [&str; 3] = [
    "gillian solve atoms\nsat [x = 7, y = [\"a\", @f, Int]]\n",
    "gillian solve atoms\nsat []\n",
    "gillian solve atoms\nunknown 3\n",
];

#[test]
fn solutions(rt: HostRuntime) -> Result<(), Fail> {
    for lines in SOLUTIONS {
        assert!(rt; is_read(rt.alloc(), lines)?, "of {lines}");
    }
    Ok(())
}

/// The lines of reports.
const PROOFS: [&str; 3] = [
    "gillian solve atoms\nunsat sum [0:1, 1:-2]\n",
    "gillian solve atoms\nunsat split (x < 3) (false 4) (chain [0, 2] kind 3 5)\n",
    "gillian check while bound 20\nf vacuous cases x [meet 0 1 2, parts 3, parts 3 differ 1 [], values 0 [chain [] fresh]]\n",
];

#[test]
fn proofs(rt: HostRuntime) -> Result<(), Fail> {
    for lines in PROOFS {
        assert!(rt; is_read(rt.alloc(), lines)?, "of {lines}");
    }
    Ok(())
}

/// The lines of reports.
const SPECIFICATIONS: [&str; 3] = [
    "gillian check while bound 20\nswap verified\nreturned verified\nbug unproved depends unknown\n",
    "gillian check while bound 20\nf unproved fails \"zero\" g:2 path [1] with [n = -7, #x = 0]\nodd unproved callpre odd:4 path [] with []\n",
    "gillian check while bound 20\nf unproved unknown f:1 path [0] vars [int] given [] query [((v0 * v0) = 4)] outside 0\n",
];

#[test]
fn specifications(rt: HostRuntime) -> Result<(), Fail> {
    for lines in SPECIFICATIONS {
        assert!(rt; is_read(rt.alloc(), lines)?, "of {lines}");
    }
    Ok(())
}

#[test]
fn found(rt: HostRuntime) -> Result<(), Fail> {
    let alloc = rt.alloc();
    assert!(rt;
        is_read(
            alloc,
            "gillian infer gil-record entry f bound 20\nspec f(a: sym, b) [] { prop(a, \"v\"; 1) * empty(b;) } { prop(a, \"v\"; 1) * (ret = 0) }\n"
        )?
    );
    assert!(rt;
        is_read(
            alloc,
            "gillian infer gil-record entry f bound 20\nspec f() [#x: int, #y] { emp } { not((#x = #y)) } throw { emp }\nspec f() [] { emp } cut\n"
        )?
    );
    Ok(())
}

/// The lines of reports.
const FOUND_WITHOUT_POSTCONDITION_READ: [&str; 2] = [
    "gillian infer while entry f bound 9\nspec f() [] { emp } cut\n",
    "gillian infer while entry f bound 9\nspec f() [] { emp } throw { emp }\n",
];

/// Lines of no report.
const FOUND_WITHOUT_POSTCONDITION_REFUSED: [&str; 3] = [
    "gillian infer while entry f bound 9\nspec f() [] { emp }\n",
    "gillian infer while entry f bound 9\nspec f() [] { emp } { emp } cut\n",
    "gillian infer while entry f bound 9\nspec f() [] { emp } throw { emp } cut\n",
];

#[test]
fn found_without_postcondition(rt: HostRuntime) -> Result<(), Fail> {
    for lines in FOUND_WITHOUT_POSTCONDITION_READ {
        assert!(rt; is_read(rt.alloc(), lines)?, "of {lines}");
    }
    for lines in FOUND_WITHOUT_POSTCONDITION_REFUSED {
        assert!(rt; !is_read(rt.alloc(), lines)?, "of {lines}");
    }
    Ok(())
}

/// Lines of no report.
const NEAR_PARTS: [&str; 14] = [
    "gillian solve atoms\nsat [x = 7,y = 8]\n",
    "gillian solve atoms\nsat [x=7]\n",
    "gillian solve atoms\nunknown -3\n",
    "gillian solve atoms\nunsat sum [0:1.5]\n",
    "gillian solve atoms\nunsat parts 3 \n",
    "gillian solve atoms\nspec f() [] { emp }  cut\n",
    "gillian solve atoms\nspec f() [] { nth(x, y) } cut\n",
    "gillian solve atoms\nspec f(x: any) [] { emp } cut\n",
    "gillian solve atoms\nunsat split x (false 4)\n",
    "gillian check while bound 20\nswap Verified\n",
    "gillian check while bound 20\nf unproved Post f:1 path [] with []\n",
    "gillian check while bound 20\nf unproved unknown f:1 path [0] vars [Int] given [] query [] outside 0\n",
    "gillian check while bound 20\nf unproved unknown f:1 path [0] vars [] given [] query [$1] outside 0\n",
    "gillian check while bound 20\nf unproved unknown f:1 path [0] vars [] given [] query [while] outside 0\n",
];

#[test]
fn near_parts(rt: HostRuntime) -> Result<(), Fail> {
    for lines in NEAR_PARTS {
        assert!(rt; !is_read(rt.alloc(), lines)?, "of {lines}");
    }
    Ok(())
}

/// Lines of no report.
const NEAR_MISSES: [&str; 15] = [
    "",
    "gillian test while entry main bound 1000\nclean",
    "gillian test while entry main bound 1000\nclean\n\n",
    "gillian test while entry main bound 1000\nClean\n",
    "gillian test while entry main bound 01000\nclean\n",
    "gillian test while entry main bound 4294967296\nclean\n",
    "gillian test while  entry main bound 1000\nclean\n",
    "gillian run while entry main bound 7\nreturned +1\n",
    "gillian run while entry main bound 7\nreturned -0\n",
    "gillian run while entry main bound 7\nreturned 1.0\n",
    "gillian run while entry main bound 7\nreturned 170141183460469231731687303715884105728\n",
    "gillian run while entry main bound 7\nreturned [1,2]\n",
    "gillian run while entry main bound 7\nreturned [1, 2\n",
    "gillian run while entry main bound 7\nreturned \"a\n",
    "gillian run while entry main bound 7\nnumber main\n",
];

#[test]
fn near_misses(rt: HostRuntime) -> Result<(), Fail> {
    for lines in NEAR_MISSES {
        assert!(rt; !is_read(rt.alloc(), lines)?, "of {lines}");
    }
    Ok(())
}
