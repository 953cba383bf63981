//! Each head and each answer, read back from its lines and from its JSON and written again in both forms.
use crate::parts::{has_forms, read};
use gil_report::Report;
use report_json::{read_either, read_json};
use report_text::read_report;
use std::alloc::Global;
use std::test::Fail;

/// Whether what was read is a report with these lines and this JSON.
fn is_this(alloc: Global, found: Option<Report>, lines: &str, object: &str) -> Result<bool, Fail> {
    match found {
        Some(report) => has_forms(alloc, &report, lines, object),
        None => Ok(false),
    }
}

/// Whether the lines and the JSON are read as one report, which has these lines and this JSON.
fn is_in_both(alloc: Global, lines: &str, object: &str) -> Result<bool, Fail> {
    let from_lines = read(read_report(alloc, lines.as_bytes()))?;
    let from_json = read(read_json(alloc, object.as_bytes()))?;
    let by_lines = read(read_either(alloc, lines.as_bytes()))?;
    let by_json = read(read_either(alloc, object.as_bytes()))?;
    Ok(
        is_this(alloc, from_lines, lines, object)?
            && is_this(alloc, from_json, lines, object)?
            && is_this(alloc, by_lines, lines, object)?
            && is_this(alloc, by_json, lines, object)?,
    )
}

/// The lines and the JSON of reports.
const HEADS: [(&str, &str); 9] = [
    (
        "gillian run gil-record entry main bound 0\n",
        "{\"answers\":[],\"bound\":0,\"entry\":\"main\",\"lang\":\"gil-record\",\"mode\":\"run\"}\n",
    ),
    (
        "gillian run gil-block entry run bound 10000\n",
        "{\"answers\":[],\"bound\":10000,\"entry\":\"run\",\"lang\":\"gil-block\",\"mode\":\"run\"}\n",
    ),
    (
        "gillian test gil-object entry f bound 4294967295\n",
        "{\"answers\":[],\"bound\":4294967295,\"entry\":\"f\",\"lang\":\"gil-object\",\"mode\":\"test\"}\n",
    ),
    (
        "gillian test while entry _a$1 bound 1\n",
        "{\"answers\":[],\"bound\":1,\"entry\":\"_a$1\",\"lang\":\"while\",\"mode\":\"test\"}\n",
    ),
    (
        "gillian infer clike entry main bound 20\n",
        "{\"answers\":[],\"bound\":20,\"entry\":\"main\",\"lang\":\"clike\",\"mode\":\"infer\"}\n",
    ),
    (
        "gillian infer object entry main bound 20\n",
        "{\"answers\":[],\"bound\":20,\"entry\":\"main\",\"lang\":\"object\",\"mode\":\"infer\"}\n",
    ),
    (
        "gillian check gil-record bound 20\n",
        "{\"answers\":[],\"bound\":20,\"lang\":\"gil-record\",\"mode\":\"check\"}\n",
    ),
    (
        "gillian solve atoms\n",
        "{\"answers\":[],\"lang\":\"atoms\",\"mode\":\"solve\"}\n",
    ),
    (
        "gillian sweep 3\n",
        "{\"answers\":[],\"mode\":\"sweep\",\"n\":3}\n",
    ),
];

#[test]
fn heads(rt: HostRuntime) -> Result<(), Fail> {
    for (lines, object) in HEADS {
        assert!(rt; is_in_both(rt.alloc(), lines, object)?, "of {lines}");
    }
    Ok(())
}

/// The lines and the JSON of reports.
const ENDS_OF_RUNS: [(&str, &str); 9] = [
    (
        "gillian run while entry main bound 1000\nreturned [1, \"a\", $0]\n",
        "{\"answers\":[{\"kind\":\"returned\",\"value\":\"[1, \\\"a\\\", $0]\"}],\"bound\":1000,\"entry\":\"main\",\"lang\":\"while\",\"mode\":\"run\"}\n",
    ),
    (
        "gillian run while entry main bound 1000\nreturned -170141183460469231731687303715884105728\n",
        "{\"answers\":[{\"kind\":\"returned\",\"value\":\"-170141183460469231731687303715884105728\"}],\"bound\":1000,\"entry\":\"main\",\"lang\":\"while\",\"mode\":\"run\"}\n",
    ),
    (
        "gillian run while entry main bound 1000\nreturned [[], Undef, @main, \"\\\"\\\\\\n~\"]\n",
        "{\"answers\":[{\"kind\":\"returned\",\"value\":\"[[], Undef, @main, \\\"\\\\\\\"\\\\\\\\\\\\n~\\\"]\"}],\"bound\":1000,\"entry\":\"main\",\"lang\":\"while\",\"mode\":\"run\"}\n",
    ),
    (
        "gillian run while entry main bound 1000\nfailed \"zero\" main:3\n",
        "{\"answers\":[{\"at\":3,\"kind\":\"failed\",\"proc\":\"main\",\"value\":\"\\\"zero\\\"\"}],\"bound\":1000,\"entry\":\"main\",\"lang\":\"while\",\"mode\":\"run\"}\n",
    ),
    (
        "gillian run while entry main bound 1000\nvanished\n",
        "{\"answers\":[{\"kind\":\"vanished\"}],\"bound\":1000,\"entry\":\"main\",\"lang\":\"while\",\"mode\":\"run\"}\n",
    ),
    (
        "gillian run while entry main bound 1000\ncut\n",
        "{\"answers\":[{\"kind\":\"cut\"}],\"bound\":1000,\"entry\":\"main\",\"lang\":\"while\",\"mode\":\"run\"}\n",
    ),
    (
        "gillian run while entry main bound 1000\nno input 2\n",
        "{\"answers\":[{\"draw\":2,\"kind\":\"no-input\"}],\"bound\":1000,\"entry\":\"main\",\"lang\":\"while\",\"mode\":\"run\"}\n",
    ),
    (
        "gillian run while entry main bound 1000\nbad input 1\n",
        "{\"answers\":[{\"draw\":1,\"kind\":\"bad-input\"}],\"bound\":1000,\"entry\":\"main\",\"lang\":\"while\",\"mode\":\"run\"}\n",
    ),
    (
        "gillian run while entry main bound 1000\nnumber main:0\n",
        "{\"answers\":[{\"at\":0,\"kind\":\"number\",\"proc\":\"main\"}],\"bound\":1000,\"entry\":\"main\",\"lang\":\"while\",\"mode\":\"run\"}\n",
    ),
];

#[test]
fn ends_of_runs(rt: HostRuntime) -> Result<(), Fail> {
    for (lines, object) in ENDS_OF_RUNS {
        assert!(rt; is_in_both(rt.alloc(), lines, object)?, "of {lines}");
    }
    Ok(())
}

/// The lines and the JSON of reports.
const VERDICTS: [(&str, &str); 5] = [
    (
        "gillian test gil-record entry main bound 1000\nclean\n",
        "{\"answers\":[{\"kind\":\"clean\"}],\"bound\":1000,\"entry\":\"main\",\"lang\":\"gil-record\",\"mode\":\"test\"}\n",
    ),
    (
        "gillian test gil-record entry main bound 1000\nbug main:4 \"ten\" inputs [10]\n",
        "{\"answers\":[{\"at\":4,\"inputs\":[\"10\"],\"kind\":\"bug\",\"proc\":\"main\",\"value\":\"\\\"ten\\\"\"}],\"bound\":1000,\"entry\":\"main\",\"lang\":\"gil-record\",\"mode\":\"test\"}\n",
    ),
    (
        "gillian test gil-record entry main bound 1000\nbug main:4 @f inputs [true, \"a, b\", -1]\n",
        "{\"answers\":[{\"at\":4,\"inputs\":[\"true\",\"\\\"a, b\\\"\",\"-1\"],\"kind\":\"bug\",\"proc\":\"main\",\"value\":\"@f\"}],\"bound\":1000,\"entry\":\"main\",\"lang\":\"gil-record\",\"mode\":\"test\"}\n",
    ),
    (
        "gillian test gil-record entry main bound 1000\nunknown main:2 path [1] vars [int, int] given [(v0 <= 9)] query [((v0 * v1) = 6)] outside 0\n",
        "{\"answers\":[{\"at\":2,\"given\":[\"(v0 <= 9)\"],\"kind\":\"unknown\",\"outside\":0,\"path\":[1],\"proc\":\"main\",\"query\":[\"((v0 * v1) = 6)\"],\"vars\":[\"int\",\"int\"]}],\"bound\":1000,\"entry\":\"main\",\"lang\":\"gil-record\",\"mode\":\"test\"}\n",
    ),
    (
        "gillian test gil-record entry main bound 1000\nunknown f:0 path [] vars [bool, str, sym, list, any, fresh] given [] query [not(v0), open(nth(v3, 0))] outside 1\n",
        "{\"answers\":[{\"at\":0,\"given\":[],\"kind\":\"unknown\",\"outside\":1,\"path\":[],\"proc\":\"f\",\"query\":[\"not(v0)\",\"open(nth(v3, 0))\"],\"vars\":[\"bool\",\"str\",\"sym\",\"list\",\"any\",\"fresh\"]}],\"bound\":1000,\"entry\":\"main\",\"lang\":\"gil-record\",\"mode\":\"test\"}\n",
    ),
];

#[test]
fn verdicts(rt: HostRuntime) -> Result<(), Fail> {
    for (lines, object) in VERDICTS {
        assert!(rt; is_in_both(rt.alloc(), lines, object)?, "of {lines}");
    }
    Ok(())
}

/// The lines and the JSON of reports.
const SPECIFICATIONS: [(&str, &str); 6] = [
    (
        "gillian check while bound 1000\nswap verified\n",
        "{\"answers\":[{\"kind\":\"verified\",\"name\":\"swap\"}],\"bound\":1000,\"lang\":\"while\",\"mode\":\"check\"}\n",
    ),
    (
        "gillian check while bound 1000\nf vacuous false 0\n",
        "{\"answers\":[{\"kind\":\"vacuous\",\"name\":\"f\",\"proof\":\"false 0\"}],\"bound\":1000,\"lang\":\"while\",\"mode\":\"check\"}\n",
    ),
    (
        "gillian check while bound 1000\nf unproved fails \"zero\" f:2 path [0, 1] with [n = 0]\n",
        "{\"answers\":[{\"at\":2,\"kind\":\"unproved\",\"name\":\"f\",\"path\":[0,1],\"proc\":\"f\",\"value\":\"\\\"zero\\\"\",\"why\":\"fails\",\"with\":[\"n = 0\"]}],\"bound\":1000,\"lang\":\"while\",\"mode\":\"check\"}\n",
    ),
    (
        "gillian check while bound 1000\nf unproved unknown f:1 path [] vars [int] given [] query [((v0 * v0) = 4)] outside 0\n",
        "{\"answers\":[{\"at\":1,\"given\":[],\"kind\":\"unproved\",\"name\":\"f\",\"outside\":0,\"path\":[],\"proc\":\"f\",\"query\":[\"((v0 * v0) = 4)\"],\"vars\":[\"int\"],\"why\":\"unknown\"}],\"bound\":1000,\"lang\":\"while\",\"mode\":\"check\"}\n",
    ),
    (
        "gillian check while bound 1000\neven unproved depends odd\n",
        "{\"answers\":[{\"kind\":\"unproved\",\"name\":\"even\",\"on\":\"odd\",\"why\":\"depends\"}],\"bound\":1000,\"lang\":\"while\",\"mode\":\"check\"}\n",
    ),
    (
        "gillian check while bound 1000\nf verified\ng verified\nf vacuous false 0\n",
        "{\"answers\":[{\"kind\":\"verified\",\"name\":\"f\"},{\"kind\":\"verified\",\"name\":\"g\"},{\"kind\":\"vacuous\",\"name\":\"f\",\"proof\":\"false 0\"}],\"bound\":1000,\"lang\":\"while\",\"mode\":\"check\"}\n",
    ),
];

#[test]
fn specifications(rt: HostRuntime) -> Result<(), Fail> {
    for (lines, object) in SPECIFICATIONS {
        assert!(rt; is_in_both(rt.alloc(), lines, object)?, "of {lines}");
    }
    Ok(())
}

/// The lines and the JSON of reports.
const LACKS: [(&str, &str); 6] = [
    (
        "gillian check while bound 1000\nodd unproved missing odd:4 path [1] with [n = 0, #x = \"a\"]\n",
        "{\"answers\":[{\"at\":4,\"kind\":\"unproved\",\"name\":\"odd\",\"path\":[1],\"proc\":\"odd\",\"why\":\"missing\",\"with\":[\"n = 0\",\"#x = \\\"a\\\"\"]}],\"bound\":1000,\"lang\":\"while\",\"mode\":\"check\"}\n",
    ),
    (
        "gillian check while bound 1000\nodd unproved post odd:4 path [1] with [n = 0, #x = \"a\"]\n",
        "{\"answers\":[{\"at\":4,\"kind\":\"unproved\",\"name\":\"odd\",\"path\":[1],\"proc\":\"odd\",\"why\":\"post\",\"with\":[\"n = 0\",\"#x = \\\"a\\\"\"]}],\"bound\":1000,\"lang\":\"while\",\"mode\":\"check\"}\n",
    ),
    (
        "gillian check while bound 1000\nodd unproved invariant odd:4 path [1] with [n = 0, #x = \"a\"]\n",
        "{\"answers\":[{\"at\":4,\"kind\":\"unproved\",\"name\":\"odd\",\"path\":[1],\"proc\":\"odd\",\"why\":\"invariant\",\"with\":[\"n = 0\",\"#x = \\\"a\\\"\"]}],\"bound\":1000,\"lang\":\"while\",\"mode\":\"check\"}\n",
    ),
    (
        "gillian check while bound 1000\nodd unproved callpre odd:4 path [1] with [n = 0, #x = \"a\"]\n",
        "{\"answers\":[{\"at\":4,\"kind\":\"unproved\",\"name\":\"odd\",\"path\":[1],\"proc\":\"odd\",\"why\":\"callpre\",\"with\":[\"n = 0\",\"#x = \\\"a\\\"\"]}],\"bound\":1000,\"lang\":\"while\",\"mode\":\"check\"}\n",
    ),
    (
        "gillian check while bound 1000\nodd unproved foldbody odd:4 path [1] with [n = 0, #x = \"a\"]\n",
        "{\"answers\":[{\"at\":4,\"kind\":\"unproved\",\"name\":\"odd\",\"path\":[1],\"proc\":\"odd\",\"why\":\"foldbody\",\"with\":[\"n = 0\",\"#x = \\\"a\\\"\"]}],\"bound\":1000,\"lang\":\"while\",\"mode\":\"check\"}\n",
    ),
    (
        "gillian check while bound 1000\nodd unproved cut odd:4 path [1] with [n = 0, #x = \"a\"]\n",
        "{\"answers\":[{\"at\":4,\"kind\":\"unproved\",\"name\":\"odd\",\"path\":[1],\"proc\":\"odd\",\"why\":\"cut\",\"with\":[\"n = 0\",\"#x = \\\"a\\\"\"]}],\"bound\":1000,\"lang\":\"while\",\"mode\":\"check\"}\n",
    ),
];

#[test]
fn lacks(rt: HostRuntime) -> Result<(), Fail> {
    for (lines, object) in LACKS {
        assert!(rt; is_in_both(rt.alloc(), lines, object)?, "of {lines}");
    }
    Ok(())
}

/// The lines and the JSON of reports.
const FOUND: [(&str, &str); 3] = [
    (
        "gillian infer gil-record entry f bound 1000\nspec f(a: sym) [] { prop(a, \"v\"; 1) } { prop(a, \"v\"; 1) * (ret = 0) }\n",
        "{\"answers\":[{\"cut\":false,\"kind\":\"spec\",\"spec\":\"spec f(a: sym) [] { prop(a, \\\"v\\\"; 1) } { prop(a, \\\"v\\\"; 1) * (ret = 0) }\"}],\"bound\":1000,\"entry\":\"f\",\"lang\":\"gil-record\",\"mode\":\"infer\"}\n",
    ),
    (
        "gillian infer gil-record entry f bound 1000\nspec f(n: int) [#v1] { emp } throw { (ret = #v1) }\n",
        "{\"answers\":[{\"cut\":false,\"kind\":\"spec\",\"spec\":\"spec f(n: int) [#v1] { emp } throw { (ret = #v1) }\"}],\"bound\":1000,\"entry\":\"f\",\"lang\":\"gil-record\",\"mode\":\"infer\"}\n",
    ),
    (
        "gillian infer gil-record entry f bound 1000\nspec f() [] { emp } cut\n",
        "{\"answers\":[{\"cut\":true,\"kind\":\"spec\",\"spec\":\"spec f() [] { emp }\"}],\"bound\":1000,\"entry\":\"f\",\"lang\":\"gil-record\",\"mode\":\"infer\"}\n",
    ),
];

#[test]
fn found(rt: HostRuntime) -> Result<(), Fail> {
    for (lines, object) in FOUND {
        assert!(rt; is_in_both(rt.alloc(), lines, object)?, "of {lines}");
    }
    Ok(())
}

/// The lines and the JSON of reports.
const SOLUTIONS: [(&str, &str); 5] = [
    (
        "gillian solve atoms\nsat [x = 1, y = \"a\"]\n",
        "{\"answers\":[{\"kind\":\"sat\",\"with\":[\"x = 1\",\"y = \\\"a\\\"\"]}],\"lang\":\"atoms\",\"mode\":\"solve\"}\n",
    ),
    (
        "gillian solve atoms\nunsat split (x = y) (chain [3] not 2) (sum [0:1, 1:-1])\n",
        "{\"answers\":[{\"kind\":\"unsat\",\"proof\":\"split (x = y) (chain [3] not 2) (sum [0:1, 1:-1])\"}],\"lang\":\"atoms\",\"mode\":\"solve\"}\n",
    ),
    (
        "gillian solve atoms\nunsat cases x [meet 0 1 2, parts 3, parts 3 differ 1 [], values 0 [chain [] fresh]]\n",
        "{\"answers\":[{\"kind\":\"unsat\",\"proof\":\"cases x [meet 0 1 2, parts 3, parts 3 differ 1 [], values 0 [chain [] fresh]]\"}],\"lang\":\"atoms\",\"mode\":\"solve\"}\n",
    ),
    (
        "gillian solve atoms\nunknown 0\n",
        "{\"answers\":[{\"kind\":\"unknown-atoms\",\"outside\":0}],\"lang\":\"atoms\",\"mode\":\"solve\"}\n",
    ),
    (
        "gillian sweep 3\nbytes 164\nclean\n",
        "{\"answers\":[{\"bytes\":164,\"kind\":\"bytes\"},{\"kind\":\"clean\"}],\"mode\":\"sweep\",\"n\":3}\n",
    ),
];

#[test]
fn solutions(rt: HostRuntime) -> Result<(), Fail> {
    for (lines, object) in SOLUTIONS {
        assert!(rt; is_in_both(rt.alloc(), lines, object)?, "of {lines}");
    }
    Ok(())
}
