//! Texts with throws, handlers of calls and error postconditions.
use gil_print::print_prog;
use gil_syntax::InvalidKind;
use gil_text::{RefusedKind, read_prog};
use std::alloc::Global;
use std::test::Fail;

/// Texts, and the kind and the byte of the refusal, if there is one. The procedure of a label has two commands.
const READ: [(&str, Option<(RefusedKind, usize)>); 12] = [
    (
        "proc main() { r := call @main() catch -1; return r; }",
        Some((RefusedKind::Invalid(InvalidKind::BadLabel), 0)),
    ),
    ("proc main() { r := call @main() catch 0; return r; }", None),
    ("proc main() { r := call @main() catch 1; return r; }", None),
    (
        "proc main() { r := call @main() catch 2; return r; }",
        Some((RefusedKind::Invalid(InvalidKind::BadLabel), 0)),
    ),
    (
        "proc main() { r := call @main() catch; return r; }",
        Some((RefusedKind::Syntax, 37)),
    ),
    ("proc main() { r := call @main(); throw r; }", None),
    ("proc main() { throw; }", Some((RefusedKind::Syntax, 19))),
    ("proc main() { catch 0; }", Some((RefusedKind::Syntax, 14))),
    (
        "proc f() { throw 1; } spec f() [] { emp } throw { (ret = 1) }",
        None,
    ),
    (
        "proc f() { throw 1; } spec f() [] { emp } { emp } throw { emp } throw { emp }",
        None,
    ),
    (
        "proc f() { throw 1; } spec f() [] { emp } throw { emp } { emp }",
        Some((RefusedKind::Syntax, 56)),
    ),
    (
        "proc f() { throw 1; } spec f() [] { emp }",
        Some((RefusedKind::Syntax, 41)),
    ),
];

/// The kind and the byte of the refusal of a text, if it is refused.
fn refusal_of(alloc: Global, text: &str) -> Option<(RefusedKind, usize)> {
    match read_prog(alloc, text.as_bytes()) {
        Ok(_) => None,
        Err(refused) => Some((refused.kind, refused.at)),
    }
}

#[test]
fn labels_and_postconditions_are_read(rt: HostRuntime) -> Result<(), Fail> {
    for (text, expected) in READ {
        let found = refusal_of(rt.alloc(), text);
        assert!(rt; found == expected, "{text}");
    }
    Ok(())
}

/// A text as it is printed: a command on each line, then a specification on each line.
const PRINTED: &str = "proc main() {\n\
x := isym int;\n\
r := call @f(x) catch 3;\n\
return r;\n\
fail r;\n\
}\n\
proc f(n) {\n\
ifgoto (n = 3) 2;\n\
return n;\n\
throw \"three\";\n\
}\n\
spec f(n: int) [] { emp } { not((n = 3)) * (ret = n) } throw { (n = 3) * (ret = \"three\") }\n\
spec main() [] { emp } throw { emp }\n";

#[test]
fn printed_throws_are_read_again(rt: HostRuntime) -> Result<(), Fail> {
    let alloc = rt.alloc();
    let prog = read_prog(alloc, PRINTED.as_bytes())?;
    let printed = print_prog(alloc, &prog)?;
    assert!(rt;
        printed.as_slice() == PRINTED.as_bytes(),
        "printed otherwise"
    );
    Ok(())
}
