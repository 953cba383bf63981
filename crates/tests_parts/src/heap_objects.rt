//! Programs over the memory of objects: each action where it is done and where it fails.
use crate::running::end_of;
use object_heap::ObjectHeap;
use std::test::Fail;

// Texts, and the value that each returns, or that it fails with and where.
const PROGRAMS: [(&str, &str); 7] = [
    (
        "proc main() { o := do new(Null); s := do set(o, \"a\", 5); g := do get(o, \"a\"); h := do has(o, \"a\"); return [o, s, g, h]; }",
        "[$0, 5, 5, true]",
    ),
    (
        "proc main() { o := do new(Null); s := do set(o, \"a\", 5); d := do delete(o, \"a\"); g := do get(o, \"a\"); h := do has(o, \"a\"); return [d, g, h]; }",
        "[true, Undef, false]",
    ),
    (
        "proc main() { o := do new(Null); k := do new(o); p := do getproto(k); q := do setproto(k, Null); r := do getproto(k); return [k, p, q, r]; }",
        "[$1, $0, Null, Null]",
    ),
    (
        "proc main() { l := usym; g := do get(l, \"a\"); return g; }",
        "\"missing\" at main:1",
    ),
    (
        "proc main() { o := do new(1); return o; }",
        "\"type\" at main:0",
    ),
    (
        "proc main() { o := do new(); return o; }",
        "\"arity\" at main:0",
    ),
    (
        "proc main() { o := do alloc(1); return o; }",
        "\"action\" at main:0",
    ),
];

#[test]
fn objects_have_properties_and_prototypes(rt: HostRuntime) -> Result<(), Fail> {
    for (text, expected) in PROGRAMS {
        let end = end_of::<ObjectHeap>(rt.alloc(), text)?;
        assert_eq!(rt; end.as_str(), expected, "{text}");
    }
    Ok(())
}
