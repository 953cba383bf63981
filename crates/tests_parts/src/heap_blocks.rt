//! Programs over the memory of blocks: each action where it is done and where it fails.
use crate::running::end_of;
use block_heap::BlockHeap;
use std::test::Fail;

// Texts, and the value that each returns, or that it fails with and where.
const PROGRAMS: [(&str, &str); 11] = [
    (
        "proc main() { b := do alloc(2); l := nth(b, 0); s := do store([l, 1], 7); v := do load([l, 1]); w := do load(b); f := do free(b); return [b, s, v, w, f]; }",
        "[[$0, 0], 7, 7, 0, true]",
    ),
    (
        "proc main() { b := do alloc(10000); c := do alloc(0); l := nth(b, 0); v := do load([l, 9999]); return [c, v]; }",
        "[[$1, 0], 0]",
    ),
    (
        "proc main() { b := do alloc(10001); return b; }",
        "\"size\" at main:0",
    ),
    (
        "proc main() { b := do alloc(-1); return b; }",
        "\"size\" at main:0",
    ),
    (
        "proc main() { b := do alloc(2); v := do load([nth(b, 0), 2]); return v; }",
        "\"bound\" at main:1",
    ),
    (
        "proc main() { b := do alloc(2); v := do store([nth(b, 0), -1], 7); return v; }",
        "\"bound\" at main:1",
    ),
    (
        "proc main() { b := do alloc(2); f := do free([nth(b, 0), 1]); return f; }",
        "\"free\" at main:1",
    ),
    (
        "proc main() { b := do alloc(2); f := do free(b); v := do load(b); return v; }",
        "\"gone\" at main:2",
    ),
    (
        "proc main() { l := usym; v := do load([l, 0]); return v; }",
        "\"missing\" at main:1",
    ),
    (
        "proc main() { b := do free(1); return b; }",
        "\"type\" at main:0",
    ),
    (
        "proc main() { r := do new([]); return r; }",
        "\"action\" at main:0",
    ),
];

#[test]
fn blocks_are_made_used_and_freed(rt: HostRuntime) -> Result<(), Fail> {
    for (text, expected) in PROGRAMS {
        let end = end_of::<BlockHeap>(rt.alloc(), text)?;
        assert_eq!(rt; end.as_str(), expected, "{text}");
    }
    Ok(())
}
