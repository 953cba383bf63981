//! How the run of a text ends over a memory.
use gil_machine::{End, run_entry};
use gil_text::read_prog;
use gil_values::{Text, Value, Values, push_place, push_value};
use mem_model::LocalMemory;
use std::alloc::{AllocError, Global};
use std::test::Fail;

/// The end of the run of `main` from the empty heap.
pub(crate) fn end_of<M: LocalMemory>(alloc: Global, text: &str) -> Result<String, Fail> {
    let prog = read_prog(alloc, text.as_bytes())?;
    let entry = Text::from_str(alloc, "main")?.ok_or("no text")?;
    let end = run_entry::<M>(alloc, &prog, &entry, &Values::new(alloc), 1000).ok_or("no entry")?;
    let mut words = String::new(alloc);
    tell(&mut words, end)?;
    Ok(words)
}

fn tell<M: LocalMemory>(words: &mut String, end: End<M>) -> Result<(), AllocError> {
    match end {
        End::Returned(value, _) => push_value(words, &value),
        End::Failed(value, place, _) => {
            push_value(words, &value)?;
            words.push_str(" at ")?;
            push_place(words, &place)
        }
        _ => words.push_str("another end"),
    }
}
