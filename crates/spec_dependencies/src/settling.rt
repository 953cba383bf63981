//! The greatest set of sound specifications that is closed under use.
ghost use Rattle.std.specs.Prelude.{◌≡◌, ◌<◌, length, IfOk};
ghost use Rattle.std.specs.Option.{option_map};
ghost use Rattle.spec_dependencies.specs.Settling.{is_sound, is_unsound, first_unsound, unsound_use, AreNew, IsMarking, IsRound, IsSettling};

use crate::entries::{Entries, Entry, Standing};
use gil_syntax::Texts;
use gil_values::Text;
use sequence::Sequence;
use std::alloc::{AllocError, Global};

fn is_sound(standing: &Standing) -> bool
    ensures { result ≡ is_sound standing.now }
{
    matches!(standing, Standing::Sound)
}

/// Whether a specification of this name isn't sound.
fn is_unsound(entries: &[Entry], name: &Text) -> bool
    ensures { result ≡ is_unsound entries.now name.now }
{
    entries
        .iter()
        .any(|entry| entry.name == *name && !is_sound(&entry.standing))
}

/// The first of these names of which a specification isn't sound.
fn first_unsound<'a>(entries: &[Entry], uses: &'a Texts) -> Option<&'a Text>
    ensures { option_map (λ name. name.now) result ≡ first_unsound entries.now uses.now }
{
    for name in uses.as_slice() {
        if is_unsound(entries, name) {
            return Some(name);
        }
    }
    None
}

/// The first name that a sound specification uses and of which one isn't sound.
fn unsound_use(alloc: Global, entries: &[Entry], entry: &Entry) -> Result<Option<Text>, AllocError>
    ensures { IfOk result (λ o. o ≡ unsound_use entries.now entry.now) }
{
    if !is_sound(&entry.standing) {
        return Ok(None);
    }
    match first_unsound(entries, &entry.uses) {
        Some(name) => Ok(Some(name.copy(alloc)?)),
        None => Ok(None),
    }
}

/// Marks the entry at a place if it is sound and uses one that isn't. Whether it does.
fn mark(alloc: Global, entries: &mut Vec<Entry>, place: usize) -> Result<bool, AllocError>
    requires { place < length entries.old.items }
    ensures { IfOk result (λ marked. IsMarking place marked entries.old.items entries.new.items) }
{
    match unsound_use(alloc, entries.as_slice(), &entries[place])? {
        Some(name) => {
            entries[place].standing = Standing::Depends(name);
            Ok(true)
        }
        None => Ok(false),
    }
}

/// Goes over the list once: a sound specification that uses one that isn't sound depends on it. Whether there was one.
fn mark_dependents(alloc: Global, entries: &mut Vec<Entry>) -> Result<bool, AllocError>
    ensures { IfOk result (λ marked. IsRound marked entries.old.items entries.new.items) }
{
    let mut marked = false;
    for place in 0..entries.len() {
        if mark(alloc, entries, place)? {
            marked = true;
        }
    }
    Ok(marked)
}

/// Which specifications stay sound: those that use none that isn't. Of the others each depends on one that it uses.
pub fn settle_dependencies(alloc: Global, entries: Entries) -> Result<Entries, AllocError>
    requires { AreNew entries }
    ensures { IfOk result (λ settled. IsSettling entries settled) }
{
    let mut entries = entries.into_vec();
    for _turn in 0..u64::MAX {
        if !mark_dependents(alloc, &mut entries)? {
            return in_sequence(alloc, entries);
        }
    }
    Err(AllocError)
}

fn in_sequence(alloc: Global, entries: Vec<Entry>) -> Result<Entries, AllocError>
    ensures { IfOk result (λ s. s ≡ entries.items) }
{
    let mut sequence = Sequence::new(alloc);
    for entry in entries {
        sequence.push(entry)?;
    }
    Ok(sequence)
}
