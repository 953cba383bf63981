//! Objects as a memory on which core predicates are produced and consumed.
ghost use Rattle.std.specs.Prelude.{◌≡◌, IfOk};
ghost use Rattle.object_sym.specs.Fixes.{names_fix as names_fix_of, object_fixes};
ghost use Rattle.pure_terms.specs.View.{term_view};
ghost use Rattle.sym_model.specs.View.{key_view, fix_view, fixes_view};

use crate::memory::with_states;
use crate::states::ObjectSym;
use core_changes::consume_chunks;
use core_production::{fixes_of_key, produce_chunks};
use core_uses::list_chunks;
use gil_values::Text;
use mem_model::Core;
use pure_terms::{Sort, Term, Terms};
use sequence::Sequence;
use std::alloc::{AllocError, Global};
use sym_model::{Branches, CoreUses, Fix, Fixes, ListedMemory, SymKey, SymSub};

/// The names of the object at a location, as a list.
fn names_fix(alloc: Global, loc: &Term) -> Result<Fix, AllocError>
    ensures { IfOk result (λ f. fix_view f ≡ names_fix_of (term_view loc.now)) }
{
    match Text::from_str(alloc, Core::Dom.as_str())? {
        Some(core) => {
            let mut ins = Terms::new(alloc);
            ins.push(loc.copy(alloc)?)?;
            let mut outs = Sequence::new(alloc);
            outs.push(Sort::List)?;
            Ok(Fix { core, ins, outs })
        }
        None => unreachable!(),
    }
}

/// The core predicate of the key; of a name also the names of its object.
fn fixes_beside(alloc: Global, key: &SymKey) -> Result<Fixes, AllocError>
    ensures { IfOk result (λ fs. fixes_view fs ≡ object_fixes (key_view key.now)) }
{
    let mut fixes = fixes_of_key(alloc, key)?;
    match &key.sub {
        SymSub::Name(_) => fixes.push(names_fix(alloc, &key.loc)?)?,
        _ => {}
    }
    Ok(fixes)
}

impl ListedMemory for ObjectSym {
    fn produce(
        &self,
        alloc: Global,
        core: &Text,
        ins: &Terms,
        outs: &Terms,
    ) -> Result<Branches<ObjectSym>, AllocError> {
        let branches = produce_chunks(alloc, core, ins, outs, &self.chunks)?;
        with_states(alloc, branches)
    }

    fn consume(
        &self,
        alloc: Global,
        core: &Text,
        ins: &Terms,
    ) -> Result<Branches<ObjectSym>, AllocError> {
        let branches = consume_chunks(alloc, core, ins, &self.chunks)?;
        with_states(alloc, branches)
    }

    fn fixes(&self, alloc: Global, key: &SymKey) -> Result<Fixes, AllocError> {
        fixes_beside(alloc, key)
    }

    fn listing(&self, alloc: Global) -> Result<CoreUses, AllocError> {
        list_chunks(alloc, &self.chunks)
    }
}
