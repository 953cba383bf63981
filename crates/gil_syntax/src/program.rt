//! Programs: what is valid and well made, with its procedures by name and by place.
ghost use Rattle.std.specs.Prelude.{◌≡◌, ◌≢◌, IfOk, IfErr, OnOk, IsTrue, false, map, length, slice_get};
ghost use Rattle.std.specs.Option.{option_map};
ghost use Rattle.gil_syntax.specs.declared.validity.InvalidKind.TheVariants.{Memory};
ghost use Rattle.gil_syntax.specs.Programs.{find_proc};
ghost use Rattle.gil_syntax.specs.Valid.{has_twice, IsNamedFault, IsValid};
ghost use Rattle.gil_syntax.specs.View.{proc_view, spec_view, pred_def_view, parts_view};
ghost use Rattle.gil_syntax.specs.WellMade.{is_well_made};
ghost use Rattle.gil_syntax.specs.Parts.{parts_seen};

use crate::checking::check;
use crate::invalid::Invalid;
use crate::{Parts, PredDefs, Proc, Procs, Specs};
use gil_values::Text;
use indexmap::IndexMap;
use std::alloc::{AllocError, Global};

/// A program. Contracts see it as its parts, by `prog_view`; the parts are valid and well made.
#[derive(Drop)]
pub struct Prog {
    procs: IndexMap<Text, Proc>,
    specs: Specs,
    preds: PredDefs,
    // each procedure stands under its name
    ghost named: { map (λ e. e.0) procs.entries ≡ map (λ e. e.1.name) procs.entries },
    pub ghost valid: { IsValid (parts_seen procs.entries specs preds) },
    pub ghost well_made: { IsTrue (is_well_made (parts_seen procs.entries specs preds)) },
}

impl Prog {
    ghost use Rattle.gil_syntax.specs.Program.{prog_view};

    /// The program of these parts, or the fault that is named of them. The parts are well made: readers and compilers make
    /// no others.
    pub fn new(alloc: Global, parts: Parts) -> Result<Prog, Invalid>
        requires { IsTrue (is_well_made (parts_view parts)) }
        ensures program { IfOk result (λ prog. prog_view prog ≡ parts_view parts) }
        ensures valid { OnOk result (IsValid (parts_view parts)) }
        ensures invalid { IfErr result (λ e. e.kind ≢ Memory → IsNamedFault (parts_view parts) e.kind e.item) }
    {
        check(alloc, &parts)?;
        let Parts {
            procs,
            specs,
            preds,
        } = parts;
        let procs = procs_by_name(alloc, procs)?;
        Ok(Prog {
            procs,
            specs,
            preds,
        })
    }

    /// How many parameters the procedure of a name has.
    pub fn arity(&self, name: &Text) -> Option<usize>
        ensures { result ≡ option_map (λ q. length q.params) (find_proc (prog_view self.now).procs name.now) }
    {
        match self.procs.get(name) {
            Some(proc) => Some(proc.params.len()),
            None => None,
        }
    }

    /// The procedure of a name.
    pub fn proc(&self, name: &Text) -> Option<&Proc>
        ensures { option_map (λ q. proc_view q.now) result ≡ find_proc (prog_view self.now).procs name.now }
    {
        self.procs.get(name)
    }

    /// The procedure at a place of the list, counted from 0.
    pub fn proc_at(&self, place: usize) -> Option<&Proc>
        ensures { option_map (λ q. proc_view q.now) result ≡ slice_get (prog_view self.now).procs place }
    {
        match self.procs.get_index(place) {
            Some((_, proc)) => Some(proc),
            None => None,
        }
    }

    /// How many procedures there are.
    pub fn proc_count(&self) -> usize
        ensures { result ≡ length (prog_view self.now).procs }
    {
        self.procs.len()
    }

    /// The specifications.
    pub fn specs(&self) -> &Specs
        ensures { map spec_view result.now ≡ (prog_view self.now).specs }
    {
        &self.specs
    }

    /// The predicates.
    pub fn preds(&self) -> &PredDefs
        ensures { map pred_def_view result.now ≡ (prog_view self.now).preds }
    {
        &self.preds
    }
}

/// The procedures by name, in their order.
fn procs_by_name(alloc: Global, procs: Procs) -> Result<IndexMap<Text, Proc>, AllocError>
    requires { has_twice (map (λ q. q.name) procs) ≡ false }
    ensures { IfOk result (λ m. m.entries ≡ map (λ q. (q.name, q)) procs) }
{
    let mut by_name = IndexMap::new(alloc);
    for proc in procs.into_vec() {
        let name = proc.name.copy(alloc)?;
        by_name.insert(name, proc)?;
    }
    Ok(by_name)
}
