//! The parts of a program by name: procedures, specifications and predicates, core predicates among them.
ghost use Rattle.std.specs.Prelude.{◌≡◌, IfOk, is_some};
ghost use Rattle.std.specs.Option.{option_map};
ghost use Rattle.gil_syntax.specs.Programs.{find_proc, find_spec, find_pred};
ghost use Rattle.gil_syntax.specs.Valid.{predicates_of, is_named, core_predicates};
ghost use Rattle.gil_syntax.specs.View.{proc_view, spec_view, pred_def_view};
ghost use Rattle.gil_syntax.specs.ByName.{parts_of, IsIndexed, shape, find_signature};

use crate::named::{Places, first_places};
use crate::{Parts, PredDef, Proc, Spec};
use std::alloc::{AllocError, Global};

/// Parts, and the first place of each name in their three lists.
#[derive(Drop)]
pub(crate) struct PartsByName<'a> {
    pub(crate) parts: &'a Parts,
    pub(crate) procs: Places<'a>,
    pub(crate) specs: Places<'a>,
    pub(crate) preds: Places<'a>,
}

/// The numbers of ins and outs of a predicate.
#[derive(Clone, Copy)]
pub(crate) struct Arity {
    pub(crate) ins: usize,
    pub(crate) outs: usize,
}

/// The arity of a core predicate.
pub(crate) fn core_arity(name: &str) -> Option<Arity>
    ensures { option_map (λ a. (a.ins, a.outs)) result ≡ option_map shape (find_signature core_predicates name.now) }
{
    let (ins, outs) = match name {
        "prop" => (2, 1),
        "shape" => (1, 1),
        "gone" => (1, 0),
        "cell" => (2, 1),
        "bound" => (1, 1),
        "dom" => (1, 1),
        "proto" => (1, 1),
        _ => return None,
    };
    Some(Arity { ins, outs })
}

impl<'a> PartsByName<'a> {
    /// Finds the places of all names.
    pub(crate) fn new(alloc: Global, parts: &'a Parts) -> Result<PartsByName<'a>, AllocError>
        ensures parts { IfOk result (λ b. b.parts.now ≡ parts.now) }
        ensures indexed { IfOk result IsIndexed }
    {
        let procs = first_places(alloc, parts.procs.as_slice())?;
        let specs = first_places(alloc, parts.specs.as_slice())?;
        let preds = first_places(alloc, parts.preds.as_slice())?;
        Ok(PartsByName {
            parts,
            procs,
            specs,
            preds,
        })
    }

    /// The first procedure of a name.
    pub(crate) fn proc(&self, name: &str) -> Option<&'a Proc>
        requires { IsIndexed self.now }
        ensures { option_map (λ q. proc_view q.now) result ≡ find_proc (parts_of self.now).procs name.now }
    {
        let place = self.procs.get(name)?;
        self.parts.procs.get(*place)
    }

    /// The first specification of a name.
    pub(crate) fn spec(&self, name: &str) -> Option<&'a Spec>
        requires { IsIndexed self.now }
        ensures { option_map (λ s. spec_view s.now) result ≡ find_spec (parts_of self.now).specs name.now }
    {
        let place = self.specs.get(name)?;
        self.parts.specs.get(*place)
    }

    /// The first of the program's own predicates of a name.
    pub(crate) fn own_pred(&self, name: &str) -> Option<&'a PredDef>
        requires { IsIndexed self.now }
        ensures { option_map (λ d. pred_def_view d.now) result ≡ find_pred (parts_of self.now).preds name.now }
    {
        let place = self.preds.get(name)?;
        self.parts.preds.get(*place)
    }

    /// The arity of the first predicate of a name, the core predicates before the program's own.
    pub(crate) fn arity(&self, name: &str) -> Option<Arity>
        requires { IsIndexed self.now }
        ensures { option_map (λ a. (
          a.ins,
          a.outs,
        )) result ≡ option_map shape (find_signature (predicates_of (parts_of self.now)) name.now) }
    {
        if let Some(arity) = core_arity(name) {
            return Some(arity);
        }
        let pred = self.own_pred(name)?;
        Some(Arity {
            ins: pred.ins.len(),
            outs: pred.outs.len(),
        })
    }

    /// Whether there is a predicate of that name.
    pub(crate) fn has_pred(&self, name: &str) -> bool
        requires { IsIndexed self.now }
        ensures { result ≡ is_named (predicates_of (parts_of self.now)) name.now }
    {
        self.arity(name).is_some()
    }
}
