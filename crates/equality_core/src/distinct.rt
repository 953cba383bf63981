//! Values for all variables, where equalities, numbers, kinds and disequalities are given.
ghost use Rattle.std.specs.Prelude.{length, IfOk};
ghost use Rattle.gil_values.specs.View.{values_view};
ghost use Rattle.pure_terms.specs.View.{atoms_view};
ghost use Rattle.equality_core.specs.Classes.{classes_view, given_list, IsTaken};
ghost use Rattle.equality_core.specs.Equating.{EquatesNoClash};
ghost use Rattle.equality_core.specs.Solved.{table, equalities};
ghost use Rattle.equality_core.specs.Valued.{AreFragmentEqualities, FitNumbers, FitKinds, MayAllDiffer, MeetsApart};

use crate::classes::Classes;
use crate::closing::{Closing, close};
use crate::copying::copy_of;
use crate::forms::SolvedForm;
use crate::letters::{longest_of_nodes, longest_of_sides};
use crate::rooting::roots_of;
use crate::values::{Kinds, values_of};
use pure_terms::{Atoms, Valuation, VarTable};
use std::alloc::{AllocError, Global};

/// The valuation by the classes of the equalities.
fn valued(
    alloc: Global,
    classes: &Classes,
    vars: &VarTable,
    numbers: &Valuation,
    kinds: &Kinds,
    apart: &Atoms,
) -> Result<Valuation, AllocError>
    requires taken { IsTaken (classes_view classes.now) (length (classes_view classes.now).list) }
    requires clear { EquatesNoClash (given_list (classes_view classes.now)) }
    requires fragment { AreFragmentEqualities vars.now (given_list (classes_view classes.now)) }
    requires numbers { FitNumbers vars.now (given_list (classes_view classes.now)) (values_view numbers.now) }
    requires kinds { FitKinds vars.now (given_list (classes_view classes.now)) kinds.now }
    requires apart { MayAllDiffer vars.now (given_list (classes_view classes.now)) kinds.now (atoms_view apart.now) }
    ensures { IfOk result (λ v. MeetsApart vars.now (given_list (classes_view classes.now))
        (values_view numbers.now) kinds.now (atoms_view apart.now) (values_view v)) }
{
    let _count = vars.len();
    let roots = roots_of(alloc, vars, &classes.nodes)?;
    let nodes = classes.nodes.items.as_slice();
    let long = longest_of_nodes(nodes).max(longest_of_sides(apart));
    values_of(alloc, classes, vars, roots.as_slice(), numbers, kinds, long)
}

impl Classes {
    /// A valuation under which the equalities of the classes are true, and so are disequalities of terms that they don't equate.
    /// Int variables have the given numbers, and all variables the given kinds.
    pub fn values(
        &self,
        alloc: Global,
        vars: &VarTable,
        numbers: &Valuation,
        kinds: &Kinds,
        apart: &Atoms,
    ) -> Result<Valuation, AllocError>
        requires taken { IsTaken (classes_view self.now) (length (classes_view self.now).list) }
        requires clear { EquatesNoClash (given_list (classes_view self.now)) }
        requires fragment { AreFragmentEqualities vars.now (given_list (classes_view self.now)) }
        requires numbers { FitNumbers vars.now (given_list (classes_view self.now)) (values_view numbers.now) }
        requires kinds { FitKinds vars.now (given_list (classes_view self.now)) kinds.now }
        requires apart { MayAllDiffer vars.now (given_list (classes_view self.now)) kinds.now (atoms_view apart.now) }
        ensures { IfOk result (λ v. MeetsApart vars.now (given_list (classes_view self.now))
            (values_view numbers.now) kinds.now (atoms_view apart.now) (values_view v)) }
    {
        valued(alloc, self, vars, numbers, kinds, apart)
    }
}

/// A valuation under which the equalities of a form are true, and so are disequalities of terms that it doesn't equate. Int
/// variables have the given numbers, and all variables the given kinds.
pub fn distinct_values(
    alloc: Global,
    form: &SolvedForm,
    numbers: &Valuation,
    kinds: &Kinds,
    apart: &Atoms,
) -> Result<Valuation, AllocError>
    requires fragment { AreFragmentEqualities (table form.now) (equalities form.now) }
    requires numbers { FitNumbers (table form.now) (equalities form.now) (values_view numbers.now) }
    requires kinds { FitKinds (table form.now) (equalities form.now) kinds.now }
    requires apart { MayAllDiffer (table form.now) (equalities form.now) kinds.now (atoms_view apart.now) }
    ensures { IfOk result (λ v. MeetsApart (table form.now) (equalities form.now)
        (values_view numbers.now) kinds.now (atoms_view apart.now) (values_view v)) }
{
    let list = copy_of(alloc, &form.atoms)?;
    match close(alloc, list)? {
        Closing::Whole(classes) => valued(alloc, &classes, &form.vars, numbers, kinds, apart),
        Closing::Clash(_) => unreachable!(),
    }
}
