//! The next step on a list of atoms.
ghost use Rattle.std.specs.Prelude.{IfOk};
ghost use Rattle.gil_values.specs.View.{values_view};
ghost use Rattle.linear_core.specs.Answers.{IsSolution};
ghost use Rattle.pure_terms.specs.View.{atoms_view};
ghost use Rattle.equality_core.specs.Classes.{classes_view};
ghost use Rattle.solver_rules.specs.Nodes.{vars_of, list_of_node, classes_of, IsNodeOf};
ghost use Rattle.solver_rules.specs.Rows.{rows_from};
ghost use Rattle.solver_rules.specs.Steps.{ArePlain, IsNode, IsStep};

use crate::choosing::chosen;
use crate::models::model_of;
use crate::numbers::{NumbersFound, numbers_of};
use crate::ordering::in_order;
use crate::trying::run_each;
use equality_core::{Classes, Classified, classify};
use pure_terms::{Atoms, VarTable};
use solver_rules::{KindsFound, Node, Rule, Step, kinds_of, run};
use std::alloc::{AllocError, Global};

/// The split that tells most, or the one that is given.
fn better_split(alloc: Global, node: &Node<'_>, step: Step) -> Result<Step, AllocError>
    requires node { IsNodeOf node.now }
    requires step { IsStep (vars_of node.now) (list_of_node node.now) step }
    ensures { IfOk result (IsStep (vars_of node.now) (list_of_node node.now)) }
{
    match step {
        Step::Split(term) => match chosen(alloc, node)? {
            Some(split) => Ok(split),
            None => Ok(Step::Split(term)),
        },
        other => Ok(other),
    }
}

/// The step where numbers solve the rows: what closes the list or must hold comes first, and what has most cases last.
fn step_with_numbers(alloc: Global, node: &Node<'_>) -> Result<Step, AllocError>
    requires node { IsNodeOf node.now }
    requires solved { IsSolution (vars_of node.now) (rows_from (classes_of node.now).list) (values_view node.now.numbers.now) }
    ensures { IfOk result (IsStep (vars_of node.now) (list_of_node node.now)) }
{
    let rules = [
        Rule::Linked,
        Rule::OneKind,
        Rule::TwoKinds,
        Rule::Meeting,
        Rule::Numbers,
        Rule::SmallFact,
        Rule::SmallSide,
        Rule::Lists,
    ];
    if let Some(step) = run_each(alloc, node, &rules)? {
        return Ok(step);
    }
    if let Some(step) = run(alloc, node, Rule::Orders)? {
        return better_split(alloc, node, step);
    }
    match kinds_of(alloc, node)? {
        KindsFound::All(kinds) => Ok(Step::Model(model_of(alloc, node, &kinds)?)),
        KindsFound::Open(x) => Ok(Step::Cases(x)),
    }
}

/// The step where the equalities don't clash.
fn step_with_classes(
    alloc: Global,
    vars: &VarTable,
    list: &Atoms,
    classes: &Classes,
) -> Result<Step, AllocError>
    requires { IsNode vars.now (atoms_view list.now) (classes_view classes.now) }
    ensures { IfOk result (IsStep vars.now (atoms_view list.now)) }
{
    match numbers_of(alloc, vars, classes)? {
        NumbersFound::Closed(proof) => Ok(Step::Closed(in_order(alloc, vars, list, proof)?)),
        NumbersFound::Numbers(numbers) => {
            let node = Node {
                vars,
                list,
                classes,
                numbers: &numbers,
            };
            step_with_numbers(alloc, &node)
        }
    }
}

/// What can be done with a list of atoms of the fragment.
pub fn next_step(alloc: Global, vars: &VarTable, list: &Atoms) -> Result<Step, AllocError>
    requires plain { ArePlain vars.now (atoms_view list.now) }
    ensures { IfOk result (IsStep vars.now (atoms_view list.now)) }
{
    match classify(alloc, list)? {
        Classified::Whole(classes) => step_with_classes(alloc, vars, list, &classes),
        Classified::Clash(proof) => Ok(Step::Closed(proof)),
    }
}
