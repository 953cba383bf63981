//! Which way a guard goes.
ghost use Rattle.std.specs.Prelude.{◌≡◌, ◌++◌, [], Some, None, IfOk};
ghost use Rattle.std.specs.Option.{option_map};
ghost use Rattle.gil_values.specs.declared.operators.BinOp.{BinOp};
ghost use Rattle.gil_values.specs.declared.operators.UnOp.{UnOp};
ghost use Rattle.pure_terms.specs.View.{term_view, atoms_view};
ghost use Rattle.sym_evaluation.specs.Meaning.{AreSidesOf};
ghost use Rattle.sym_evaluation.specs.Plainly.{AreDecided};
ghost use Rattle.sym_evaluation.specs.Questions.{SidesComeFrom};
ghost use Rattle.sym_evaluation.specs.Sides as sides;
ghost use Rattle.sym_evaluation.specs.View.{sides_view};

use crate::checks::is_of_kind;
use gil_values::{BinOp, Kind, UnOp};
use pure_terms::{Atom, Atoms, Literal, Sort, Term, Var};
use sequence::Sequence;
use std::alloc::{AllocError, Global};
use std::rc::Rc;

/// The sides of a guard, each with the conditions under which it is taken; a side that can't be taken is missing. Contracts see
/// them as their pure data, by `sides_view`.
#[derive(Debug, Drop)]
pub struct Sides {
    pub when_true: Option<Atoms>,
    pub when_false: Option<Atoms>,
    pub when_no_boolean: Option<Atoms>,
}

/// The sides of a guard whose term has a value.
pub fn guard_sides(alloc: Global, term: &Term) -> Result<Sides, AllocError>
    ensures sides { IfOk result (λ s. AreSidesOf (term_view term.now) (sides_view s)) }
    ensures origin { IfOk result (λ s. SidesComeFrom (term_view term.now) (sides_view s)) }
    ensures decided { IfOk result (λ s. AreDecided (term_view term.now) (sides_view s)) }
{
    sides_of(alloc, term)
}

fn sides_of(alloc: Global, term: &Term) -> Result<Sides, AllocError>
    ensures { IfOk result (λ s. sides_view s ≡ sides.sides_of (term_view term.now)) }
{
    match term {
        Term::Lit(literal) => Ok(literal_sides(alloc, literal)),
        _ => match term.known_kind() {
            Some(Kind::Bool) => both_sides(alloc, term, None),
            Some(_) => Ok(no_boolean(alloc)),
            None => {
                let mut otherwise = Sequence::new(alloc);
                otherwise.push(Atom::Not(is_of_kind(alloc, term, Kind::Bool)?))?;
                both_sides(alloc, term, Some(otherwise))
            }
        },
    }
}

fn literal_sides(alloc: Global, literal: &Literal) -> Sides
    ensures { sides_view result ≡ sides.literal_sides literal.now }
{
    match literal {
        Literal::Bool(true) => Sides {
            when_true: Some(Sequence::new(alloc)),
            when_false: None,
            when_no_boolean: None,
        },
        Literal::Bool(false) => Sides {
            when_true: None,
            when_false: Some(Sequence::new(alloc)),
            when_no_boolean: None,
        },
        _ => no_boolean(alloc),
    }
}

fn no_boolean(alloc: Global) -> Sides
    ensures { sides_view result ≡ sides.no_boolean }
{
    Sides {
        when_true: None,
        when_false: None,
        when_no_boolean: Some(Sequence::new(alloc)),
    }
}

fn both_sides(alloc: Global, term: &Term, otherwise: Option<Atoms>) -> Result<Sides, AllocError>
    ensures { IfOk result (λ s. sides_view s ≡ sides.both_sides (term_view term.now) (option_map atoms_view otherwise)) }
{
    let when_true = add_conditions(alloc, Sequence::new(alloc), true, term)?;
    let when_false = add_conditions(alloc, Sequence::new(alloc), false, term)?;
    Ok(Sides {
        when_true: Some(when_true),
        when_false: Some(when_false),
        when_no_boolean: otherwise,
    })
}

/// Adds the conditions under which a term is true, or false. A conjunction that is true is split, and so is a disjunction that is
/// false.
fn add_conditions(alloc: Global, conds: Atoms, side: bool, term: &Term) -> Result<Atoms, AllocError>
    ensures { IfOk result (λ all. atoms_view all ≡ atoms_view conds ++ sides.conditions_of side (term_view term.now)) }
{
    match term {
        Term::Var(variable) => add_variable(alloc, conds, side, *variable),
        Term::Op1(UnOp::Not, operand) => add_conditions(alloc, conds, !side, operand),
        Term::Op2(op, left, right) if splits(side, *op) => {
            let conds = add_conditions(alloc, conds, side, left)?;
            add_conditions(alloc, conds, side, right)
        }
        _ => add_said(conds, side, term.copy(alloc)?),
    }
}

/// Whether the conditions of both operands are those of the term.
fn splits(side: bool, op: BinOp) -> bool
    ensures { result ≡ sides.splits side op }
{
    match op {
        BinOp::And => side,
        BinOp::Or => !side,
        _ => false,
    }
}

/// Adds that the term is true, or false.
fn add_said(conds: Atoms, side: bool, term: Term) -> Result<Atoms, AllocError>
    ensures { IfOk result (λ all. atoms_view all ≡ atoms_view conds ++ sides.said side (term_view term)) }
{
    let mut conds = conds;
    if side {
        conds.push(Atom::Holds(term))?;
    } else {
        conds.push(Atom::Not(term))?;
    }
    Ok(conds)
}

/// Adds that a variable is true, or false. One of sort any is compared, since it is no atom of the fragment by itself.
fn add_variable(alloc: Global, conds: Atoms, side: bool, variable: Var) -> Result<Atoms, AllocError>
    ensures { IfOk result (λ all. atoms_view all ≡ atoms_view conds ++ sides.variable_said side variable variable.sort) }
{
    if variable.sort == Sort::Any {
        let left = Rc::new(alloc, Term::Var(variable))?;
        let right = Rc::new(alloc, Term::Lit(Literal::Bool(side)))?;
        return add_said(conds, true, Term::Op2(BinOp::Equal, left, right));
    }
    add_said(conds, side, Term::Var(variable))
}
