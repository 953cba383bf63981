//! The cases of expressions.
ghost use Rattle.std.specs.Prelude.{◌≡◌, [], IfOk, IsTrue};
ghost use Rattle.std.specs.List.{list_all};
ghost use Rattle.std.specs.Option.{option_map};
ghost use Rattle.gil_syntax.specs.Pure.{from_list as exprs_from};
ghost use Rattle.gil_syntax.specs.Subexpressions.{literals_of};
ghost use Rattle.gil_syntax.specs.View.{expr_view, exprs_view};
ghost use Rattle.gil_syntax.specs.WellMade.{is_spellable};
ghost use Rattle.gil_values.specs.Operators.{unset_variable};
ghost use Rattle.gil_values.specs.View.{value_view};
ghost use Rattle.pure_terms.specs.Folding.{folded_unary, folded_binary};
ghost use Rattle.pure_terms.specs.Pure.{list_of, from_list};
ghost use Rattle.pure_terms.specs.View.{term_view, terms_view, atoms_view};
ghost use Rattle.sym_evaluation.specs.Checks.{unary_required, binary_required};
ghost use Rattle.sym_evaluation.specs.CheckView.{stage_view};
ghost use Rattle.sym_evaluation.specs.Evaluating.{spelled, literal_term, given_or, result_given, sure_fault, finished, followed, at_stage, cases_after, all_cases_after};
ghost use Rattle.sym_evaluation.specs.Meaning.{AreCasesOf, AreCasesOfAll};
ghost use Rattle.pure_terms.specs.Meaning.{IsOver};
ghost use Rattle.sym_evaluation.specs.Plainly.{AnswersPlainly, AllAnswerPlainly, GuardsPlainly};
ghost use Rattle.sym_evaluation.specs.Pure.{term_at};
ghost use Rattle.sym_evaluation.specs.Questions.{ComesFrom, AllComeFrom, NameNoOthers, AreEachOver};
ghost use Rattle.sym_evaluation.specs.View.{store_view, fault_view, faults_view, cases_view, all_cases_view};

use crate::cases::{Cases, FaultCase, FaultCases, GoodCase};
use crate::faults::Fault;
use crate::operators::{require_operand, require_operands};
use crate::requiring::Stage;
use crate::store::SymStore;
use gil_syntax::{Expr, Exprs};
use gil_values::{BinOp, Text, UnOp, Value};
use pure_terms::{Atoms, Literal, Term, Terms, fold_binary, fold_unary, folding_replaces};
use sequence::Sequence;
use std::alloc::{AllocError, Global};

/// The cases of an expression over a store of terms: the faults that its evaluation may come to, each with its conditions, and the
/// term of its value with the conditions under which there is one. Operands are evaluated from left to right.
pub fn evaluate(
    alloc: Global,
    store: &SymStore,
    expression: &Expr,
) -> Result<Cases<Term>, AllocError>
    requires { IsTrue (list_all is_spellable (literals_of (expr_view expression.now))) }
    ensures cases { IfOk result (λ c. AreCasesOf (store_view store.now) (expr_view expression.now) (cases_view c)) }
    ensures origin { IfOk result (λ c. ComesFrom (store_view store.now) (expr_view expression.now) (cases_view c)) }
    ensures names { IfOk result (λ c. NameNoOthers IsOver (store_view store.now) (cases_view c)) }
    ensures plain { IfOk result (λ c. AnswersPlainly (store_view store.now) (expr_view expression.now) (cases_view c)) }
    ensures guard { IfOk result (λ c. GuardsPlainly (store_view store.now) (expr_view expression.now) (cases_view c)) }
{
    folding_replaces();
    evaluate_after(
        alloc,
        store,
        Sequence::new(alloc),
        Sequence::new(alloc),
        expression,
    )
}

/// The cases of a list of expressions, whose result is the list of their terms.
pub fn evaluate_all(
    alloc: Global,
    store: &SymStore,
    expressions: &Exprs,
) -> Result<Cases<Terms>, AllocError>
    requires { IsTrue (list_all (λ e. list_all is_spellable (literals_of e)) (exprs_view expressions.now)) }
    ensures cases { IfOk result (λ c. AreCasesOfAll (store_view store.now) (exprs_view expressions.now) (all_cases_view c)) }
    ensures origin { IfOk result (λ c. AllComeFrom (store_view store.now) (exprs_view expressions.now) (all_cases_view c)) }
    ensures names { IfOk result (λ c. NameNoOthers AreEachOver (store_view store.now) (all_cases_view c)) }
    ensures plain { IfOk result (λ c. AllAnswerPlainly (store_view store.now) (exprs_view expressions.now) (all_cases_view c)) }
{
    folding_replaces();
    evaluate_all_after(
        alloc,
        store,
        Sequence::new(alloc),
        Sequence::new(alloc),
        expressions,
    )
}

/// The cases of an expression after the faults so far, where there is none of them under these conditions.
#[cycle(evaluation)]
fn evaluate_after(
    alloc: Global,
    store: &SymStore,
    faults: FaultCases,
    conds: Atoms,
    expression: &Expr,
) -> Result<Cases<Term>, AllocError>
    requires { IsTrue (list_all is_spellable (literals_of (expr_view expression.now))) }
    ensures { IfOk result
        (λ c. cases_view c ≡ cases_after (store_view store.now) (faults_view faults) (atoms_view conds) (expr_view expression.now)) }
{
    match expression {
        Expr::Lit(value) => {
            let term = literal_term(alloc, value)?;
            give(faults, conds, term)
        }
        Expr::Name(name) => look_up(alloc, store, faults, conds, name),
        Expr::Logical(name) => look_up(alloc, store, faults, conds, name),
        Expr::List(elements) => {
            let elements = evaluate_all_after(alloc, store, faults, conds, elements)?;
            Ok(as_list(elements))
        }
        Expr::Op1(op, operand) => {
            let operand = evaluate_after(alloc, store, faults, conds, operand)?;
            one_operand(alloc, *op, operand)
        }
        Expr::Op2(op, left, right) => {
            let Cases { faults, good } = evaluate_after(alloc, store, faults, conds, left)?;
            let Some(left) = good else {
                return Ok(Cases { faults, good: None });
            };
            let right = evaluate_after(alloc, store, faults, left.conds, right)?;
            two_operands(alloc, *op, left.result, right)
        }
    }
}

/// The cases of expressions in order, after the faults so far.
#[cycle(evaluation)]
fn evaluate_all_after(
    alloc: Global,
    store: &SymStore,
    faults: FaultCases,
    conds: Atoms,
    expressions: &Exprs,
) -> Result<Cases<Terms>, AllocError>
    requires { IsTrue (list_all (λ e. list_all is_spellable (literals_of e)) (exprs_view expressions.now)) }
    ensures { IfOk result (λ c. all_cases_view c ≡ all_cases_after (store_view store.now) (faults_view faults) (atoms_view conds)
        (exprs_from (exprs_view expressions.now))) }
{
    let mut terms = Terms::new(alloc);
    let mut faults = faults;
    let mut conds = conds;
    for expression in expressions.as_slice() {
        let Cases {
            faults: so_far,
            good,
        } = evaluate_after(alloc, store, faults, conds, expression)?;
        faults = so_far;
        match good {
            Some(
                GoodCase {
                    conds: more,
                    result,
                },
            ) => {
                conds = more;
                terms.push(result)?;
            }
            None => return Ok(Cases { faults, good: None }),
        }
    }
    Ok(Cases {
        faults,
        good: Some(GoodCase {
            conds,
            result: terms,
        }),
    })
}

/// The literal that is a value, where a text may spell it.
fn literal_term(alloc: Global, value: &Value) -> Result<Option<Term>, AllocError>
    ensures { IfOk result (λ o. option_map term_view o ≡ literal_term (spelled (value_view value.now))) }
{
    match value {
        Value::Int(n) => Ok(Some(Term::Lit(Literal::Int(*n)))),
        Value::Bool(b) => Ok(Some(Term::Lit(Literal::Bool(*b)))),
        Value::Str(text) => Ok(Some(Term::Lit(Literal::Str(text.copy(alloc)?)))),
        Value::Kind(kind) => Ok(Some(Term::Lit(Literal::Kind(*kind)))),
        Value::Proc(name) => Ok(Some(Term::Lit(Literal::Proc(name.copy(alloc)?)))),
        Value::Sym(_) | Value::List(_) => Ok(None),
    }
}

/// The term, or that a variable has no value.
fn give(faults: FaultCases, conds: Atoms, term: Option<Term>) -> Result<Cases<Term>, AllocError>
    ensures { IfOk result (λ c. cases_view c ≡ given_or unset_variable (faults_view faults) (atoms_view conds) (option_map term_view term)) }
{
    let mut faults = faults;
    match term {
        Some(result) => Ok(Cases {
            faults,
            good: Some(GoodCase { conds, result }),
        }),
        None => {
            faults.push(FaultCase {
                conds,
                fault: Fault::Unset,
            })?;
            Ok(Cases { faults, good: None })
        }
    }
}

fn look_up(
    alloc: Global,
    store: &SymStore,
    faults: FaultCases,
    conds: Atoms,
    name: &Text,
) -> Result<Cases<Term>, AllocError>
    ensures { IfOk result (λ c. cases_view c ≡ given_or unset_variable (faults_view faults) (atoms_view conds)
        (term_at (store_view store.now) name.now)) }
{
    match store.get(name) {
        Some(term) => give(faults, conds, Some(term.copy(alloc)?)),
        None => give(faults, conds, None),
    }
}

/// The list term of the elements.
fn as_list(elements: Cases<Terms>) -> Cases<Term>
    ensures { cases_view result ≡ followed (all_cases_view elements) (λ gs ds ts. result_given gs ds (list_of (from_list ts))) }
{
    let Cases { faults, good } = elements;
    match good {
        Some(GoodCase { conds, result }) => Cases {
            faults,
            good: Some(GoodCase {
                conds,
                result: Term::List(result),
            }),
        },
        None => Cases { faults, good: None },
    }
}

/// The term at a stage, unless a fault is sure.
fn finish(stage: Stage, term: Term) -> Cases<Term>
    ensures { cases_view result ≡ finished (stage_view stage) (term_view term) }
{
    let Stage { faults, conds } = stage;
    match conds {
        Some(conds) => Cases {
            faults,
            good: Some(GoodCase {
                conds,
                result: term,
            }),
        },
        None => Cases { faults, good: None },
    }
}

fn one_operand(alloc: Global, op: UnOp, operand: Cases<Term>) -> Result<Cases<Term>, AllocError>
    ensures { IfOk result (λ c. cases_view c ≡ followed (cases_view operand)
        (λ gs ds t. finished (unary_required op t (at_stage gs ds)) (folded_unary op t))) }
{
    let Cases { faults, good } = operand;
    let Some(GoodCase { conds, result }) = good else {
        return Ok(Cases { faults, good: None });
    };
    let stage = Stage {
        faults,
        conds: Some(conds),
    };
    let stage = require_operand(alloc, op, &result, stage)?;
    Ok(finish(stage, fold_unary(alloc, op, result)?))
}

fn two_operands(
    alloc: Global,
    op: BinOp,
    left: Term,
    right: Cases<Term>,
) -> Result<Cases<Term>, AllocError>
    ensures { IfOk result (λ c. cases_view c ≡ followed (cases_view right)
        (λ gs ds t. finished (binary_required op (term_view left) t (at_stage gs ds)) (folded_binary op (term_view left) t))) }
{
    let Cases { faults, good } = right;
    let Some(GoodCase { conds, result }) = good else {
        return Ok(Cases { faults, good: None });
    };
    let stage = Stage {
        faults,
        conds: Some(conds),
    };
    let stage = require_operands(alloc, op, &left, &result, stage)?;
    Ok(finish(stage, fold_binary(alloc, op, left, result)?))
}
