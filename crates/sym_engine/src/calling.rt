//! The candidates of calls.
ghost use Rattle.std.specs.Prelude.{◌≡◌, ◌+◌, ◌<◌, ◌^◌, ◌++◌, ◌∷◌, [], length, map, codes, IfOk, IsTrue, OnOk};
ghost use Rattle.std.specs.List.{list_all};
ghost use Rattle.gil_values.specs.Characters.{IsText};
ghost use Rattle.gil_values.specs.declared.kinds.Kind.{Kind};
ghost use Rattle.gil_machine.specs.Step.{handler_label};
ghost use Rattle.gil_syntax.specs.Program.{prog_view};
ghost use Rattle.gil_syntax.specs.Programs.{find_proc};
ghost use Rattle.gil_syntax.specs.Pure.{call as pure_call};
ghost use Rattle.gil_syntax.specs.Subexpressions.{literals_of};
ghost use Rattle.gil_syntax.specs.View.{expr_view, exprs_view, proc_view};
ghost use Rattle.gil_syntax.specs.WellMade.{is_spellable};
ghost use Rattle.pure_terms.specs.Kinds.{allows, known_kind};
ghost use Rattle.pure_terms.specs.Pure.{opening};
ghost use Rattle.pure_terms.specs.View.{term_view, terms_view, atoms_view};
ghost use Rattle.sym_engine.specs.Lawful.{AreLawfulIn, MayAdvance};
ghost use Rattle.sym_engine.specs.Narrow.{StayNarrowIn};
ghost use Rattle.sym_engine.specs.Plain.{StayPlainIn};
ghost use Rattle.sym_engine.specs.View.{called_view, candidate_view, candidates_view};
ghost use Rattle.sym_evaluation.specs.Plainly.{AllAnswerPlainly};
ghost use Rattle.sym_evaluation.specs.Pure.{PureStore};
ghost use Rattle.sym_evaluation.specs.View.{store_view, faults_view, cases_by, cases_view, all_cases_view, good_view};
ghost use Rattle.sym_paths.specs.Moves.{running_store};
ghost use Rattle.sym_paths.specs.View.{frame_view, frames_view, path_view};
ghost use Rattle.sym_paths.specs.Calls.{fault_under, call_cases, CallsTerm, EntersFound, IsFirstStore, called_frame, entering};
ghost use Rattle.sym_paths.specs.Cases.{AreEvaluated, failing_with};

use crate::candidates::{Candidate, Candidates, assume, fail_with, proceed, require};
use crate::frames::{run_in, store_in, wait};
use crate::valued::{evaluate_in, fail_each};
use gil_syntax::{Expr, Exprs, Proc, Prog};
use gil_values::{Kind, Place, Text};
use pure_terms::{Atom, Atoms, Literal, Term, Terms};
use sequence::Sequence;
use std::alloc::{AllocError, Global};
use sym_evaluation::{Cases, FaultCase, FaultCases, GoodCase, SymStore, evaluate_all};
use sym_model::SymMemory;
use sym_paths::{Frame, Frames, Path};

/// The terms of a callee and of the arguments.
#[derive(Debug, Drop)]
pub(crate) struct Called {
    pub(crate) callee: Term,
    pub(crate) args: Terms,
}

/// The cases of expressions in the frame that runs.
pub(crate) fn evaluate_all_in(
    alloc: Global,
    frames: &Frames,
    expressions: &Exprs,
) -> Result<Cases<Terms>, AllocError>
    requires { IsTrue (list_all (λ e. list_all is_spellable (literals_of e)) (exprs_view expressions.now)) }
    ensures evaluated { IfOk result
        (λ c. AreEvaluated (running_store (frames_view frames.now)) (exprs_view expressions.now) (all_cases_view c)) }
    ensures plain { IfOk result
        (λ c. AllAnswerPlainly (running_store (frames_view frames.now)) (exprs_view expressions.now) (all_cases_view c)) }
{
    let empty = SymStore::new(alloc);
    evaluate_all(alloc, store_in(frames, &empty), expressions)
}

/// Adds the faults of the arguments, which come where the callee has none.
fn add_under(
    alloc: Global,
    faults: &mut FaultCases,
    conds: &Atoms,
    more: &FaultCases,
) -> Result<(), AllocError>
    ensures { OnOk result
        (faults_view faults.new ≡ faults_view faults.old ++ map (fault_under (atoms_view conds.now)) (faults_view more.now)) }
{
    for fault in more.as_slice() {
        let mut under = Sequence::new(alloc);
        assume(alloc, &mut under, conds)?;
        assume(alloc, &mut under, &fault.conds)?;
        faults.push(FaultCase {
            conds: under,
            fault: fault.fault,
        })?;
    }
    Ok(())
}

/// The cases of a callee and of the arguments after it.
fn both_cases(
    alloc: Global,
    callee: Cases<Term>,
    arguments: Cases<Terms>,
) -> Result<Cases<Called>, AllocError>
    ensures { IfOk result (λ c. cases_by called_view c ≡ call_cases (cases_view callee) (all_cases_view arguments)) }
{
    let Cases { faults, good } = callee;
    let Some(GoodCase { conds, result }) = good else {
        return Ok(Cases { faults, good: None });
    };
    let Cases {
        faults: more,
        good: arguments,
    } = arguments;
    let mut faults = faults;
    add_under(alloc, &mut faults, &conds, &more)?;
    match arguments {
        Some(arguments) => {
            let mut conds = conds;
            assume(alloc, &mut conds, &arguments.conds)?;
            let called = Called {
                callee: result,
                args: arguments.result,
            };
            Ok(Cases {
                faults,
                good: Some(GoodCase {
                    conds,
                    result: called,
                }),
            })
        }
        None => Ok(Cases { faults, good: None }),
    }
}

/// The store of a call that begins.
fn first_store(alloc: Global, params: &[Text], args: &[Term]) -> Result<SymStore, AllocError>
    requires { length args.now ≡ length params.now }
    ensures { IfOk result (λ s. IsFirstStore params.now (map term_view args.now) (store_view s)) }
{
    let mut store = SymStore::new(alloc);
    for place in (0..args.len()).rev() {
        let term = args[place].copy(alloc)?;
        store.set(params[place].copy(alloc)?, term)?;
    }
    Ok(store)
}

/// The frame of a call that begins.
fn first_frame(alloc: Global, proc: &Proc, args: &[Term]) -> Result<Frame, AllocError>
    requires { length args.now ≡ length (proc_view proc.now).params }
    ensures { IfOk result (λ f. (bs : PureStore) × (IsFirstStore (proc_view proc.now).params (map term_view args.now) bs
        × (frame_view f ≡ called_frame (proc_view proc.now) bs))) }
{
    Ok(Frame {
        proc: proc.name.copy(alloc)?,
        next: 0,
        store: first_store(alloc, proc.params.as_slice(), args)?,
        waits: None,
        handler: None,
    })
}

/// The path goes on in the procedure.
fn enter<M: Drop>(
    alloc: Global,
    path: Path<M>,
    here: &Place,
    name: &Text,
    handler: Option<usize>,
    proc: &Proc,
    good: GoodCase<Called>,
) -> Result<Candidate<M>, AllocError>
    requires arity { length (terms_view good.result.args) ≡ length (proc_view proc.now).params }
    requires steps { path.steps + 1 < 2 ^ 32 }
    requires next { MayAdvance (frames_view path.stack) }
    ensures { IfOk result (λ c. (bs : PureStore) × (IsFirstStore (proc_view proc.now).params (terms_view good.result.args) bs
        × (candidate_view c ≡ entering (path_view path) name.now handler here.now (proc_view proc.now) bs (good_view called_view good)))) }
{
    let GoodCase { conds, result } = good;
    let mut path = path;
    wait(alloc, &mut path.stack, name, handler)?;
    run_in(
        &mut path.stack,
        first_frame(alloc, proc, result.args.as_slice())?,
    )?;
    proceed(alloc, path, conds)
}

/// The call fails with a text.
fn fail_to_call<M: Drop>(
    alloc: Global,
    path: Path<M>,
    here: &Place,
    why: &str,
    good: &GoodCase<Called>,
) -> Result<Candidate<M>, AllocError>
    requires text { IsText why.now }
    requires steps { path.steps + 1 < 2 ^ 32 }
    ensures { IfOk result (λ c. candidate_view c ≡ failing_with (path_view path) here.now why.now
        (good_view called_view good.now) []) }
{
    match Text::from_str(alloc, why)? {
        Some(text) => fail_with(
            alloc,
            path,
            here,
            &good.conds,
            Term::Lit(Literal::Str(text)),
        ),
        None => unreachable!(),
    }
}

/// The literal form of the callee is needed.
fn need_callee<M: Drop>(
    alloc: Global,
    path: Path<M>,
    good: GoodCase<Called>,
) -> Result<Candidate<M>, AllocError>
    requires { path.steps + 1 < 2 ^ 32 }
    ensures { IfOk result (λ c. candidate_view c ≡ record {
      path = record (path_view path) {
        conds = (path_view path).conds ++ (atoms_view good.conds ++ opening (term_view good.result.callee) ∷ []);
        steps = path.steps + 1;
      };
      no_fault = atoms_view good.conds;
    }) }
{
    let GoodCase { conds, result } = good;
    let mut needed = Sequence::new(alloc);
    assume(alloc, &mut needed, &conds)?;
    needed.push(Atom::Open(result.callee))?;
    let mut path = path;
    require(alloc, &mut path.conds, &needed)?;
    path.steps += 1;
    Ok(Candidate {
        path,
        no_fault: conds,
    })
}

/// A call of the procedure of a name.
fn call_named<M: Drop>(
    alloc: Global,
    prog: &Prog,
    path: Path<M>,
    here: &Place,
    name: &Text,
    handler: Option<usize>,
    proc: &Text,
    good: GoodCase<Called>,
) -> Result<Candidate<M>, AllocError>
    requires steps { path.steps + 1 < 2 ^ 32 }
    requires next { MayAdvance (frames_view path.stack) }
    ensures { IfOk result (λ c. EntersFound (path_view path) name.now handler here.now (find_proc (prog_view prog.now).procs proc.now)
        (good_view called_view good) (candidate_view c)) }
{
    match prog.proc(proc) {
        Some(proc) => {
            if good.result.args.len() == proc.params.len() {
                return enter(alloc, path, here, name, handler, proc, good);
            }
            fail_to_call(alloc, path, here, "arity", &good)
        }
        None => fail_to_call(alloc, path, here, "proc", &good),
    }
}

/// Whether the term's value may be a procedure, by the term's form and its variables' sorts.
fn may_be_proc(term: &Term) -> bool
    ensures { result ≡ allows (known_kind (term_view term.now)) Kind.Proc }
{
    match term.known_kind() {
        Some(kind) => kind == Kind::Proc,
        None => true,
    }
}

/// A call of the value of a term.
fn call_term<M: Drop>(
    alloc: Global,
    prog: &Prog,
    path: Path<M>,
    here: &Place,
    name: &Text,
    handler: Option<usize>,
    good: GoodCase<Called>,
) -> Result<Candidate<M>, AllocError>
    requires steps { path.steps + 1 < 2 ^ 32 }
    requires next { MayAdvance (frames_view path.stack) }
    ensures { IfOk result (λ c. CallsTerm (path_view path) name.now handler here.now (prog_view prog.now) (term_view good.result.callee)
        (good_view called_view good) (candidate_view c)) }
{
    match &good.result.callee {
        Term::Lit(Literal::Proc(proc)) => {
            let proc = proc.copy(alloc)?;
            call_named(alloc, prog, path, here, name, handler, &proc, good)
        }
        Term::Lit(_) => fail_to_call(alloc, path, here, "proc", &good),
        callee => {
            if may_be_proc(callee) {
                return need_callee(alloc, path, good);
            }
            fail_to_call(alloc, path, here, "proc", &good)
        }
    }
}

/// The label of a handler; one below 0 is no command, and a call that has it has no handler.
fn label_of(handler: Option<i64>) -> Option<usize>
    ensures { result ≡ handler_label handler }
{
    match handler {
        Some(label) => usize::try_from(label).ok(),
        None => None,
    }
}

/// The candidates of `x := e(e1, ..)`, which may have a handler.
pub fn call_candidates<M: SymMemory>(
    alloc: Global,
    prog: &Prog,
    path: Path<M>,
    here: &Place,
    name: &Text,
    callee: &Expr,
    arguments: &Exprs,
    handler: Option<i64>,
) -> Result<Candidates<M>, AllocError>
    requires callee { IsTrue (list_all is_spellable (literals_of (expr_view callee.now))) }
    requires arguments { IsTrue (list_all (λ e. list_all is_spellable (literals_of e)) (exprs_view arguments.now)) }
    requires steps { path.steps + 1 < 2 ^ 32 }
    requires next { MayAdvance (frames_view path.stack) }
    ensures lawful { IfOk result (λ cs. AreLawfulIn M.stands M.terms M.asked M.Local.actions (prog_view prog.now) (path_view path)
        here.now (pure_call name.now (expr_view callee.now) (exprs_view arguments.now) handler) (candidates_view cs)) }
    ensures plain { M.keeps_plain → IfOk result (λ cs. StayPlainIn M.plain (prog_view prog.now) (path_view path)
        (pure_call name.now (expr_view callee.now) (exprs_view arguments.now) handler) (candidates_view cs)) }
    ensures narrow { IfOk result (λ cs. StayNarrowIn M.terms (prog_view prog.now) (path_view path)
        (pure_call name.now (expr_view callee.now) (exprs_view arguments.now) handler) (candidates_view cs)) }
{
    let callee = evaluate_in(alloc, &path.stack, callee)?;
    let arguments = evaluate_all_in(alloc, &path.stack, arguments)?;
    let Cases { faults, good } = both_cases(alloc, callee, arguments)?;
    let mut candidates = fail_each(alloc, &path, here, &faults)?;
    match good {
        Some(good) => {
            let label = label_of(handler);
            candidates.push(call_term(alloc, prog, path, here, name, label, good)?)?;
            Ok(candidates)
        }
        None => Ok(candidates),
    }
}
