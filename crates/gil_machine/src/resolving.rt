//! Variables resolved to slots, once before a run.
ghost use Rattle.std.specs.Prelude.{◌≡◌, ◌<◌, IfOk, OnOk, map, length};
ghost use Rattle.std.specs.List.{All};
ghost use Rattle.gil_syntax.specs.Names.{place_of, first_place};
ghost use Rattle.gil_syntax.specs.View.{command_view, expr_view, exprs_view, numbered_command_view};
ghost use Rattle.gil_machine.specs.ResolvedView.{AssignsSlot, IsOverSlots, resolved_command_view, resolved_list_view, resolved_numbered_view, resolved_view};
ghost use Rattle.gil_machine.specs.ResolvedWhole.{IsResolvedProc, IsResolvedProg};
ghost use Rattle.gil_machine.specs.SlotNames.{Grows, IsNames, Names, name_at, names_of};

use crate::resolved::{
    Resolved, ResolvedCommand, ResolvedList, ResolvedNumbered, ResolvedProc, ResolvedProg,
};
use crate::slots::SlotNames;
use gil_syntax::{Command, Expr, Exprs, NumberedCommand, Proc, Prog};
use gil_values::Text;
use sequence::Sequence;
use std::alloc::{AllocError, Global};
use std::collections::HashMap;

/// A program with its variables as slots.
pub(crate) fn resolve_prog<'p>(
    alloc: Global,
    prog: &'p Prog,
) -> Result<ResolvedProg<'p>, AllocError>
    ensures prog { IfOk result (λ r. r.prog.now ≡ prog.now) }
    ensures resolved { IfOk result IsResolvedProg }
{
    let mut procs = Sequence::new(alloc);
    for place in 0..prog.proc_count() {
        let Some(proc) = prog.proc_at(place) else {
            unreachable!();
        };
        procs.push(resolve_proc(alloc, proc)?)?;
    }
    let places = places_of(alloc, procs.as_slice())?;
    Ok(ResolvedProg {
        prog,
        procs,
        places,
    })
}

/// The first place of each name.
fn places_of<'p>(
    alloc: Global,
    procs: &[ResolvedProc<'p>],
) -> Result<HashMap<&'p str, usize>, AllocError>
    ensures { IfOk result (λ m. place_of m ≡ first_place (map (λ q. q.proc.now.name) procs.now)) }
{
    let mut places = HashMap::new(alloc);
    for (place, resolved) in procs.iter().enumerate() {
        let name = resolved.proc.name.as_str();
        if !places.contains_key(name) {
            places.insert(name, place)?;
        }
    }
    Ok(places)
}

/// A procedure with its variables as slots.
fn resolve_proc<'p>(alloc: Global, proc: &'p Proc) -> Result<ResolvedProc<'p>, AllocError>
    ensures proc { IfOk result (λ r. r.proc.now ≡ proc.now) }
    ensures resolved { IfOk result IsResolvedProc }
{
    let mut names = SlotNames::new(alloc);
    let params = resolve_params(alloc, &mut names, proc.params.as_slice())?;
    let body = resolve_body(alloc, &mut names, proc.body.as_slice())?;
    let SlotNames { names, slots: _ } = names;
    Ok(ResolvedProc {
        proc,
        names,
        params,
        body,
    })
}

fn resolve_params<'p>(
    alloc: Global,
    names: &mut SlotNames<'p>,
    params: &'p [Text],
) -> Result<Vec<usize>, AllocError>
    requires { IsNames names.old }
    ensures names { OnOk result (IsNames names.new) }
    ensures resolved { IfOk result (λ slots. (ns : Names) → Grows (names_of names.new.names.items) ns
        → map (name_at ns) slots.items ≡ params.now) }
    ensures placed { IfOk result (λ slots. All (λ slot. slot < length (names_of names.new.names.items)) slots.items) }
{
    let mut slots = Vec::new(alloc);
    for param in params {
        slots.push(names.slot(param)?)?;
    }
    Ok(slots)
}

fn resolve_body<'p>(
    alloc: Global,
    names: &mut SlotNames<'p>,
    body: &'p [NumberedCommand],
) -> Result<Vec<ResolvedNumbered<'p>>, AllocError>
    requires { IsNames names.old }
    ensures names { OnOk result (IsNames names.new) }
    ensures grows { OnOk result (Grows (names_of names.old.names.items) (names_of names.new.names.items)) }
    ensures resolved { IfOk result (λ cs. (ns : Names) → Grows (names_of names.new.names.items) ns
        → map (resolved_numbered_view ns) cs.items ≡ map numbered_command_view body.now) }
    ensures placed { IfOk result (λ cs. All (IsOverSlots (names_of names.new.names.items)) cs.items) }
{
    let mut commands = Vec::new(alloc);
    for numbered in body {
        let command = resolve_command(alloc, names, &numbered.command)?;
        let at = numbered.at;
        commands.push(ResolvedNumbered { command, at })?;
    }
    Ok(commands)
}

fn resolve_command<'p>(
    alloc: Global,
    names: &mut SlotNames<'p>,
    command: &'p Command,
) -> Result<ResolvedCommand<'p>, AllocError>
    requires { IsNames names.old }
    ensures names { OnOk result (IsNames names.new) }
    ensures grows { OnOk result (Grows (names_of names.old.names.items) (names_of names.new.names.items)) }
    ensures resolved { IfOk result (λ c. (ns : Names) → Grows (names_of names.new.names.items) ns
        → resolved_command_view ns c ≡ command_view command.now) }
    ensures placed { IfOk result (AssignsSlot (names_of names.new.names.items)) }
{
    match command {
        Command::Assign(name, expression) => {
            let slot = names.slot(name)?;
            Ok(ResolvedCommand::Assign(slot, resolve(alloc, names, expression)?))
        }
        Command::Call(name, callee, args, handler) => {
            let slot = names.slot(name)?;
            let callee = resolve(alloc, names, callee)?;
            let args = resolve_all(alloc, names, args)?;
            Ok(ResolvedCommand::Call(slot, callee, args, *handler))
        }
        Command::Act(name, action, args) => {
            let slot = names.slot(name)?;
            Ok(ResolvedCommand::Act(slot, action, resolve_all(alloc, names, args)?))
        }
        Command::Usym(name) => Ok(ResolvedCommand::Usym(names.slot(name)?)),
        Command::Isym(name, kind) => Ok(ResolvedCommand::Isym(names.slot(name)?, *kind)),
        Command::IfGoto(guard, label) => {
            Ok(ResolvedCommand::IfGoto(resolve(alloc, names, guard)?, *label))
        }
        Command::Return(expression) => {
            Ok(ResolvedCommand::Return(resolve(alloc, names, expression)?))
        }
        Command::Fail(expression) => Ok(ResolvedCommand::Fail(resolve(alloc, names, expression)?)),
        Command::Throw(expression) => {
            Ok(ResolvedCommand::Throw(resolve(alloc, names, expression)?))
        }
        Command::Vanish => Ok(ResolvedCommand::Vanish),
        Command::Fold(pred_use) => Ok(ResolvedCommand::Fold(pred_use)),
        Command::Unfold(pred_use) => Ok(ResolvedCommand::Unfold(pred_use)),
        Command::AssertThat(assertion) => Ok(ResolvedCommand::AssertThat(assertion)),
        Command::LoopInvariant(changed, logicals, assertion) => {
            Ok(ResolvedCommand::LoopInvariant(changed, logicals, assertion))
        }
    }
}

#[cycle(resolving)]
fn resolve<'p>(
    alloc: Global,
    names: &mut SlotNames<'p>,
    expression: &'p Expr,
) -> Result<Resolved, AllocError>
    requires { IsNames names.old }
    ensures names { OnOk result (IsNames names.new) }
    ensures grows { OnOk result (Grows (names_of names.old.names.items) (names_of names.new.names.items)) }
    ensures resolved { IfOk result (λ r. (ns : Names) → Grows (names_of names.new.names.items) ns
        → resolved_view ns r ≡ expr_view expression.now) }
{
    match expression {
        Expr::Lit(value) => Ok(Resolved::Lit(value.copy(alloc)?)),
        Expr::Name(name) => Ok(Resolved::Name(names.slot(name)?)),
        Expr::Logical(name) => Ok(Resolved::Logical(names.slot(name)?)),
        Expr::List(elements) => Ok(Resolved::List(resolve_all(alloc, names, elements)?)),
        Expr::Op1(op, operand) => {
            let operand = resolve(alloc, names, operand)?;
            Ok(Resolved::Op1(*op, Box::new(alloc, operand)?))
        }
        Expr::Op2(op, left, right) => {
            let left = resolve(alloc, names, left)?;
            let right = resolve(alloc, names, right)?;
            Ok(Resolved::Op2(*op, Box::new(alloc, left)?, Box::new(alloc, right)?))
        }
    }
}

#[cycle(resolving)]
fn resolve_all<'p>(
    alloc: Global,
    names: &mut SlotNames<'p>,
    expressions: &'p Exprs,
) -> Result<ResolvedList, AllocError>
    requires { IsNames names.old }
    ensures names { OnOk result (IsNames names.new) }
    ensures grows { OnOk result (Grows (names_of names.old.names.items) (names_of names.new.names.items)) }
    ensures resolved { IfOk result (λ rs. (ns : Names) → Grows (names_of names.new.names.items) ns
        → resolved_list_view ns rs ≡ exprs_view expressions.now) }
{
    let mut items = Vec::new(alloc);
    for expression in expressions.as_slice() {
        items.push(resolve(alloc, names, expression)?)?;
    }
    Ok(ResolvedList { items })
}
