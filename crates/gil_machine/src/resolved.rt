//! Procedures with their variables as slots.
ghost use Rattle.std.specs.Prelude.{◌≡◌, ◌<◌, ◌+◌, ◌^◌, IfSome, map, slice_get};
ghost use Rattle.std.specs.Option.{option_map};
ghost use Rattle.gil_syntax.specs.Programs.{find_proc};
ghost use Rattle.gil_syntax.specs.Program.{prog_view};
ghost use Rattle.gil_syntax.specs.View.{proc_view};
ghost use Rattle.gil_machine.specs.ResolvedWhole.{IsResolvedProc, IsResolvedProg};
ghost use Rattle.gil_machine.specs.ResolvedView.{IsOverSlots, resolved_view, resolved_list_view, resolved_numbered_view};
ghost use Rattle.gil_machine.specs.SlotNames.{Names, names_of};

use gil_syntax::{Assertion, Params, PredUse, Proc, Prog, Texts};
use gil_values::{BinOp, Kind, Text, UnOp, Value};
use sequence::Sequence;
use std::collections::HashMap;

/// An expression over slots.
#[cycle(resolved)]
#[derive(Drop)]
pub(crate) enum Resolved {
    Lit(Value),
    Name(usize),
    Logical(usize),
    List(ResolvedList),
    Op1(UnOp, Box<Resolved>),
    Op2(BinOp, Box<Resolved>, Box<Resolved>),
}

/// A list of expressions over slots.
#[cycle(resolved)]
#[derive(Drop)]
pub(crate) struct ResolvedList {
    pub(crate) items: Vec<Resolved>,
}

impl ResolvedList {
    /// The expressions as a slice.
    pub(crate) fn as_slice(&self) -> &[Resolved]
        ensures { (names : Names) → map (resolved_view names) result.now ≡ resolved_list_view names self.now }
    {
        self.items.as_slice()
    }
}

/// A command over slots. The first slot of a command is the variable that it assigns.
#[derive(Drop)]
pub(crate) enum ResolvedCommand<'p> {
    Assign(usize, Resolved),
    /// The label is that of the handler.
    Call(usize, Resolved, ResolvedList, Option<i64>),
    Act(usize, &'p Text, ResolvedList),
    Usym(usize),
    Isym(usize, Kind),
    IfGoto(Resolved, i64),
    Return(Resolved),
    Fail(Resolved),
    Throw(Resolved),
    Vanish,
    Fold(&'p PredUse),
    Unfold(&'p PredUse),
    AssertThat(&'p Assertion),
    LoopInvariant(&'p Texts, &'p Params, &'p Assertion),
}

/// A command over slots and the number of its place.
#[derive(Drop)]
pub(crate) struct ResolvedNumbered<'p> {
    pub(crate) command: ResolvedCommand<'p>,
    pub(crate) at: u32,
}

/// A procedure over slots: the names of its slots, the slots of its parameters, and its commands.
#[derive(Drop)]
pub(crate) struct ResolvedProc<'p> {
    pub(crate) proc: &'p Proc,
    pub(crate) names: Vec<&'p Text>,
    pub(crate) params: Vec<usize>,
    pub(crate) body: Vec<ResolvedNumbered<'p>>,
}

impl<'p> ResolvedProc<'p> {
    /// The command at a place, counted from 0.
    pub(crate) fn command(&self, place: usize) -> Option<&ResolvedNumbered<'p>>
        requires { IsResolvedProc self.now }
        ensures command { option_map (λ c. resolved_numbered_view (names_of self.now.names.items) c.now) result ≡ slice_get
            (proc_view self.now.proc.now).body place }
        ensures placed { IfSome result (λ c. IsOverSlots (names_of self.now.names.items) c.now) }
        ensures below { IfSome result (λ _. place + 1 < 2 ^ 64) }
    {
        let _len = self.body.len();
        self.body.get(place)
    }
}

/// A program whose procedures stand over slots.
#[derive(Drop)]
pub(crate) struct ResolvedProg<'p> {
    pub(crate) prog: &'p Prog,
    pub(crate) procs: Sequence<ResolvedProc<'p>>,
    pub(crate) places: HashMap<&'p str, usize>,
}

impl<'p> ResolvedProg<'p> {
    /// The procedure of a name.
    pub(crate) fn proc(&self, name: &Text) -> Option<&ResolvedProc<'p>>
        requires { IsResolvedProg self.now }
        ensures resolved { IfSome result (λ q. IsResolvedProc q.now) }
        ensures found { option_map (λ q. proc_view q.now.proc.now) result ≡ find_proc (prog_view self.now.prog.now).procs name.now }
    {
        let place = self.places.get(name.as_str())?;
        self.procs.get(*place)
    }
}
