//! Paths: what symbolic execution has come to.
ghost use Rattle.std.specs.Prelude.{◌≡◌, ℕ, [], length, Some, IfOk};
ghost use Rattle.std.specs.FinMap.{empty};
ghost use Rattle.std.specs.Option.{option_map};
ghost use Rattle.gil_machine.specs.Run.{start as start_state};
ghost use Rattle.gil_syntax.specs.Pure.{PureParts};
ghost use Rattle.gil_syntax.specs.View.{proc_view};
ghost use Rattle.pure_terms.specs.View.{atoms_view, terms_view};
ghost use Rattle.sym_model.specs.Laws.{IsCopy};
ghost use Rattle.sym_model.specs.View.{path_view as conditions_view};
ghost use Rattle.sym_paths.specs.Beginning.{Begins};
ghost use Rattle.sym_paths.specs.Meaning.{Stands, IsOverTable, IsFirstPath};
ghost use Rattle.sym_paths.specs.Pure.{PurePath};
ghost use Rattle.sym_paths.specs.Steps.{IsPlainPath};
ghost use Rattle.sym_paths.specs.View.{end_view, path_view};

use crate::copying::{copy_choices, copy_path_condition, copy_table};
use crate::ends::{PathEnd, copy_end};
use crate::frames::{Frames, beginning_frames, copy_frames, first_frames};
use gil_syntax::Proc;
use gil_values::Text;
use pure_terms::{Atoms, Choices, Terms, VarTable};
use sequence::Sequence;
use std::alloc::{AllocError, Global};
use sym_model::{PathCond, SymMemory, copy_conditions};

/// A path of symbolic execution. Contracts see it as its pure data over the memory's states, by `path_view`.
#[derive(Debug)]
pub struct Path<M> {
    pub vars: VarTable,
    /// The conditions under which the path is taken.
    pub conds: PathCond,
    /// What the memory assumed, and the conditions of the fault with which the path ends.
    pub given: Atoms,
    pub choices: Choices,
    pub stack: Frames,
    pub memory: M,
    /// The variables of the draws.
    pub drawn: Terms,
    pub steps: u32,
    pub end: Option<PathEnd>,
}

// Written out, so that code which may drop a path calls this, and isn't made longer by it.
impl<M: Drop> Drop for Path<M> {
    fn drop(self) {
        let Path {
            vars: _,
            conds: _,
            given: _,
            choices: _,
            stack: _,
            memory: _,
            drawn: _,
            steps: _,
            end: _,
        } = self;
    }
}

/// A list of paths.
pub type Paths<M> = Sequence<Path<M>>;

/// What a path that has ended says of the runs along it. Contracts see it field by field.
#[derive(Debug, Drop)]
pub struct Ended {
    pub vars: VarTable,
    pub conds: Atoms,
    pub given: Atoms,
    pub choices: Choices,
    pub end: Option<PathEnd>,
}

impl<M: Drop> Path<M> {
    /// The path on which a procedure begins with terms for its parameters, over a table, under conditions and with a memory.
    pub fn begin(
        alloc: Global,
        proc: &Proc,
        args: &Terms,
        vars: VarTable,
        conds: PathCond,
        memory: M,
    ) -> Result<Path<M>, AllocError>
        requires { length (terms_view args.now) ≡ length (proc_view proc.now).params }
        ensures { IfOk result (λ path. Begins (proc_view proc.now) (terms_view args.now) vars (conditions_view conds) memory
            (path_view path)) }
    {
        let stack = beginning_frames(alloc, proc, args.as_slice())?;
        Ok(Path {
            vars,
            conds,
            given: Sequence::new(alloc),
            choices: Sequence::new(alloc),
            stack,
            memory,
            drawn: Terms::new(alloc),
            steps: 0,
            end: None,
        })
    }

    /// The path ends so.
    pub fn end_as(&mut self, end: PathEnd)
        ensures { path_view self.new ≡ record (path_view self.old) { ending = Some (end_view end) } }
    {
        self.end = Some(end);
    }

    /// What the path says of the runs along it.
    pub fn into_ended(self) -> Ended
        ensures vars { result.vars ≡ self.vars }
        ensures conds { atoms_view result.conds ≡ (path_view self).conds }
        ensures given { atoms_view result.given ≡ (path_view self).given }
        ensures choices { result.choices ≡ self.choices }
        ensures end { option_map end_view result.end ≡ (path_view self).ending }
    {
        let Path {
            vars,
            conds,
            given,
            choices,
            stack: _,
            memory: _,
            drawn: _,
            steps: _,
            end,
        } = self;
        Ended {
            vars,
            conds: conds.into_atoms(),
            given,
            choices,
            end,
        }
    }
}

impl<M: SymMemory> Path<M> {
    /// The path on which a procedure without parameters begins, with the empty memory.
    pub fn start(alloc: Global, proc: &Text) -> Result<Path<M>, AllocError>
        ensures stands { IfOk result (λ path. (p : PureParts) → Stands M.stands (path_view path) [] (start_state p proc.now [] empty 0)) }
        ensures over { IfOk result (λ path. IsOverTable M.terms (path_view path)) }
        ensures first { IfOk result (λ path. IsFirstPath M.stands M.terms proc.now (path_view path)) }
        ensures plain { IfOk result (λ path. (b : ℕ) → IsPlainPath M.plain b (path_view path)) }
    {
        let stack = first_frames(alloc, proc)?;
        let memory = M::empty(alloc)?;
        Ok(Path {
            vars: Sequence::new(alloc),
            conds: PathCond::new(alloc),
            given: Sequence::new(alloc),
            choices: Sequence::new(alloc),
            stack,
            memory,
            drawn: Terms::new(alloc),
            steps: 0,
            end: None,
        })
    }

    /// A path that is equal but for its memory, which stands for the same heaps.
    pub fn copy(&self, alloc: Global) -> Result<Path<M>, AllocError>
        ensures path { IfOk result (λ path. path_view path ≡ record (path_view self.now) { memory = path.memory }) }
        ensures memory { IfOk result (λ path. IsCopy M.stands M.terms M.depends M.plain self.now.memory path.memory) }
    {
        let vars = copy_table(alloc, &self.vars)?;
        let conds = copy_path_condition(alloc, &self.conds)?;
        let given = copy_conditions(alloc, &self.given)?;
        let choices = copy_choices(alloc, &self.choices)?;
        let stack = copy_frames(alloc, &self.stack)?;
        let memory = self.memory.copy(alloc)?;
        let drawn = self.drawn.copy(alloc)?;
        let end = copy_end(alloc, &self.end)?;
        Ok(Path {
            vars,
            conds,
            given,
            choices,
            stack,
            memory,
            drawn,
            steps: self.steps,
            end,
        })
    }
}
