//! Beginnings that fix a key which a path missed.
ghost use Rattle.std.specs.Prelude.{◌≡◌, ◌↔◌, ℕ, List, map, IfOk, IfSome, IsTrue};
ghost use Rattle.std.specs.List.{list_all};
ghost use Rattle.fresh_atoms.specs.Laws.{is_any_or_list as any_or_list};
ghost use Rattle.pure_terms.specs.Meaning.{IsOver};
ghost use Rattle.pure_terms.specs.Pure.{term_of};
ghost use Rattle.pure_terms.specs.View.{term_view, terms_view, atom_view, atoms_view};
ghost use Rattle.sym_model.specs.Lists.{Each, OneOf};
ghost use Rattle.sym_model.specs.Pure.{sub_terms};
ghost use Rattle.sym_model.specs.Terms.{AreEachOver};
ghost use Rattle.sym_model.specs.View.{key_view, sub_view, fix_view, fixes_view};
ghost use Rattle.bi_beginnings.specs.Beginnings.{IsBeginning};
ghost use Rattle.bi_beginnings.specs.Conditions.{same_atom, stands_among as is_among_conditions};
ghost use Rattle.bi_beginnings.specs.Fixing.{IsFixOver, HasCoreNumbers, IsAtNewSymbol, IsKeyAtNewSymbol, with_fix, IsCarried, Carries, IsLed};
ghost use Rattle.bi_beginnings.specs.Missing.{AwaitsAgain, LeavesNothing};
ghost use Rattle.bi_beginnings.specs.Narrowly.{IsKeyOver, IsSymbolTaken, AgainStaysNarrow};
ghost use Rattle.bi_beginnings.specs.View.{beginning_view, beginnings_view, again_view};

use crate::beginnings::{Beginning, Beginnings, copy_choices, copy_table, copy_uses, extended};
use gil_values::Place;
use mem_model::{Core, MemoryName};
use pure_terms::{Atom, Atoms, Sort, Term, Terms, VarTable};
use sequence::Sequence;
use std::alloc::{AllocError, Global};
use sym_model::{CoreUse, Fix, Fixes, ListedMemory, Sorts, SymKey, SymSub, copy_conditions};
use sym_paths::{Ended, copy_place};

/// What comes of a path that missed a key.
#[derive(Debug, Drop)]
pub enum Again {
    /// Each of these beginnings fixes it. There is none where the location is a symbol that the run took, since no heap with which it
    /// was entered has it, or where as many keys as the bound are fixed already.
    With(Beginnings),
    /// The key has this term, which names what the run took, or what fixes the key can't be said at the beginning. So nothing is known
    /// of it there.
    Late(Term),
}

// ---- what is carried

fn are_same(first: &Atom, second: &Atom) -> bool
    ensures { result ≡ same_atom (atom_view first.now) (atom_view second.now) }
{
    match (first, second) {
        (Atom::Holds(left), Atom::Holds(right)) => *left == *right,
        (Atom::Not(left), Atom::Not(right)) => *left == *right,
        (Atom::Open(left), Atom::Open(right)) => *left == *right,
        _ => false,
    }
}

/// Whether a condition is one of these.
pub fn stands_among(atoms: &Atoms, atom: &Atom) -> bool
    ensures { result ≡ is_among_conditions (atoms_view atoms.now) (atom_view atom.now) }
{
    for other in atoms.as_slice() {
        if are_same(atom, other) {
            return true;
        }
    }
    false
}

/// Whether an atom is in the fragment by itself and names only variables of a table.
fn may_be_carried(vars: &VarTable, atom: &Atom) -> bool
    ensures { IsTrue result → IsOver vars.now (term_of (atom_view atom.now)) }
{
    atom.term().is_over(vars) && atom.has_fragment_form() && atom.has_narrow_literals()
}

/// The conditions that are carried to a beginning with this table, each once.
fn carried(alloc: Global, vars: &VarTable, conds: &Atoms) -> Result<Atoms, AllocError>
    ensures { IfOk result (λ atoms. Each (IsCarried vars.now (atoms_view conds.now)) (atoms_view atoms)) }
{
    let mut atoms = Sequence::new(alloc);
    for atom in conds.as_slice() {
        if may_be_carried(vars, atom) && !stands_among(&atoms, atom) {
            atoms.push(atom.copy(alloc)?)?;
        }
    }
    Ok(atoms)
}

/// The beginning of the path, with what is carried from it.
fn carrying(
    alloc: Global,
    beginning: &Beginning,
    path: &Ended,
    place: &Place,
) -> Result<Beginning, AllocError>
    ensures carries { IfOk result (λ b. Carries (beginning_view beginning.now) (atoms_view path.now.conds) (beginning_view b)) }
    ensures there { IfOk result (λ b. b.place ≡ place.now) }
    ensures chosen { IfOk result (λ b. b.choices ≡ path.now.choices) }
{
    let vars = copy_table(alloc, &beginning.vars)?;
    let uses = copy_uses(alloc, &beginning.uses)?;
    let conds = carried(alloc, &beginning.vars, &path.conds)?;
    let place = copy_place(alloc, place)?;
    let choices = copy_choices(alloc, &path.choices)?;
    Ok(Beginning {
        vars,
        uses,
        conds,
        place,
        choices,
    })
}

// ---- fixes

/// Whether the terms name only variables of the table.
fn are_over(vars: &VarTable, terms: &Terms) -> bool
    ensures { IsTrue result ↔ AreEachOver vars.now (terms_view terms.now) }
{
    for term in terms.as_slice() {
        if !term.is_over(vars) {
            return false;
        }
    }
    true
}

fn is_any_or_list(sort: Sort) -> bool
    ensures { result ≡ any_or_list sort }
{
    matches!(sort, Sort::Any | Sort::List)
}

fn are_any_or_list(sorts: &Sorts) -> bool
    ensures { result ≡ list_all any_or_list sorts.now }
{
    sorts.iter().all(|sort| is_any_or_list(*sort))
}

/// Whether a fix is of a core predicate of the memory, with its numbers of ins and outs.
fn has_core_numbers(memory: MemoryName, fix: &Fix) -> bool
    ensures { IsTrue result ↔ HasCoreNumbers memory (fix_view fix.now) }
{
    match Core::from_name(&fix.core) {
        Some(core) => {
            core.is_of(memory) && fix.ins.len() == core.ins() && fix.outs.len() == core.outs()
        }
        None => false,
    }
}

/// Whether a beginning with this table may have a use for the fix.
fn is_fix_over(memory: MemoryName, vars: &VarTable, fix: &Fix) -> bool
    ensures { IsTrue result ↔ IsFixOver memory vars.now (fix_view fix.now) }
{
    has_core_numbers(memory, fix) && are_over(vars, &fix.ins) && are_any_or_list(&fix.outs)
}

/// Whether a beginning with this table may have a use for each of the fixes.
fn are_fixes_over(memory: MemoryName, vars: &VarTable, fixes: &Fixes) -> bool
    ensures { IsTrue result ↔ Each (IsFixOver memory vars.now) (fixes_view fixes.now) }
{
    for fix in fixes.as_slice() {
        if !is_fix_over(memory, vars, fix) {
            return false;
        }
    }
    true
}

/// Whether the location of the key that the fix is for is a symbol that the run took.
fn is_at_new_symbol(vars: &VarTable, fix: &Fix) -> bool
    ensures { IsTrue result ↔ IsAtNewSymbol vars.now (fix_view fix.now) }
{
    match fix.ins.get(0) {
        Some(Term::Var(location)) => {
            matches!(vars.get(location.number as usize), Some(Sort::Fresh))
        }
        _ => false,
    }
}

/// Whether that is so of each of the fixes.
fn are_at_new_symbols(vars: &VarTable, fixes: &Fixes) -> bool
    ensures { IsTrue result ↔ Each (IsAtNewSymbol vars.now) (fixes_view fixes.now) }
{
    for fix in fixes.as_slice() {
        if !is_at_new_symbol(vars, fix) {
            return false;
        }
    }
    true
}

/// Whether a term is a symbol that the run took.
fn is_symbol_taken(vars: &VarTable, term: &Term) -> bool
    ensures { IsTrue result ↔ IsSymbolTaken vars.now (term_view term.now) }
{
    match term {
        Term::Var(symbol) => matches!(vars.get(symbol.number as usize), Some(Sort::Fresh)),
        _ => false,
    }
}

/// Whether what names the part of a key is one.
fn is_named_by_symbol(vars: &VarTable, sub: &SymSub) -> bool
    ensures { IsTrue result ↔ OneOf (IsSymbolTaken vars.now) (sub_terms (sub_view sub.now)) }
{
    match sub {
        SymSub::Name(term) | SymSub::At(term) => is_symbol_taken(vars, term),
        _ => false,
    }
}

/// The beginning with a use more, whose outs are new variables.
fn with_use(alloc: Global, beginning: &Beginning, fix: &Fix) -> Result<Beginning, AllocError>
    ensures { IfOk result (λ b. beginning_view b ≡ with_fix (beginning_view beginning.now) (fix_view fix.now)) }
{
    let extended = extended(alloc, &beginning.vars, &fix.outs)?;
    let core = fix.core.copy(alloc)?;
    let ins = fix.ins.copy(alloc)?;
    let mut uses = copy_uses(alloc, &beginning.uses)?;
    uses.push(CoreUse {
        core,
        ins,
        outs: extended.added,
    })?;
    let conds = copy_conditions(alloc, &beginning.conds)?;
    let place = copy_place(alloc, &beginning.place)?;
    let choices = copy_choices(alloc, &beginning.choices)?;
    Ok(Beginning {
        vars: extended.vars,
        uses,
        conds,
        place,
        choices,
    })
}

/// The beginnings with a use more, one for each fix.
fn with_each(alloc: Global, beginning: &Beginning, fixes: &Fixes) -> Result<Beginnings, AllocError>
    ensures { IfOk result (λ bs. beginnings_view bs ≡ map (with_fix (beginning_view beginning.now)) (fixes_view fixes.now)) }
{
    let mut beginnings = Sequence::new(alloc);
    for fix in fixes.as_slice() {
        beginnings.push(with_use(alloc, beginning, fix)?)?;
    }
    Ok(beginnings)
}

// ---- what comes of a path

/// The first term of a key that names what isn't in the table.
fn late_term<'a>(vars: &VarTable, key: &'a SymKey) -> Option<&'a Term>
    ensures { IfSome result (λ t. ¬ IsKeyOver vars.now (key_view key.now)) }
{
    if !key.loc.is_over(vars) {
        return Some(&key.loc);
    }
    match &key.sub {
        SymSub::Name(term) | SymSub::At(term) => {
            if term.is_over(vars) { None } else { Some(term) }
        }
        _ => None,
    }
}

/// What comes of a path that missed a key, which came of a beginning. Each new beginning has one use more, for the key, and carries
/// those conditions of the path which are in the fragment by themselves and name only variables of the beginning; it has the place where the
/// path missed the key, and the choices that lead there. A run along the path
/// whose heap has what fixes the key beside what the beginning's uses say is awaited by one of them. Nothing comes of a key of the memory
/// whose location is a symbol that the run took, or whose part such a symbol names. What comes of a narrow beginning where the path missed a narrow name are narrow
/// beginnings, and nothing is late.
pub fn begin_again<M: ListedMemory>(
    alloc: Global,
    beginning: &Beginning,
    bound: u32,
    path: &Ended,
    key: &SymKey,
    place: &Place,
) -> Result<Again, AllocError>
    ensures beginnings { IfOk result (λ again. (params : List (List ℕ)) → IsBeginning M.Local.memory params (beginning_view beginning.now)
        → Each (IsBeginning M.Local.memory params) (again_view again)) }
    ensures cover { IfOk result (λ again. (params : List (List ℕ)) → IsBeginning M.Local.memory params (beginning_view beginning.now)
        → AwaitsAgain M.Local.memory M.Local.actions params bound (beginning_view beginning.now) path.now.vars (atoms_view path.now.conds)
        (key_view key.now) again) }
    ensures narrow { M.keeps_narrow → IfOk result (λ again. AgainStaysNarrow M.Local.memory bound (beginning_view beginning.now) path.now.vars
        (atoms_view path.now.conds) (key_view key.now) again) }
    ensures nothing { IfOk result (λ again. IsKeyAtNewSymbol M.Local.memory path.now.vars (key_view key.now) → LeavesNothing again) }
    ensures led { IfOk result (λ again. Each (IsLed place.now path.now.choices (atoms_view path.now.conds)) (again_view again)) }
{
    let fixes = M::empty(alloc)?.fixes(alloc, key)?;
    if are_at_new_symbols(&path.vars, &fixes) {
        return Ok(Again::With(Sequence::new(alloc)));
    }
    if is_named_by_symbol(&path.vars, &key.sub) {
        return Ok(Again::With(Sequence::new(alloc)));
    }
    if let Some(term) = late_term(&beginning.vars, key) {
        return Ok(Again::Late(term.copy(alloc)?));
    }
    if !are_fixes_over(M::name(), &beginning.vars, &fixes) {
        return Ok(Again::Late(key.loc.copy(alloc)?));
    }
    if beginning.uses.len() >= bound as usize {
        return Ok(Again::With(Sequence::new(alloc)));
    }
    let carrying = carrying(alloc, beginning, path, place)?;
    Ok(Again::With(with_each(alloc, &carrying, &fixes)?))
}
