//! `new`, `getproto` and `setproto`.
ghost use Rattle.std.specs.Prelude.{◌≡◌, ◌++◌, IfOk};
ghost use Rattle.gil_values.specs.declared.kinds.Kind.{Kind};
ghost use Rattle.object_sym.specs.Table.{
  is_prototype as is_prototype_of,
  is_no_prototype as is_no_prototype_of,
  created as created_of,
  new_cases as new_cases_of,
  prototype_cases as prototype_cases_of,
};
ghost use Rattle.pure_terms.specs.View.{term_view};
ghost use Rattle.sym_chunks.specs.View.{access_view, cases_view};
ghost use Rattle.sym_chunks.specs.Cases.{AreChosenAs};
ghost use Rattle.sym_model.specs.Alternatives.{alternatives_view};
ghost use Rattle.sym_model.specs.View.{frag_view};

use gil_values::Kind;
use pure_terms::{Literal, Term, Terms, Var};
use sequence::Sequence;
use std::alloc::{AllocError, Global};
use sym_chunks::{
    Access, Cases, all_other_subs, has_sure_case, missed_key, with_case, with_found, with_made_case,
};
use sym_model::{
    Alternatives, Chunk, SymFrag, SymResult, SymSub, always, both, extend, kind_is, kind_is_not,
    terms_differ, terms_equal,
};

/// The value is a symbol or Null.
pub fn is_prototype(alloc: Global, val: &Term) -> Result<Alternatives, AllocError>
    ensures { IfOk result (λ x. alternatives_view x ≡ is_prototype_of (term_view val.now)) }
{
    let null = Term::Lit(Literal::Kind(Kind::Null));
    let symbol = kind_is(alloc, val, Kind::Sym)?;
    extend(alloc, symbol, &terms_equal(alloc, val, &null)?)
}

/// The value is neither a symbol nor Null.
pub fn is_no_prototype(alloc: Global, val: &Term) -> Result<Alternatives, AllocError>
    ensures { IfOk result (λ x. alternatives_view x ≡ is_no_prototype_of (term_view val.now)) }
{
    let null = Term::Lit(Literal::Kind(Kind::Null));
    let no_symbol = kind_is_not(alloc, val, Kind::Sym)?;
    both(alloc, &no_symbol, &terms_differ(alloc, val, &null)?)
}

/// The chunks with those of a new object.
fn with_object(
    alloc: Global,
    location: Var,
    val: &Term,
    chunks: &SymFrag,
) -> Result<SymFrag, AllocError>
    ensures { IfOk result (λ cs. frag_view cs ≡ created_of location (term_view val.now) (frag_view chunks.now)) }
{
    let mut made = chunks.copy(alloc)?;
    made.push(Chunk {
        loc: Term::Var(location),
        sub: SymSub::Dom,
        val: Term::List(Terms::new(alloc)),
    })?;
    made.push(Chunk {
        loc: Term::Var(location),
        sub: SymSub::Proto,
        val: val.copy(alloc)?,
    })?;
    Ok(made)
}

/// The case of `new`.
pub fn new_cases(
    alloc: Global,
    location: Var,
    val: &Term,
    chunks: &SymFrag,
) -> Result<Cases, AllocError>
    ensures { IfOk result (λ cs. cases_view cs ≡ new_cases_of location (term_view val.now) (frag_view chunks.now)) }
{
    let when = always(alloc)?;
    let after = with_object(alloc, location, val, chunks)?;
    let result = SymResult::Done(Term::Var(location));
    with_made_case(Sequence::new(alloc), when, after, result)
}

/// The cases of reading or changing a prototype, without those after one that surely comes.
pub fn prototype_cases(
    alloc: Global,
    access: &Access,
    l: &Term,
    chunks: &SymFrag,
) -> Result<Cases, AllocError>
    ensures { IfOk result (λ cs. AreChosenAs (cases_view cs) (prototype_cases_of (access_view access.now) (term_view l.now)
        (frag_view chunks.now))) }
{
    let sub = SymSub::Proto;
    let found = with_found(alloc, Sequence::new(alloc), access, l, &sub, chunks)?;
    if has_sure_case(&found) {
        return Ok(found);
    }
    let missing = all_other_subs(alloc, l, &sub, chunks.as_slice())?;
    let outcome = missed_key(alloc, l, &sub)?;
    with_case(alloc, found, missing, chunks, &outcome)
}
