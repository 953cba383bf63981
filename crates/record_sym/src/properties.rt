//! `lookup` and `mutate`: the name of a location.
ghost use Rattle.std.specs.Prelude.{◌≡◌, ◌++◌, IfOk};
ghost use Rattle.mem_model.specs.declared.failures.Failure.{Failure};
ghost use Rattle.pure_terms.specs.View.{term_view};
ghost use Rattle.record_sym.specs.Places.{lists_not, lacks, opened as opened_of};
ghost use Rattle.record_sym.specs.Table.{without_name as without_name_of, name_cases as name_cases_of};
ghost use Rattle.sym_chunks.specs.ByPlace.{all_by_place as all_by_place_of, any_at as any_at_of};
ghost use Rattle.sym_chunks.specs.Cases.{AreChosenAs, case_of, failure, missed_name};
ghost use Rattle.sym_chunks.specs.View.{access_view, cases_view};
ghost use Rattle.sym_model.specs.View.{frag_view};

use crate::places::{Lacks, ListsNot, opened};
use mem_model::Failure;
use pure_terms::Term;
use sequence::Sequence;
use std::alloc::{AllocError, Global};
use sym_chunks::{
    Access, Cases, all_by_place, any_at, has_sure_case, missed_key, name_sub, with_case,
    with_failure_case, with_found, with_gone,
};
use sym_model::SymFrag;

/// The cases, and that in which the location lists its names without the name.
fn with_absent(
    alloc: Global,
    cases: Cases,
    l: &Term,
    p: &Term,
    chunks: &SymFrag,
) -> Result<Cases, AllocError>
    ensures { IfOk result (λ cs. cases_view cs ≡ cases_view cases ++ case_of (any_at_of (term_view l.now) (lists_not (term_view p.now))
        (frag_view chunks.now)) (frag_view chunks.now) (failure Failure.Absent)) }
{
    let absent = any_at(alloc, l, &ListsNot { name: p }, chunks.as_slice())?;
    with_failure_case(alloc, cases, absent, chunks, Failure::Absent)
}

/// The cases, and those in which the name is missed.
fn with_missed(
    alloc: Global,
    cases: Cases,
    l: &Term,
    p: &Term,
    chunks: &SymFrag,
) -> Result<Cases, AllocError>
    ensures { IfOk result (λ cs. cases_view cs ≡ cases_view cases ++ (case_of (opened_of (term_view l.now) (term_view p.now)
        (frag_view chunks.now)) (frag_view chunks.now) (missed_name (term_view l.now) (term_view p.now)) ++ case_of (all_by_place_of
        (term_view l.now) (lacks (term_view p.now) (frag_view chunks.now)) (frag_view chunks.now)) (frag_view chunks.now) (missed_name
        (term_view l.now) (term_view p.now)))) }
{
    let name = name_sub(alloc, p)?;
    let outcome = missed_key(alloc, l, &name)?;
    let forms = opened(alloc, l, p, chunks.as_slice())?;
    let cases = with_case(alloc, cases, forms, chunks, &outcome)?;
    let test = Lacks {
        name: p,
        chunks: chunks.as_slice(),
    };
    let lacking = all_by_place(alloc, l, &test, chunks.as_slice())?;
    with_case(alloc, cases, lacking, chunks, &outcome)
}

/// The cases, and those in which no chunk is that of the name.
fn without_name(
    alloc: Global,
    cases: Cases,
    l: &Term,
    p: &Term,
    chunks: &SymFrag,
) -> Result<Cases, AllocError>
    ensures { IfOk result (λ cs. cases_view cs ≡ cases_view cases ++ without_name_of (term_view l.now) (term_view p.now)
        (frag_view chunks.now)) }
{
    let gone = with_gone(alloc, cases, l, chunks)?;
    let absent = with_absent(alloc, gone, l, p, chunks)?;
    with_missed(alloc, absent, l, p, chunks)
}

/// The cases of reading or giving the value of a name, without those after one that surely comes.
pub fn name_cases(
    alloc: Global,
    access: &Access,
    l: &Term,
    p: &Term,
    chunks: &SymFrag,
) -> Result<Cases, AllocError>
    ensures { IfOk result (λ cs. AreChosenAs (cases_view cs) (name_cases_of (access_view access.now) (term_view l.now) (term_view p.now)
        (frag_view chunks.now))) }
{
    let name = name_sub(alloc, p)?;
    let found = with_found(alloc, Sequence::new(alloc), access, l, &name, chunks)?;
    if has_sure_case(&found) {
        return Ok(found);
    }
    without_name(alloc, found, l, p, chunks)
}
