//! Simplifying: the parts of a term first, then the term by the first rule that answers, until none does.
ghost use Rattle.std.specs.Prelude.{◌≡◌, ◌<◌, length, IfOk, IsFalse, IsNone, IsTrue, None, Ok};
ghost use Rattle.std.specs.List.{All, AllZip, Contains};
ghost use Rattle.pure_terms.specs.Pure.{subterms};
ghost use Rattle.pure_terms.specs.Rewriting.{Replaces};
ghost use Rattle.pure_terms.specs.View.{term_view};
ghost use Rattle.rewrite_book.specs.Answers.{AnswersNoTerm, AnswersWell};
ghost use Rattle.rewrite_book.specs.Books.{rules_of};
ghost use Rattle.rewrite_book.specs.Heads.{is_headed};
ghost use Rattle.rewrite_book.specs.Nodes.{below};
ghost use Rattle.rewrite_book.specs.Normals.{AreForms, IsForm, IsFormBelow};
ghost use Rattle.term_table.specs.Tables.{Keeps, term_at, terms_of};

use crate::book::RuleBook;
use crate::normals::Normals;
use crate::rules::{Rule, Simplifier, ask};
use pure_terms::Term;
use std::alloc::{AllocError, Global};
use term_table::TermId;

/// What may be asked for a smaller term.
pub trait Asked {
    ghost use Rattle.pure_terms.specs.Pure.{PureTerm};

    ghost has_none: { Self → PureTerm → Type 0 };

    fn first_answer(&self, alloc: Global, term: &Term) -> Result<Option<Term>, AllocError>
        ensures well { AnswersWell term.now result }
        ensures none { IfOk result (λ o. IsNone o → has_none self.now (term_view term.now)) };
}

impl Asked for RuleBook {
    ghost has_none = { λ book t. (rule : _) → Contains (rules_of book) rule → IsTrue (is_headed rule.head t)
        → (a : _) × (s : _) × (term_view s.now ≡ t) × Simplifier.post rule.simplifier a s (Ok None) };

    fn first_answer(&self, alloc: Global, term: &Term) -> Result<Option<Term>, AllocError> {
        for rule in &self.rules {
            if let Some(smaller) = answer_of(alloc, rule, term)? {
                return Ok(Some(smaller));
            }
        }
        Ok(None)
    }
}

/// What a rule answers on a term of its head, and None on others.
fn answer_of(alloc: Global, rule: &Rule, term: &Term) -> Result<Option<Term>, AllocError>
    ensures well { AnswersWell term.now result }
    ensures none { IfOk result (λ o. IsNone o → IsTrue (is_headed rule.now.head (term_view term.now))
        → Simplifier.post rule.now.simplifier alloc term.entry (Ok None)) }
{
    if rule.head.is_of(term) {
        ask(alloc, rule, term)
    } else {
        Ok(None)
    }
}

/// Simplifies a term by a book. At each node of the answer, each rule with that node's head has answered None, and no other rule
/// answers a term there.
pub fn simplify(alloc: Global, book: &RuleBook, term: Term) -> Result<Term, AllocError>
    ensures replaces { IfOk result (λ u. Replaces (term_view term) (term_view u)) }
    ensures done { IfOk result (λ u. All (λ t. (rule : _) → Contains (rules_of book.now) rule → IsTrue (is_headed rule.head t)
        → (a : _) × (s : _) × (term_view s.now ≡ t) × Simplifier.post rule.simplifier a s (Ok None)) (subterms (term_view u))) }
    ensures others { IfOk result (λ u. All (λ t. (rule : _) → Contains (rules_of book.now) rule → IsFalse (is_headed rule.head t)
        → (a : _) (s : _) (r : _) → term_view s.now ≡ t → Simplifier.post rule.simplifier a s r → AnswersNoTerm r) (subterms (term_view u))) }
{
    simplified(alloc, book, &term)
}

/// A term, simplified by way of a table in which each normal form that was found is kept.
fn simplified<B: Asked>(alloc: Global, book: &B, term: &Term) -> Result<Term, AllocError>
    ensures replaces { IfOk result (λ u. Replaces (term_view term.now) (term_view u)) }
    ensures done { IfOk result (λ u. All (B.has_none book.now) (subterms (term_view u))) }
{
    let mut normals = Normals::new(alloc);
    let id = normals.table.put(alloc, term)?;
    let form = normal(alloc, book, &mut normals, id)?;
    normals.table.term(alloc, form)
}

/// The number of the normal form of a named term.
#[cycle(normal)]
fn normal<B: Asked>(
    alloc: Global,
    book: &B,
    normals: &mut Normals,
    id: TermId,
) -> Result<TermId, AllocError>
    requires known { AreForms (B.has_none book.now) (terms_of normals.old.table) normals.old.forms.items }
    requires named { id < length normals.old.table }
    ensures known { AreForms (B.has_none book.now) (terms_of normals.new.table) normals.new.forms.items }
    ensures kept { Keeps (terms_of normals.old.table) (terms_of normals.new.table) }
    ensures form { IfOk result (IsForm (B.has_none book.now) (terms_of normals.new.table) id) }
{
    if let Some(form) = normals.known(id) {
        return Ok(form);
    }
    let whole = with_normal_parts(alloc, book, normals, id)?;
    let form = normal_at_root(alloc, book, normals, whole)?;
    normals.note(id, form)?;
    Ok(form)
}

/// The number of the normal form of a named term whose parts are normal.
#[cycle(normal)]
fn normal_at_root<B: Asked>(
    alloc: Global,
    book: &B,
    normals: &mut Normals,
    whole: TermId,
) -> Result<TermId, AllocError>
    requires known { AreForms (B.has_none book.now) (terms_of normals.old.table) normals.old.forms.items }
    requires named { whole < length normals.old.table }
    requires done { All (B.has_none book.now) (below (term_at (terms_of normals.old.table) whole)) }
    ensures known { AreForms (B.has_none book.now) (terms_of normals.new.table) normals.new.forms.items }
    ensures kept { Keeps (terms_of normals.old.table) (terms_of normals.new.table) }
    ensures form { IfOk result (IsForm (B.has_none book.now) (terms_of normals.new.table) whole) }
{
    match book.first_answer(alloc, normals.table.get(whole))? {
        Some(smaller) => {
            let id = normals.table.put(alloc, &smaller)?;
            normal(alloc, book, normals, id)
        }
        None => Ok(whole),
    }
}

/// The same numbers.
fn copy_of(alloc: Global, ids: &[TermId]) -> Result<Vec<TermId>, AllocError>
    ensures { IfOk result (λ copy. copy.items ≡ ids.now) }
{
    let mut copy: Vec<TermId> = Vec::with_capacity(alloc, ids.len())?;
    for id in ids {
        copy.push(*id)?;
    }
    Ok(copy)
}

/// The number of a named term with normal parts in place of its own.
#[cycle(normal)]
fn with_normal_parts<B: Asked>(
    alloc: Global,
    book: &B,
    normals: &mut Normals,
    id: TermId,
) -> Result<TermId, AllocError>
    requires known { AreForms (B.has_none book.now) (terms_of normals.old.table) normals.old.forms.items }
    requires named { id < length normals.old.table }
    ensures known { AreForms (B.has_none book.now) (terms_of normals.new.table) normals.new.forms.items }
    ensures kept { Keeps (terms_of normals.old.table) (terms_of normals.new.table) }
    ensures form { IfOk result (IsFormBelow (B.has_none book.now) (terms_of normals.new.table) id) }
{
    let parts = copy_of(alloc, normals.table.parts(id))?;
    let forms = normal_parts(alloc, book, normals, parts.as_slice())?;
    normals.table.rebuilt(alloc, id, forms.as_slice())
}

/// The numbers of the normal forms of named terms.
#[cycle(normal)]
fn normal_parts<B: Asked>(
    alloc: Global,
    book: &B,
    normals: &mut Normals,
    parts: &[TermId],
) -> Result<Vec<TermId>, AllocError>
    requires known { AreForms (B.has_none book.now) (terms_of normals.old.table) normals.old.forms.items }
    requires named { All (λ part. part < length normals.old.table) parts.now }
    ensures known { AreForms (B.has_none book.now) (terms_of normals.new.table) normals.new.forms.items }
    ensures kept { Keeps (terms_of normals.old.table) (terms_of normals.new.table) }
    ensures forms { IfOk result (λ forms. AllZip (IsForm (B.has_none book.now) (terms_of normals.new.table)) parts.now forms.items) }
{
    let mut forms: Vec<TermId> = Vec::with_capacity(alloc, parts.len())?;
    for part in parts {
        let form = normal(alloc, book, normals, *part)?;
        forms.push(form)?;
    }
    Ok(forms)
}
