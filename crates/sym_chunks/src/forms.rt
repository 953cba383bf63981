//! Terms whose literal form is needed.
ghost use Rattle.std.specs.Prelude.{◌≡◌, IfOk};
ghost use Rattle.pure_terms.specs.View.{term_view};
ghost use Rattle.sym_chunks.specs.Forms.{form_of};
ghost use Rattle.sym_model.specs.Alternatives.{alternatives_view};

use pure_terms::Term;
use std::alloc::{AllocError, Global};
use sym_model::{Alternatives, never, with_form};

/// The alternatives, where besides the literal form of a term is needed. There is none for list terms and literals.
pub fn form_needed(
    alloc: Global,
    term: &Term,
    alternatives: &Alternatives,
) -> Result<Alternatives, AllocError>
    ensures { IfOk result (λ x. alternatives_view x ≡ form_of (term_view term.now) (alternatives_view alternatives.now)) }
{
    match term {
        Term::List(_) | Term::Lit(_) => Ok(never(alloc)),
        _ => with_form(alloc, term, alternatives),
    }
}
