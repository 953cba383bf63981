//! Names of a new record that are literals, which tell by themselves whether they differ.
ghost use Rattle.std.specs.Prelude.{◌≡◌, map, false, IfOk, MatchOption};
ghost use Rattle.gil_values.specs.Pure.{text};
ghost use Rattle.mem_model.specs.Names.{is_text, are_distinct_texts};
ghost use Rattle.pure_terms.specs.View.{term_view};
ghost use Rattle.record_sym.specs.LiteralNames.{name_value};

use pure_terms::{Literal, Term};
use std::alloc::{AllocError, Global};
use std::collections::HashSet;

/// The text that a term is as a literal.
fn literal_text(term: &Term) -> Option<&str>
    ensures { MatchOption result (is_text (name_value (term_view term.now)) ≡ false) (λ name. name_value (term_view term.now) ≡ text name.now) }
{
    match term {
        Term::Lit(Literal::Str(text)) => Some(text.as_str()),
        _ => None,
    }
}

/// Whether the terms are literal texts, no two of which are the same. Each text is looked up once among those before it.
pub fn are_distinct_literals(alloc: Global, names: &[Term]) -> Result<bool, AllocError>
    ensures { IfOk result (λ b. b ≡ are_distinct_texts (map (λ t. name_value (term_view t)) names.now)) }
{
    let mut before = HashSet::new(alloc);
    for term in names {
        let Some(name) = literal_text(term) else {
            return Ok(false);
        };
        if !before.insert(name)? {
            return Ok(false);
        }
    }
    Ok(true)
}
