//! The mode `solve`: a solution of a list of atoms.
ghost use Rattle.std.specs.Prelude.{◌≡◌, length, map, IfOk, IfErr};
ghost use Rattle.gil_values.specs.View.{value_view, values_view};
ghost use Rattle.pure_terms.specs.Meaning.{AreOver};
ghost use Rattle.pure_terms.specs.View.{atoms_view};
ghost use Rattle.atom_text.specs.Accepted.{text_view};
ghost use Rattle.gillian_words.specs.Tasks.{solve};
ghost use Rattle.gil_report.specs.View.{answer_view};
ghost use Rattle.gillian_core.specs.Finishing.{IsNoOutput};
ghost use Rattle.gillian_core.specs.Right.{IsRightSolution, IsSolved};

use crate::refusals::or_memory;
use atom_text::{AtomText, read_atoms};
use gil_report::{Answer, Binding, Bindings};
use gil_text::Refused;
use gil_values::Values;
use path_solver::{Solution, solve};
use report_causes::place_of;
use report_names::named_proof;
use rewrite_book::RuleBook;
use sequence::Sequence;
use solver_print::Names;
use solver_proof::closed_lists_have_no_solution;
use std::alloc::{AllocError, Global};

/// The solution of the atoms of a text. Atoms outside the fragment are simplified by the rules.
pub fn solution(alloc: Global, rules: &RuleBook, bytes: &[u8]) -> Result<Answer, Refused>
    ensures answer { IfOk result (λ answer. IsSolved bytes.now (answer_view answer)) }
    ensures none { IfErr result (IsNoOutput solve bytes.now) }
{
    let text = read_atoms(alloc, bytes)?;
    or_memory(solution_of(alloc, rules, text))
}

/// The solution of a text.
fn solution_of(alloc: Global, rules: &RuleBook, text: AtomText) -> Result<Answer, AllocError>
    requires over { AreOver text.vars (atoms_view text.atoms) }
    requires named { length text.names ≡ length text.vars }
    ensures { IfOk result (λ answer. IsRightSolution (text_view text) (answer_view answer)) }
{
    closed_lists_have_no_solution();
    let AtomText { names, vars, atoms } = text;
    match solve(alloc, &vars, &atoms, rules)? {
        Solution::Sat(values) => Ok(Answer::Sat(bindings_of(alloc, &names, &values)?)),
        Solution::Unsat(proof) => Ok(Answer::Unsat(named_proof(alloc, &names, &proof)?)),
        Solution::Unknown(reason) => Ok(Answer::Unknown(place_of(reason))),
    }
}

/// Variables with these names and values, in their order.
fn bindings_of(alloc: Global, names: &Names, values: &Values) -> Result<Bindings, AllocError>
    requires { length names.now ≡ length (values_view values.now) }
    ensures names { IfOk result (λ bindings. map (λ b. b.name) bindings ≡ names.now) }
    ensures values { IfOk result (λ bindings. map (λ b. value_view b.value) bindings ≡ values_view values.now) }
{
    let mut bindings = Sequence::new(alloc);
    for (index, value) in values.as_slice().iter().enumerate() {
        let Some(name) = names.get(index) else {
            unreachable!()
        };
        bindings.push(Binding {
            name: name.copy(alloc)?,
            value: value.copy(alloc)?,
        })?;
    }
    Ok(bindings)
}
