//! Rows of whole programs: each has a mistake that a wrong rule would let through, and a checked run that finds it.
ghost use Rattle.std.specs.Prelude.{[], ◌∷◌, codes};
ghost use Rattle.checked_runs.specs.Checked.{goes_on_to, fails, post, invariant, call_precondition, fold_body};
ghost use Rattle.checked_runs.specs.Rows.{a, number_value};
ghost use Rattle.std.specs.FinMap.{empty, remove};
ghost use Rattle.gil_values.specs.declared.kinds.Kind.TheVariants.{Null};
ghost use Rattle.gil_values.specs.Pure.{symbol, kind};
ghost use Rattle.mem_model.specs.declared.keys.Sub.TheVariants.{Name};
ghost use Rattle.mem_model.specs.Keys.{key};
ghost use Rattle.mem_model.specs.declared.keys.MemoryName.TheVariants.{Record};
ghost use Rattle.mem_model.specs.Actions.{no_memory};
ghost use Rattle.checked_runs.specs.Specifications.{SpecHolds};
ghost use Rattle.gil_syntax.specs.Examples.{number};
ghost use Rattle.gil_syntax.specs.Pure.{uses};
ghost use Rattle.checked_runs.specs.Programs.{
  HasFault,
  MayLead,
  draws_a_side,
  tells_one_side,
  moves_a_fact,
  of_two_facts,
  folds_two_of_one_name,
  of_any_two,
  first_state,
  next_state,
  p_fact,
  list_fact,
  one_cell,
  unfolds_a_symbol,
  of_one_fact,
  folds_one_cell,
  HasNone,
  Uses,
  fails_from_no_heap,
  one_key_twice,
  vanishes,
  tells_the_false,
  knows_the_second_fact,
  knows_the_second_case,
  asks_itself,
  says_zero,
  tells_the_argument,
  changes_its_argument,
  tells_one,
  believes_a_false_one,
  tells_nothing,
  gives_any_argument,
  tells_zero,
  reads_the_first_post,
  of_no_argument,
  gets_its_symbol_back,
  tells_true,
  even_and_odd,
  gives_zero,
  reads_the_first_case,
  makes_p,
  assumes_what_it_shows,
  of_two,
  two_of_one,
  with_q,
  wants_the_second_fact,
  wants_the_second_case,
  asserts_the_false,
  asserts_of_no_value,
  fails_at_one,
  lists_without_value,
  passes_in_two_calls,
  of_a_number,
  counts_without_listing,
  with_cell,
  returns_nothing,
  loses_the_cell,
  tells_another_value,
  gives_the_cell_away,
  keeps_the_cell,
  folds_it,
  unfolds_it,
  has_it_twice,
  cell_of,
  p_use,
  folds_a_key,
  folds_in_a_loop,
  one_cell_is_no_list,
  sees_a_list,
};

/// A postcondition reads the parameters' values at entry; a call asks for the arguments' sorts, and its result is any value that
/// any postcondition allows, a symbol of the caller too; and what a false specification tells is found where it is false.
pub fn mistakes_of_calls_are_found()
    ensures current_values { HasFault changes_its_argument tells_the_argument post }
    ensures false_specification { HasFault believes_a_false_one (tells_one (codes "g")) post }
    ensures depends { Uses believes_a_false_one (tells_one (codes "f")) (tells_one (codes "g")) }
    ensures sorts { HasFault gives_any_argument tells_nothing call_precondition }
    ensures other_post { HasFault reads_the_first_post tells_zero post }
    ensures symbol_of_caller { HasFault gets_its_symbol_back of_no_argument (fails (number_value 1)) }
    ensures odd { HasFault even_and_odd (tells_true (codes "odd")) post }
    ensures even_depends { Uses even_and_odd (tells_true (codes "even")) (tells_true (codes "odd")) }
{}

/// `unfold` adds any case; a use without a fact is matched one level deep; two facts may be of one value; the first fact that fits
/// and the first case that matches are taken, and no choice is taken back; what is asserted is matched.
pub fn mistakes_of_assertions_are_found()
    ensures other_case { HasFault reads_the_first_case gives_zero post }
    ensures deeper { HasFault assumes_what_it_shows makes_p post }
    ensures two_facts { HasFault two_of_one of_two (fails (number_value 1)) }
    ensures first_fact { HasFault (with_q wants_the_second_fact) wants_the_second_fact post }
    ensures first_case { HasFault (with_q wants_the_second_case) wants_the_second_case post }
    ensures asserted { HasFault asserts_the_false of_no_argument fold_body }
    ensures no_value { HasFault asserts_of_no_value of_no_argument fold_body }
{}

/// At an invariant each listed variable has a value, and any one from then on; the others are the same when it is reached again;
/// and an invariant that was passed in another call doesn't count.
pub fn mistakes_of_invariants_are_found()
    ensures unlisted { HasFault (fails_at_one []) of_no_argument invariant }
    ensures listed { HasFault (fails_at_one (codes "i" ∷ [])) of_no_argument (fails (number_value 1)) }
    ensures unset { HasFault lists_without_value of_no_argument invariant }
    ensures other_call { HasFault passes_in_two_calls of_no_argument (fails (number_value 1)) }
    ensures counter { HasFault counts_without_listing of_a_number invariant }
{}

/// A return leaves no key; a known out is what the key holds; a call by specification takes what its precondition tells, `fold` takes
/// the body, and `unfold` the fact; what an invariant leaves is the same when it is reached again.
pub fn mistakes_of_heaps_are_found()
    ensures leftover { HasFault (with_cell loses_the_cell (returns_nothing ∷ [])) loses_the_cell post }
    ensures other_value { HasFault (with_cell tells_another_value (returns_nothing ∷ [])) tells_another_value post }
    ensures given_away { HasFault gives_the_cell_away keeps_the_cell post }
    ensures folded { HasFault folds_it (has_it_twice (cell_of a (number 1) ∷ [])) post }
    ensures unfolded { HasFault unfolds_it (has_it_twice (uses (p_use a) ∷ [])) post }
    ensures core_predicate { HasFault folds_a_key keeps_the_cell fold_body }
    ensures remainder { HasFault folds_in_a_loop keeps_the_cell invariant }
    ensures one_level { HasFault one_cell_is_no_list sees_a_list post }
{}

/// What no heap meets has no run; what vanishes isn't looked at; a known out is given to facts and to cases; and a cycle of uses has
/// no fault of its own.
pub fn programs_without_a_mistake_have_no_fault()
    ensures no_heap { HasNone fails_from_no_heap one_key_twice }
    ensures vanishing { HasNone vanishes tells_the_false }
    ensures known_fact { HasNone (with_q knows_the_second_fact) knows_the_second_fact }
    ensures known_case { HasNone (with_q knows_the_second_case) knows_the_second_case }
    ensures cycle { HasNone asks_itself says_zero }
{}

/// A draw is any value of its kind; the facts that an invariant leaves are the same in their order; one name among ins and outs has
/// one value; `fold` goes one level deeper than other matching.
pub fn draws_and_folds_are_followed()
    ensures draw { HasFault draws_a_side tells_one_side post }
    ensures order { HasFault moves_a_fact of_two_facts invariant }
    ensures two_values { HasFault folds_two_of_one_name of_any_two fold_body }
    ensures one_value { MayLead folds_two_of_one_name of_any_two (number_value 3 ∷ number_value 3 ∷ [])
        (first_state folds_two_of_one_name (number_value 3 ∷ number_value 3 ∷ []) empty [] 0)
        (goes_on_to (next_state folds_two_of_one_name (number_value 3 ∷ number_value 3 ∷ []) empty
        (record { pred = codes "p"; ins = number_value 3 ∷ []; outs = number_value 3 ∷ [] } ∷ []) 0)) }
    ensures deeper { MayLead folds_one_cell sees_a_list (symbol 0 ∷ []) (first_state folds_one_cell (symbol 0 ∷ []) (one_cell (kind Null)) [] 1)
        (goes_on_to (next_state folds_one_cell (symbol 0 ∷ []) (remove (one_cell (kind Null)) (key 0 (Name (codes "v"))))
        (list_fact (symbol 0) ∷ []) 1)) }
{}

/// `unfold` gives a variable any symbol and may raise the counter for it, gives none to a variable that nothing names, and leads
/// nowhere, not to a fault either, where the case can't be added.
pub fn unfolds_are_followed()
    ensures new_symbol { MayLead unfolds_a_symbol of_one_fact (symbol 0 ∷ [])
        (first_state unfolds_a_symbol (symbol 0 ∷ []) empty (p_fact (symbol 0) ∷ []) 1)
        (goes_on_to (next_state unfolds_a_symbol (symbol 0 ∷ []) (one_cell (symbol 1)) [] 2)) }
    ensures same_key_twice { (out : _) → ¬ MayLead unfolds_it (has_it_twice (uses (p_use a) ∷ [])) (symbol 0 ∷ [])
        (first_state unfolds_it (symbol 0 ∷ []) (one_cell (number_value 1)) (p_fact (symbol 0) ∷ []) 1) out }
{}

/// A specification that uses itself, and whose checked runs have no fault, holds: of each run that ends.
pub fn what_is_verified_holds()
    ensures { SpecHolds asks_itself Record no_memory says_zero }
{}
