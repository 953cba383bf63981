//! Rows that show what each step of a checked run leads to: a small program with one command of interest, a state, and the
//! outcome.
ghost use Rattle.std.specs.Prelude.{◌≡◌, pos, [], ◌∷◌, codes, true, None};
ghost use Rattle.std.specs.FinMap.{empty};
ghost use Rattle.gil_values.specs.declared.kinds.Kind.TheVariants.{Int};
ghost use Rattle.gil_values.specs.Pure.{boolean, procedure};
ghost use Rattle.gil_syntax.specs.Examples.{number};
ghost use Rattle.gil_syntax.specs.Pure.{literal, name, assign, call, isym, return, fail, throw, vanish, fold_use, unfold_use, assert_that, loop_invariant};
ghost use Rattle.checked_runs.specs.Checked.{goes_on_to, is_over, has_fault, fails, post, invariant, call_precondition, fold_body};
ghost use Rattle.checked_runs.specs.Rows.{
  a,
  equals,
  q_of,
  number_value,
  state_with,
  at_five,
  fact_q,
  gone_heap,
  LeadsTo,
  at_next,
  passed_with,
  drawn,
  called,
  passed_listing_a,
};

/// A return leaves what a postcondition tells of the values at entry and of the result, and nothing else; so does a throw of
/// an error postcondition. A failure is a fault, and what vanishes is not looked at.
pub fn only_what_is_told_may_be_left()
    ensures returns { LeadsTo (return a) at_five is_over }
    ensures other_result { LeadsTo (return (number 6)) at_five (has_fault post) }
    ensures current_value { LeadsTo (return a) (state_with (number_value 6) empty [] []) (has_fault post) }
    ensures fact_left { LeadsTo (return a) (state_with (number_value 5) empty (fact_q ∷ []) []) (has_fault post) }
    ensures key_left { LeadsTo (return a) (state_with (number_value 5) gone_heap [] []) (has_fault post) }
    ensures throws { LeadsTo (throw (number 7)) at_five is_over }
    ensures other_throw { LeadsTo (throw a) at_five (has_fault post) }
    ensures fails { LeadsTo (fail a) at_five (has_fault (fails (number_value 5))) }
    ensures vanishes { LeadsTo vanish at_five is_over }
{}

/// `assert` is matched and changes nothing; `fold` takes a case and leaves the fact, and folds no core predicate; `unfold` has a
/// fault where no fact has these ins and outs.
pub fn folds_and_asserts_are_matched()
    ensures asserts { LeadsTo (assert_that (equals a 5 ∷ [])) at_five (goes_on_to (at_next at_five)) }
    ensures asserts_not { LeadsTo (assert_that (equals a 6 ∷ [])) at_five (has_fault fold_body) }
    ensures folds { LeadsTo (fold_use (q_of 0 1)) at_five
        (goes_on_to (at_next (state_with (number_value 5) empty (fact_q ∷ []) []))) }
    ensures folds_not { LeadsTo (fold_use (q_of 0 2)) at_five (has_fault fold_body) }
    ensures no_fact { LeadsTo (unfold_use (q_of 0 1)) at_five (has_fault fold_body) }
    ensures other_outs { LeadsTo (unfold_use (q_of 0 0)) (state_with (number_value 5) empty (fact_q ∷ []) []) (has_fault fold_body) }
{}

/// A call of a procedure that has a specification asks for the arguments' sorts and for the precondition.
pub fn calls_ask_for_the_precondition()
    ensures sorts { LeadsTo (call (codes "y") (literal (procedure (codes "g"))) (literal (boolean true) ∷ []) None) at_five
        (has_fault call_precondition) }
    ensures unmet { LeadsTo (call (codes "y") (literal (procedure (codes "g"))) (number 4 ∷ []) None) at_five
        (has_fault call_precondition) }
{}

/// At an invariant each listed variable has a value, and the assertion is matched; when it is reached again, what is left and
/// the variables that aren't listed are as they were.
pub fn invariants_are_asked()
    ensures unset { LeadsTo (loop_invariant (codes "i" ∷ []) [] []) at_five (has_fault invariant) }
    ensures unmatched { LeadsTo (loop_invariant [] [] (equals a 6 ∷ [])) at_five (has_fault invariant) }
    ensures again { LeadsTo (loop_invariant [] [] []) (state_with (number_value 5) empty [] (passed_with (number_value 5) ∷ [])) is_over }
    ensures listed { LeadsTo (loop_invariant (codes "a" ∷ []) [] [])
        (state_with (number_value 6) empty [] (record (passed_with (number_value 5)) { unlisted = [] } ∷ [])) is_over }
    ensures changed { LeadsTo (loop_invariant [] [] []) (state_with (number_value 6) empty [] (passed_with (number_value 5) ∷ []))
        (has_fault invariant) }
    ensures fact_left { LeadsTo (loop_invariant [] [] [])
        (state_with (number_value 5) empty (fact_q ∷ []) (passed_with (number_value 5) ∷ [])) (has_fault invariant) }
{}

/// A draw is any value of its kind, and the result of a call by specification any value that a postcondition allows. At the first
/// visit of an invariant each listed variable gets any value, and what was left is kept for the next visit.
pub fn what_is_not_told_may_be_anything()
    ensures result { LeadsTo (call (codes "y") (literal (procedure (codes "g"))) (number 3 ∷ []) None) at_five (goes_on_to (called 8)) }
    ensures draws { LeadsTo (isym (codes "y") Int) at_five (goes_on_to (drawn 8)) }
    ensures listed { LeadsTo (loop_invariant (codes "a" ∷ []) [] []) at_five
        (goes_on_to (at_next (state_with (number_value 6) empty [] (passed_listing_a ∷ [])))) }
{}
