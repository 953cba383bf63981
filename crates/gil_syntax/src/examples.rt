//! Rows that show what the definitions of evaluation, of valid programs and of simple programs mean.
ghost use Rattle.std.specs.Prelude.{◌≡◌, negsuc, ◌-◌, ◌^◌, [], ◌∷◌, codes, true, false, pos, Ok, Err};
ghost use Rattle.gil_values.specs.declared.operators.BinOp.TheVariants.{Add, Subtract, Multiply, Divide, And, Nth, Equal, Less};
ghost use Rattle.gil_values.specs.declared.operators.UnOp.TheVariants.{Not};
ghost use Rattle.gil_values.specs.declared.kinds.Kind.TheVariants.{Sym};
ghost use Rattle.gil_values.specs.Pure.{integer, boolean, symbol, procedure, list, no_values};
ghost use Rattle.gil_values.specs.Operators.{wrong_kind, zero_divisor, unset_variable};
ghost use Rattle.gil_syntax.specs.declared.validity.InvalidKind.TheVariants.{
  Duplicate,
  BadLabel,
  NoEnd,
  UnknownName,
  Arity,
  TooMany,
};
ghost use Rattle.gil_syntax.specs.Pure.{pure, literal, name, logical, isym, unary_of, binary_of, assign, ifgoto, fail, throw, assert_that, loop_invariant};
ghost use Rattle.gil_syntax.specs.Evaluation.{evaluate, bind};
ghost use Rattle.gil_syntax.specs.Simple.{is_simple, is_narrow};
ghost use Rattle.gil_syntax.specs.Valid.{fault_at, IsValid};
ghost use Rattle.gil_syntax.specs.WellMade.{is_well_made};
ghost use Rattle.gil_syntax.specs.Examples.{
  number,
  words,
  x,
  list_of_two,
  one_by_zero,
  items_at_fault,
  two_of_one_name,
  jumps_to,
  ends_open,
  with_spec,
  any_x,
  shape_without_out,
  shape_of_undeclared,
  returns_value,
  compares_input,
  calls_nothing,
  calls_with,
  catches_at,
  with_error,
  does_action,
  any_y,
  any_d,
  with_post,
  of_two,
  with_pred,
  main_does,
  main_only,
  program,
  with_variable,
  empty_procs,
  many_params,
  a_cell,
  use_of_other,
};

/// The first fault from the left counts, both operands are evaluated, and kinds are tested before zero.
pub fn the_first_fault_counts()
    ensures zero_first { evaluate (list_of_two one_by_zero x) [] ≡ Err zero_divisor }
    ensures unset_first { evaluate (list_of_two x one_by_zero) [] ≡ Err unset_variable }
    ensures both { evaluate (binary_of And (literal (boolean false)) one_by_zero) [] ≡ Err zero_divisor }
    ensures kind_first { evaluate (binary_of Divide (words (codes "a")) (number 0)) [] ≡ Err wrong_kind }
{}

/// A name has the value that it was given last.
pub fn the_newest_value_counts()
    ensures { evaluate x (bind (codes "x") (integer (pos 2)) (bind (codes "x") (integer (pos 1)) [])) ≡ Ok (integer (pos 2)) }
{}

/// Programs with one fault of each kind, and the items that have it.
pub fn faults_are_at_items()
    ensures later_of_one_name { items_at_fault two_of_one_name Duplicate ≡ 1 ∷ [] }
    ensures label_at_the_end { items_at_fault (jumps_to 2) BadLabel ≡ 0 ∷ [] }
    ensures label_in_the_body { items_at_fault (jumps_to 1) BadLabel ≡ [] }
    ensures open_end { items_at_fault ends_open NoEnd ≡ 0 ∷ [] }
    ensures no_procedure { items_at_fault (with_spec (codes "other") [] []) UnknownName ≡ 1 ∷ [] }
    ensures undeclared { items_at_fault (with_spec (codes "main") [] (shape_of_undeclared ∷ [])) UnknownName ≡ 1 ∷ [] }
    ensures other_parameters { items_at_fault (with_spec (codes "main") (any_x ∷ []) []) Arity ≡ 1 ∷ [] }
    ensures other_outs { items_at_fault (with_spec (codes "main") [] (shape_without_out ∷ [])) Arity ≡ 1 ∷ [] }
    ensures parameter_twice { items_at_fault (with_spec (codes "main") (any_x ∷ any_x ∷ []) []) Duplicate ≡ 1 ∷ [] }
    ensures wide_literal { items_at_fault (returns_value (number (2 ^ 63))) TooMany ≡ 0 ∷ [] }
    ensures widest_literal { items_at_fault (returns_value (number (2 ^ 63 - 1))) TooMany ≡ [] }
{}

/// A name stands once in a list of items and once in a list of parameters or of variables.
pub fn names_stand_once()
    ensures core_predicate { items_at_fault (with_pred (codes "cell") [] [] []) Duplicate ≡ 1 ∷ [] }
    ensures in_two_lists { items_at_fault (with_spec (codes "main") [] []) Duplicate ≡ [] }
    ensures ins { items_at_fault (with_pred (codes "p") (any_x ∷ any_x ∷ []) [] []) Duplicate ≡ 1 ∷ [] }
    ensures in_and_out { items_at_fault (with_pred (codes "p") (any_x ∷ []) (any_x ∷ []) []) Duplicate ≡ [] }
    ensures logicals { items_at_fault (with_post (any_d ∷ any_d ∷ []) []) Duplicate ≡ 1 ∷ [] }
    ensures variables { items_at_fault (main_does (loop_invariant (codes "x" ∷ codes "x" ∷ []) [] [])) Duplicate ≡ 0 ∷ [] }
    ensures of_the_specification { items_at_fault (with_variable (loop_invariant [] (any_d ∷ []) [])) Duplicate ≡ [] }
    ensures declared { items_at_fault (main_does (loop_invariant [] (any_d ∷ any_d ∷ []) [])) Duplicate ≡ 0 ∷ [] }
{}

/// A label is one of the body's places, and the last command ends the body.
pub fn bodies_end()
    ensures negative_label { items_at_fault (main_does (ifgoto x (negsuc 0))) BadLabel ≡ 0 ∷ [] }
    ensures vanish_ends { items_at_fault (main_does (assign (codes "x") x)) NoEnd ≡ [] }
    ensures fail_ends { items_at_fault (main_only (fail x ∷ [])) NoEnd ≡ [] }
    ensures throw_ends { items_at_fault (main_only (throw x ∷ [])) NoEnd ≡ [] }
    ensures call_ends_nothing { items_at_fault (main_only (catches_at (pos 0) ∷ [])) NoEnd ≡ 0 ∷ [] }
    ensures no_command { items_at_fault (main_only []) NoEnd ≡ 0 ∷ [] }
{}

/// The label of a handler is one of the body's places.
pub fn handlers_have_places()
    ensures in_the_body { items_at_fault (main_does (catches_at (pos 1))) BadLabel ≡ [] }
    ensures at_the_end { items_at_fault (main_does (catches_at (pos 2))) BadLabel ≡ 0 ∷ [] }
    ensures negative { items_at_fault (main_does (catches_at (negsuc 0))) BadLabel ≡ 0 ∷ [] }
{}

/// An error postcondition is an assertion of its specification like another.
pub fn errors_are_assertions()
    ensures undeclared { items_at_fault (with_error (shape_of_undeclared ∷ [])) UnknownName ≡ 1 ∷ [] }
    ensures of_no_predicate { items_at_fault (with_error (use_of_other ∷ [])) UnknownName ≡ 1 ∷ [] }
    ensures other_outs { items_at_fault (with_error (shape_without_out ∷ [])) Arity ≡ 1 ∷ [] }
    ensures wide_literal { items_at_fault (with_error (pure (number (2 ^ 63)) ∷ [])) TooMany ≡ 1 ∷ [] }
    ensures literal_symbol { is_well_made (with_error (pure (literal (symbol 0)) ∷ [])) ≡ false }
{}

/// Logical variables are declared where they are named, and predicates are defined.
pub fn names_stand_for_something()
    ensures in_a_command { items_at_fault (main_does (assert_that (use_of_other ∷ []))) UnknownName ≡ 0 ∷ [] }
    ensures in_a_predicate { items_at_fault (with_pred (codes "p") [] [] (use_of_other ∷ [])) UnknownName ≡ 1 ∷ [] }
    ensures defined { items_at_fault (with_pred (codes "other") (any_x ∷ []) [] (use_of_other ∷ [])) UnknownName ≡ [] }
    ensures in_a_postcondition { items_at_fault (with_post [] (shape_of_undeclared ∷ [])) UnknownName ≡ 1 ∷ [] }
    ensures declared_there { items_at_fault (with_post (any_d ∷ []) (shape_of_undeclared ∷ [])) UnknownName ≡ [] }
    ensures of_the_specification { items_at_fault (with_variable (assert_that (shape_of_undeclared ∷ []))) UnknownName ≡ [] }
    ensures of_no_specification { items_at_fault (main_does (assert_that (shape_of_undeclared ∷ []))) UnknownName ≡ 0 ∷ [] }
    ensures of_the_invariant { items_at_fault (main_does (loop_invariant [] (any_d ∷ []) (shape_of_undeclared ∷ []))) UnknownName ≡ [] }
    ensures of_another_name { items_at_fault (main_does (loop_invariant (codes "#d" ∷ []) [] (shape_of_undeclared ∷ []))) UnknownName ≡ 0 ∷ [] }
    ensures in_no_assertion { items_at_fault (with_variable (assign (codes "x") (logical (codes "#d")))) UnknownName ≡ 0 ∷ [] }
{}

/// Parameters are the procedure's by name and in order, and predicates have their numbers of ins and outs.
pub fn parameters_fit()
    ensures same_order { items_at_fault (of_two (any_x ∷ any_y ∷ [])) Arity ≡ [] }
    ensures other_order { items_at_fault (of_two (any_y ∷ any_x ∷ [])) Arity ≡ 1 ∷ [] }
    ensures other_name { items_at_fault (of_two (any_x ∷ any_d ∷ [])) Arity ≡ 1 ∷ [] }
    ensures too_few { items_at_fault (of_two (any_x ∷ [])) Arity ≡ 1 ∷ [] }
    ensures in_a_postcondition { items_at_fault (with_post [] (shape_without_out ∷ [])) Arity ≡ 1 ∷ [] }
    ensures cell { items_at_fault (main_does (assert_that (a_cell ∷ []))) Arity ≡ [] }
    ensures other_ins { items_at_fault (with_pred (codes "other") [] [] (use_of_other ∷ [])) Arity ≡ 1 ∷ [] }
{}

/// Programs at their limits and past them.
pub fn programs_have_limits()
    ensures last_item { fault_at (program (empty_procs 1001)) TooMany 999 ≡ false }
    ensures one_item_too_many { fault_at (program (empty_procs 1001)) TooMany 1000 ≡ true }
    ensures most_parameters { items_at_fault (with_pred (codes "p") (many_params 63) (any_x ∷ []) []) TooMany ≡ [] }
    ensures one_parameter_too_many { items_at_fault (with_pred (codes "p") (many_params 64) (any_x ∷ []) []) TooMany ≡ 1 ∷ [] }
    ensures most_variables { items_at_fault (with_post (many_params 64) []) TooMany ≡ [] }
    ensures one_variable_too_many { items_at_fault (with_post (many_params 65) []) TooMany ≡ 1 ∷ [] }
    ensures least_literal { items_at_fault (returns_value (literal (integer (negsuc (2 ^ 63 - 1))))) TooMany ≡ [] }
    ensures below_the_least { items_at_fault (returns_value (literal (integer (negsuc (2 ^ 63))))) TooMany ≡ 0 ∷ [] }
{}

/// A program without faults.
pub fn a_program_is_valid()
    ensures { IsValid compares_input }
{}

/// What a well-made program has no literal, draw or name of.
pub fn some_programs_are_well_made()
    ensures comparing { is_well_made compares_input ≡ true }
    ensures declared { is_well_made (with_post (any_d ∷ []) (shape_of_undeclared ∷ [])) ≡ true }
    ensures literal_symbol { is_well_made (returns_value (literal (symbol 0))) ≡ false }
    ensures literal_list { is_well_made (returns_value (literal (list no_values))) ≡ false }
    ensures literal_within { is_well_made (returns_value (list_of_two x (literal (symbol 0)))) ≡ false }
    ensures drawn_symbol { is_well_made (main_does (isym (codes "x") Sym)) ≡ false }
    ensures assigned_logical { is_well_made (main_does (assign (codes "#x") (number 0))) ≡ false }
    ensures program_name { is_well_made (returns_value (name (codes "#x"))) ≡ false }
    ensures logical_name { is_well_made (main_does (assert_that (pure (logical (codes "d")) ∷ []))) ≡ false }
    ensures parameter { is_well_made (with_spec (codes "main") (any_d ∷ []) []) ≡ false }
    ensures logical_variable { is_well_made (with_post (any_x ∷ []) []) ≡ false }
{}

/// Values, guards and arguments that are of simple form or not.
pub fn some_values_are_simple()
    ensures subtracting { is_simple (returns_value (binary_of Subtract x (number 1))) ≡ true }
    ensures adding_a_variable { is_simple (returns_value (binary_of Add x x)) ≡ false }
    ensures element { is_simple (returns_value (binary_of Nth x (number 0))) ≡ true }
    ensures element_in_a_list { is_simple (returns_value (list_of_two x (binary_of Nth x (number 0)))) ≡ false }
    ensures guard_under_not { is_simple (main_does (ifgoto (unary_of Not (binary_of Less x x)) (pos 0))) ≡ true }
    ensures twice_under_not { is_simple (main_does (ifgoto (unary_of Not (unary_of Not x)) (pos 0))) ≡ false }
    ensures failing_value { is_simple (main_does (fail (binary_of Multiply x x))) ≡ false }
    ensures thrown_value { is_simple (main_does (throw (binary_of Multiply x x))) ≡ false }
    ensures simple_thrown_value { is_simple (main_does (throw (binary_of Add x (number 1)))) ≡ true }
    ensures caught { is_simple (main_does (catches_at (pos 1))) ≡ true }
    ensures argument { is_simple (calls_with (binary_of Add x (number 1))) ≡ true }
    ensures other_argument { is_simple (calls_with (binary_of Multiply x x)) ≡ false }
{}

/// A narrow program has no arithmetic, no order and no list but the names of a new record.
pub fn some_values_are_narrow()
    ensures adding { is_narrow (returns_value (binary_of Add x (number 1))) ≡ false }
    ensures subtracting { is_narrow (returns_value (binary_of Subtract x (number 1))) ≡ false }
    ensures element { is_narrow (returns_value (binary_of Nth x (number 0))) ≡ false }
    ensures less { is_narrow (main_does (ifgoto (binary_of Less x x) (pos 0))) ≡ false }
    ensures equal { is_narrow (main_does (ifgoto (binary_of Equal x x) (pos 0))) ≡ true }
    ensures list { is_narrow (returns_value (list_of_two x x)) ≡ false }
    ensures argument { is_narrow (calls_with (binary_of Subtract x (number 1))) ≡ false }
    ensures thrown_sum { is_narrow (main_does (throw (binary_of Add x (number 1)))) ≡ false }
    ensures thrown_list { is_narrow (main_does (throw (list_of_two x x))) ≡ false }
{}

/// Programs that are simple, narrow, or neither.
pub fn some_programs_are_simple()
    ensures comparing { is_simple compares_input ≡ true }
    ensures comparing_is_not_narrow { is_narrow compares_input ≡ false }
    ensures adding { is_simple (returns_value (binary_of Add x (number 1))) ≡ true }
    ensures multiplying { is_simple (returns_value (binary_of Multiply x (number 2))) ≡ false }
    ensures unknown_callee { is_simple (calls_nothing x) ≡ false }
    ensures known_callee { is_narrow (calls_nothing (literal (procedure (codes "main")))) ≡ true }
    ensures unknown_size { is_simple (does_action (codes "alloc") x) ≡ false }
    ensures known_names { is_narrow (does_action (codes "new") (list_of_two (words (codes "a")) (words (codes "b")))) ≡ true }
    ensures unknown_names { is_narrow (does_action (codes "new") (list_of_two x x)) ≡ false }
    ensures disposing { is_narrow (does_action (codes "dispose") x) ≡ false }
{}
