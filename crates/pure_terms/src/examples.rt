//! Rows that show what the definitions of values, truth, kinds, the fragment and folding mean.
ghost use Rattle.std.specs.Prelude.{◌≡◌, ◌+◌, ◌-◌, ◌^◌, [], ◌∷◌, ◌++◌, map, pos, negsuc, true, false, Some, None, codes};
ghost use Rattle.gil_values.specs.declared.kinds.Kind.{Kind};
ghost use Rattle.gil_values.specs.declared.operators.BinOp.{BinOp};
ghost use Rattle.gil_values.specs.declared.operators.UnOp.{UnOp};
ghost use Rattle.gil_values.specs.Pure.{integer, boolean, symbol, kind, list, no_values};
ghost use Rattle.pure_terms.specs.declared.literals.Literal.{Literal};
ghost use Rattle.pure_terms.specs.declared.variables.Sort.{Sort};
ghost use Rattle.pure_terms.specs.Deciding.{has_wide_arithmetic};
ghost use Rattle.pure_terms.specs.Folding.{folded_unary, folded_binary};
ghost use Rattle.pure_terms.specs.Fragment.{is_simple, has_fragment_form, has_narrow_literals, variable_count};
ghost use Rattle.pure_terms.specs.Kinds.{known_kind};
ghost use Rattle.pure_terms.specs.Meaning.{value, truth, IsProper, Satisfies, IsUnsatisfiable};
ghost use Rattle.pure_terms.specs.Pure.{literal, list_of, no_terms, binary_of, unary_of, positive, negative, opening};
ghost use Rattle.pure_terms.specs.Examples.{
  number,
  truth_of,
  kind_term,
  of_sort,
  x,
  y,
  b,
  any,
  list_variable,
  pair,
  plus,
  minus,
  over,
  equals,
  at_most,
  opposite,
  kind_term_of,
  one_by_zero_is_one,
  list_then_fresh,
  fresh_then_list,
  list_of_seven,
  x_is_one,
  x_is_none,
  one_of_each,
};

/// A term without a value makes no atom true; an open atom is true wherever its term has a value.
pub fn undefined_terms_are_neither()
    ensures holds { truth [] (positive one_by_zero_is_one) ≡ false }
    ensures fails { truth [] (negative one_by_zero_is_one) ≡ false }
    ensures opens { truth [] (opening one_by_zero_is_one) ≡ false }
    ensures not_of_undefined { truth [] (negative (opposite one_by_zero_is_one)) ≡ false }
    ensures not_of_number { truth [] (negative (opposite (number 0))) ≡ false }
    ensures number_is_not_false { truth [] (negative (number 0)) ≡ false }
    ensures number_is_open { truth [] (opening (number 0)) ≡ true }
    ensures unknown_variable { truth [] (opening x) ≡ false }
    ensures true_holds { truth (boolean true ∷ []) (positive b) ≡ true }
    ensures true_does_not_fail { truth (boolean true ∷ []) (negative b) ≡ false }
    ensures false_fails { truth (boolean false ∷ []) (negative b) ≡ true }
    ensures false_does_not_hold { truth (boolean false ∷ []) (positive b) ≡ false }
    ensures false_is_open { truth (boolean false ∷ []) (opening b) ≡ true }
{}

/// Operators have the values of the operator table, and `kind` one at each value.
pub fn values_are_those_of_the_table()
    ensures sum { value (integer (pos 40) ∷ []) (plus x (number 2)) ≡ Some (integer (pos 42)) }
    ensures difference { value (integer (pos 1) ∷ integer (pos 3) ∷ []) (minus x y) ≡ Some (integer (negsuc 1)) }
    ensures both_sides { value [] (binary_of BinOp.And (truth_of false) one_by_zero_is_one) ≡ None }
    ensures list { value (symbol 7 ∷ []) (equals (pair (of_sort Sort.Fresh 0) (number 1)) (pair (of_sort Sort.Fresh 0) (number 1))) ≡ Some
        (boolean true) }
    ensures wrong_kind { value (boolean true ∷ []) (plus b (number 2)) ≡ None }
    ensures kinds { map (λ v. value (v ∷ []) (kind_term_of any)) one_of_each
        ≡ map (λ k. Some (kind k)) (Kind.Int ∷ Kind.Bool ∷ Kind.Str ∷ Kind.Sym ∷ Kind.Kind ∷ Kind.Proc ∷ Kind.List ∷ []) }
{}

/// Which terms are simple.
pub fn some_terms_are_simple()
    ensures shifted { is_simple (plus x (number 2)) ≡ true }
    ensures shifted_back { is_simple (minus x (number 2)) ≡ true }
    ensures nested { is_simple (pair (pair x b) (plus x (number 2))) ≡ true }
    ensures literal_first { is_simple (plus (number 2) x) ≡ false }
    ensures two_variables { is_simple (plus x y) ≡ false }
    ensures two_shifts { is_simple (plus (plus x (number 2)) (number 3)) ≡ false }
    ensures boolean_literal { is_simple (plus x (truth_of true)) ≡ false }
    ensures any_variable { is_simple (plus any (number 2)) ≡ false }
    ensures kind { is_simple (kind_term_of any) ≡ false }
{}

/// Which atoms have a form of the fragment.
pub fn some_atoms_have_forms()
    ensures boolean { has_fragment_form (positive b) ≡ true }
    ensures boolean_fails { has_fragment_form (negative b) ≡ true }
    ensures open { has_fragment_form (opening b) ≡ false }
    ensures literal { has_fragment_form (positive (truth_of true)) ≡ false }
    ensures twice_not { has_fragment_form (positive (opposite (opposite b))) ≡ false }
    ensures integer { has_fragment_form (positive x) ≡ false }
    ensures any { has_fragment_form (positive any) ≡ false }
    ensures equality { has_fragment_form (positive (equals (pair x (number 1)) (pair (number 2) y))) ≡ true }
    ensures order { has_fragment_form (positive (at_most (plus x (number 2)) y)) ≡ true }
    ensures order_of_booleans { has_fragment_form (positive (at_most b (number 2))) ≡ false }
    ensures order_of_any { has_fragment_form (positive (at_most any (number 2))) ≡ false }
    ensures sum { has_fragment_form (positive (equals (plus x y) (number 1))) ≡ false }
    ensures list_variable { has_fragment_form (positive (equals list_variable (pair x y))) ≡ false }
    ensures kind { has_fragment_form (negative (equals (kind_term_of any) (kind_term Kind.Null))) ≡ true }
    ensures kind_of_integer { has_fragment_form (positive (equals (kind_term_of x) (kind_term Kind.Int))) ≡ false }
    ensures kind_second { has_fragment_form (positive (equals (kind_term Kind.Null) (kind_term_of any))) ≡ false }
    ensures kind_of_two { has_fragment_form (positive (equals (kind_term_of any) (kind_term_of any))) ≡ false }
    ensures any_and_literal { has_fragment_form (positive (equals any (number 1))) ≡ true }
    ensures any_and_variable { has_fragment_form (negative (equals y any)) ≡ true }
    ensures any_and_shift { has_fragment_form (positive (equals any (plus y (number 1)))) ≡ false }
    ensures any_and_list { has_fragment_form (positive (equals any (pair y y))) ≡ false }
    ensures any_in_a_list { has_fragment_form (positive (equals (pair any y) (pair y y))) ≡ false }
{}

/// The limits of the fragment on literals, and how variables are counted.
pub fn limits_of_the_fragment()
    ensures widest { has_narrow_literals (positive (at_most x (number (2 ^ 80)))) ≡ true }
    ensures too_wide { has_narrow_literals (positive (at_most x (number (2 ^ 80 + 1)))) ≡ false }
    ensures lowest { has_narrow_literals (positive (at_most x (literal (Literal.Int (negsuc (2 ^ 80 - 1)))))) ≡ true }
    ensures too_low { has_narrow_literals (positive (at_most x (literal (Literal.Int (negsuc (2 ^ 80)))))) ≡ false }
    ensures within_a_list { has_narrow_literals (positive (equals (pair x y) (pair x (number (2 ^ 80 + 1))))) ≡ false }
    ensures counted_once { variable_count (positive (at_most x y) ∷ negative (equals (plus y (number 1)) x) ∷ []) ≡ 2 }
    ensures wide { has_wide_arithmetic (positive (equals x (plus (number (2 ^ 127 - 1)) (number 1)))) ≡ true }
    ensures not_wide { has_wide_arithmetic (positive (equals x (plus (number (2 ^ 127 - 1)) x))) ≡ false }
{}

/// What form and sorts tell of a term's kind.
pub fn some_kinds_are_known()
    ensures fresh { known_kind (of_sort Sort.Fresh 0) ≡ Some Kind.Sym }
    ensures any { known_kind any ≡ None }
    ensures list { known_kind (pair any any) ≡ Some Kind.List }
    ensures sum { known_kind (plus any any) ≡ Some Kind.Int }
    ensures joined_left { known_kind (binary_of BinOp.Append (pair x y) any) ≡ Some Kind.List }
    ensures joined_right { known_kind (binary_of BinOp.Append any (literal (Literal.Str (codes "a")))) ≡ Some Kind.Str }
    ensures joined_any { known_kind (binary_of BinOp.Append any any) ≡ None }
    ensures element { known_kind (binary_of BinOp.Nth (pair x y) (number 0)) ≡ None }
{}

/// What folding puts in the place of an operator's term.
pub fn some_terms_fold()
    ensures literals { folded_binary BinOp.Multiply (number 6) (number 7) ≡ number 42 }
    ensures unary_literal { folded_unary UnOp.Not (truth_of true) ≡ truth_of false }
    ensures fault { folded_binary BinOp.Divide (number 6) (number 0) ≡ over (number 6) (number 0) }
    ensures too_wide { folded_binary BinOp.Add (number (2 ^ 127 - 1)) (number 1) ≡ plus (number (2 ^ 127 - 1)) (number 1) }
    ensures added { folded_binary BinOp.Add (plus x (number 2)) (number 5) ≡ plus x (number 7) }
    ensures taken_back { folded_binary BinOp.Add (minus x (number 2)) (number 5) ≡ plus x (number 3) }
    ensures taken { folded_binary BinOp.Subtract (minus x (number 2)) (number 5) ≡ minus x (number 7) }
    ensures joined_too_wide { folded_binary BinOp.Add (plus x (number (2 ^ 127 - 1))) (number 1) ≡ plus (plus x (number (2 ^ 127 - 1))) (number 1) }
    ensures kept { folded_binary BinOp.Subtract x (number 2) ≡ minus x (number 2) }
    ensures element { folded_binary BinOp.Nth (pair x y) (number 1) ≡ y }
    ensures no_element { folded_binary BinOp.Nth (pair x y) (number 2) ≡ binary_of BinOp.Nth (pair x y) (number 2) }
    ensures twice_not { folded_unary UnOp.Not (opposite b) ≡ b }
    ensures twice_neg { folded_unary UnOp.Neg (unary_of UnOp.Neg x) ≡ unary_of UnOp.Neg (unary_of UnOp.Neg x) }
{}

/// The symbol of a fresh variable occurs in no value of a lower variable, and may occur in one of a higher variable.
pub fn some_valuations_are_proper()
    ensures below { ¬ IsProper list_then_fresh (list_of_seven ∷ symbol 7 ∷ []) }
    ensures above { IsProper fresh_then_list (symbol 7 ∷ list_of_seven ∷ []) }
    ensures too_few { ¬ IsProper fresh_then_list (symbol 7 ∷ []) }
    ensures other_sort { ¬ IsProper (Sort.Int ∷ []) (boolean true ∷ []) }
{}

/// Which lists some valuation satisfies.
pub fn some_lists_have_solutions()
    ensures one { Satisfies (Sort.Int ∷ []) (integer (pos 1) ∷ []) x_is_one }
    ensures not_two { ¬ Satisfies (Sort.Int ∷ []) (integer (pos 2) ∷ []) x_is_one }
    ensures none { IsUnsatisfiable (Sort.Int ∷ []) x_is_none }
{}
