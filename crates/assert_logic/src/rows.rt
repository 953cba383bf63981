//! Rows that show how assertions are read and what matching does: small predicates, assertions and states, and where matching
//! stops.
ghost use Rattle.std.specs.Prelude.{◌≡◌, pos, [], ◌∷◌, codes, Some, None};
ghost use Rattle.gil_values.specs.Pure.{integer, symbol};
ghost use Rattle.gil_syntax.specs.Examples.{number};
ghost use Rattle.gil_syntax.specs.Pure.{name};
ghost use Rattle.assert_logic.specs.declared.checking.ModeKind.TheVariants.{In, Out, Core};
ghost use Rattle.assert_logic.specs.LogicStates.{nothing};
ghost use Rattle.assert_logic.specs.Matching.{took_fact, took_case, match_assertion, match_fold};
ghost use Rattle.assert_logic.specs.Rows.{
  x,
  of_v,
  of_w,
  equals,
  q_of,
  zero_or_one,
  above_it,
  r_of,
  list_at,
  linked_list,
  of_itself,
  x_is,
  two_outs,
  one_cell,
  logicals,
  null,
  stop_at,
  fault_before,
  fault_behind,
  fault_inside,
  at_most_one,
  one_more,
  cell_at,
  next_of,
  ret,
  taken_by,
  taken_in,
};

/// Items are read from left to right: a name is known once an item gave it its value. The result is known in postconditions alone,
/// and program variables in logic commands.
pub fn items_are_read_in_order()
    ensures given { fault_before (equals of_v 1 ∷ at_most_one of_v ∷ []) ≡ None }
    ensures unknown { fault_before (at_most_one of_v ∷ equals of_v 1 ∷ []) ≡ Some In }
    ensures out { fault_before (next_of x of_v ∷ next_of of_v (one_more of_v) ∷ []) ≡ None }
    ensures no_out { fault_before (next_of x (one_more of_v) ∷ []) ≡ Some Out }
    ensures lowest { fault_before (next_of of_v (one_more of_v) ∷ []) ≡ Some In }
    ensures other_memory { fault_before (cell_at x ∷ []) ≡ Some Core }
    ensures no_result { fault_before (equals ret 0 ∷ []) ≡ Some In }
    ensures result { fault_behind (equals ret 0 ∷ []) ≡ None }
    ensures other_name { fault_behind (equals (name (codes "y")) 0 ∷ []) ≡ Some In }
    ensures variable { fault_inside (equals (name (codes "y")) 0 ∷ []) ≡ None }
    ensures result_inside { fault_inside (equals ret 0 ∷ []) ≡ Some In }
{}

/// Of two facts with the same ins the first is taken, and no choice is taken back; an out that is known decides.
pub fn the_first_fact_is_taken()
    ensures stops { stop_at [] (q_of of_v ∷ q_of of_w ∷ equals of_v 1 ∷ []) (integer (pos 0)) two_outs ≡ Some 2 }
    ensures known { taken_by (match_assertion [] logicals (q_of (number 1) ∷ q_of of_w ∷ []) (x_is (integer (pos 0))) two_outs)
        ≡ took_fact 1 ∷ took_fact 0 ∷ [] }
    ensures other { stop_at [] (q_of (number 2) ∷ []) (integer (pos 0)) two_outs ≡ Some 0 }
    ensures other_in { stop_at [] (q_of (number 0) ∷ []) (integer (pos 1)) two_outs ≡ Some 0 }
{}

/// Without a fact the first case that matches is taken; a known out is given to the cases.
pub fn the_first_case_is_taken()
    ensures stops { stop_at (zero_or_one ∷ []) (q_of of_v ∷ equals of_v 1 ∷ []) (integer (pos 5)) nothing ≡ Some 1 }
    ensures known { taken_by (match_assertion (zero_or_one ∷ []) logicals (q_of (number 1) ∷ []) (x_is (integer (pos 5))) nothing)
        ≡ took_case 1 (None ∷ []) ∷ [] }
{}

/// The uses in a case match facts alone, so a cell that ends in null isn't seen as a list, and no predicate is taken for
/// granted; where `fold` matches a case, its uses are tried once more.
pub fn cases_are_tried_once()
    ensures stops { stop_at (linked_list ∷ []) (list_at x ∷ []) (symbol 7) one_cell ≡ Some 0 }
    ensures stops_above { stop_at (zero_or_one ∷ above_it ∷ []) (r_of x ∷ []) (integer (pos 5)) nothing ≡ Some 0 }
    ensures folds { taken_in (match_fold (zero_or_one ∷ above_it ∷ []) (codes "r") (integer (pos 5) ∷ []) [] nothing)
        ≡ Some (took_case 0 (None ∷ [])) }
    ensures empty { stop_at (linked_list ∷ []) (list_at x ∷ []) null nothing ≡ None }
    ensures itself { taken_in (match_fold (of_itself ∷ []) (codes "p") (symbol 7 ∷ []) [] nothing) ≡ None }
{}
