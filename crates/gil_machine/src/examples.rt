//! Rows that show what a run is: each is a small program, its inputs, a bound and the end that it comes to.
ghost use Rattle.std.specs.FinMap.{empty};
ghost use Rattle.std.specs.Prelude.{◌≡◌, ◌-◌, ◌^◌, pos, negsuc, [], ◌∷◌, codes, true, false};
ghost use Rattle.gil_values.specs.Pure.{integer, boolean, text, symbol, list, from_list};
ghost use Rattle.gil_syntax.specs.Examples.{number, words, x, one_by_zero};
ghost use Rattle.mem_model.specs.Actions.{no_memory};
ghost use Rattle.gil_machine.specs.State.{returned, threw, failed, vanished, no_input, bad_input, cut};
ghost use Rattle.gil_machine.specs.Choices.{choices};
ghost use Rattle.gil_machine.specs.Held.{ended, evaluate_held, is_too_wide, number as held_number};
ghost use Rattle.gil_machine.specs.Run.{start, test_run};
ghost use Rattle.gil_machine.specs.Examples.{
  ending_of,
  in_main,
  half,
  ten_fails,
  never_fails,
  fails_at_once,
  divides,
  divides_by_zero,
  reads_unset,
  guard_is_a_number,
  runs_for_ever,
  calls,
  catches,
  catches_nothing,
  throws_again,
  throws_at_once,
  raw_ending_of,
  looks_up,
  missing_memory,
  symbol_memory,
  takes_two_symbols,
  vanishes,
  runs_past_its_end,
  draws_two,
  fails_at_forty,
  third,
  sum,
  too_large,
  returns_late,
  held_ending_of,
};

/// Of a program that fails on one number alone.
pub fn one_input_fails()
    ensures nine { ending_of ten_fails (integer (pos 9) ∷ []) 1000 ≡ returned (integer (pos 0)) }
    ensures ten { ending_of ten_fails (integer (pos 10) ∷ []) 1000 ≡ failed (text (codes "ten")) (in_main 4) }
    ensures eleven { ending_of ten_fails (integer (pos 11) ∷ []) 1000 ≡ returned (integer (pos 0)) }
{}

/// Of a program whose failing command no input reaches.
pub fn some_inputs_return()
    ensures below { ending_of never_fails (integer (negsuc 0) ∷ []) 1000 ≡ returned (integer (pos 0)) }
    ensures between { ending_of never_fails (integer (pos 6) ∷ []) 1000 ≡ returned (integer (pos 0)) }
    ensures above { ending_of never_fails (integer (pos 10) ∷ []) 1000 ≡ returned (integer (pos 0)) }
{}

/// A run of more steps than its bound is cut, also where the next step would be its end.
pub fn a_bound_cuts()
    ensures no_step { ending_of fails_at_once [] 0 ≡ cut }
    ensures one_step { ending_of fails_at_once [] 1 ≡ failed (text (codes "no")) (in_main 0) }
    ensures for_ever { ending_of runs_for_ever [] 1000 ≡ cut }
{}

/// A draw without an input ends the run, and so does one whose input is of another kind. What is not drawn is ignored.
pub fn a_draw_needs_its_input()
    ensures none { ending_of ten_fails [] 1000 ≡ no_input 1 }
    ensures other_kind { ending_of ten_fails (boolean true ∷ []) 1000 ≡ bad_input 1 }
    ensures second { ending_of draws_two (integer (pos 1) ∷ []) 1000 ≡ no_input 2 }
    ensures second_kind { ending_of draws_two (integer (pos 1) ∷ boolean true ∷ []) 1000 ≡ bad_input 2 }
    ensures in_order { ending_of draws_two (integer (pos 1) ∷ integer (pos 2) ∷ []) 1000
        ≡ returned (list (from_list (integer (pos 1) ∷ integer (pos 2) ∷ []))) }
    ensures not_drawn { ending_of ten_fails (integer (pos 10) ∷ boolean true ∷ []) 1000 ≡ failed (text (codes "ten")) (in_main 4) }
{}

/// Division truncates towards zero, and the remainder has the dividend's sign.
pub fn division_truncates()
    ensures { ending_of divides [] 1000
        ≡ returned (list (from_list (integer (pos 7) ∷ integer (negsuc 2) ∷ integer (negsuc 0) ∷ []))) }
{}

/// An expression without a value fails at its command, and so does a guard that is no boolean.
pub fn a_fault_fails()
    ensures zero { ending_of divides_by_zero [] 1000 ≡ failed (text (codes "zero")) (in_main 0) }
    ensures unset { ending_of reads_unset [] 1000 ≡ failed (text (codes "unset")) (in_main 0) }
    ensures guard { ending_of guard_is_a_number [] 1000 ≡ failed (text (codes "type")) (in_main 0) }
{}

/// A call of a procedure gives its value to the variable that waits.
pub fn a_call_returns()
    ensures value { ending_of (calls half (number 9 ∷ [])) [] 1000 ≡ returned (integer (pos 4)) }
    ensures arity { ending_of (calls half []) [] 1000 ≡ failed (text (codes "arity")) (in_main 0) }
    ensures unknown { ending_of (calls third (number 9 ∷ [])) [] 1000 ≡ failed (text (codes "proc")) (in_main 0) }
    ensures callee_first { ending_of (calls x (one_by_zero ∷ [])) [] 1000 ≡ failed (text (codes "unset")) (in_main 0) }
    ensures arguments_first { ending_of (calls third (one_by_zero ∷ [])) [] 1000 ≡ failed (text (codes "zero")) (in_main 0) }
    ensures no_procedure { ending_of (calls (words (codes "half")) (number 9 ∷ [])) [] 1000 ≡ failed (text (codes "proc")) (in_main 0) }
{}

/// A throw goes to the first call in progress that has a handler, whose variable gets the value, and is an end where there is none.
pub fn a_throw_is_handled()
    ensures value { ending_of (catches (codes "caught")) [] 1000 ≡ returned (integer (pos 7)) }
    ensures through_a_call { ending_of (catches (codes "passed")) [] 1000 ≡ returned (integer (pos 7)) }
    ensures three_steps { ending_of (catches (codes "passed")) [] 3 ≡ cut }
    ensures four_steps { ending_of (catches (codes "passed")) [] 4 ≡ returned (integer (pos 7)) }
    ensures from_the_handler { ending_of throws_again [] 1000 ≡ returned (integer (pos 8)) }
    ensures entry { raw_ending_of throws_at_once 1 ≡ threw (integer (pos 7)) (in_main 0) }
    ensures nowhere { raw_ending_of catches_nothing 1000 ≡ threw (integer (pos 7)) (record { proc = codes "caught"; at = 0 }) }
    ensures told { ending_of catches_nothing [] 1000 ≡ failed (integer (pos 7)) (record { proc = codes "caught"; at = 0 }) }
{}

/// A failure is caught by no handler: that of a command, of a throw whose value has a fault, and of a call that can't begin.
pub fn no_failure_is_handled()
    ensures failing { ending_of (catches (codes "failing")) [] 1000 ≡ failed (text (codes "no")) (record { proc = codes "failing"; at = 0 }) }
    ensures fault { ending_of (catches (codes "unset")) [] 1000 ≡ failed (text (codes "unset")) (record { proc = codes "unset"; at = 0 }) }
    ensures no_procedure { ending_of (catches (codes "nowhere")) [] 1000 ≡ failed (text (codes "proc")) (in_main 0) }
    ensures arity { ending_of (catches (codes "one")) [] 1000 ≡ failed (text (codes "arity")) (in_main 0) }
{}

/// An action that misses a key fails, and so does every action where there is no memory.
pub fn an_action_may_miss()
    ensures missing { (test_run looks_up missing_memory (codes "main") [] 1000).ending ≡ failed (text (codes "missing")) (in_main 0) }
    ensures no_memory { ending_of looks_up [] 1000 ≡ failed (text (codes "action")) (in_main 0) }
{}

/// A failure has the place of its own command, which is that command's number and not its index, also in a procedure
/// that was called.
pub fn failures_have_their_places()
    ensures in_the_callee { ending_of (calls half (words (codes "a") ∷ [])) [] 1000
        ≡ failed (text (codes "type")) (record { proc = codes "half"; at = 0 }) }
    ensures by_its_number { ending_of fails_at_forty [] 1000 ≡ failed (text (codes "no")) (in_main 40) }
{}

/// Each command is a step: a call, the return that ends it, and a logic command too.
pub fn each_command_is_a_step()
    ensures two_of_three { ending_of (calls half (number 9 ∷ [])) [] 2 ≡ cut }
    ensures three { ending_of (calls half (number 9 ∷ [])) [] 3 ≡ returned (integer (pos 4)) }
    ensures logic_command { ending_of vanishes [] 1 ≡ cut }
    ensures vanishing { ending_of vanishes [] 2 ≡ vanished }
    ensures past_the_end { ending_of runs_past_its_end [] 1000 ≡ cut }
{}

/// The counter's symbol is a new one each time, for a command and for an action, whatever the action comes to.
pub fn symbols_are_new()
    ensures counter { (test_run takes_two_symbols symbol_memory (codes "main") [] 1000).counter ≡ 2 }
    ensures missing { (test_run looks_up missing_memory (codes "main") [] 1000).counter ≡ 1 }
    ensures not_taken { (test_run looks_up no_memory (codes "main") [] 1000).counter ≡ 0 }
    ensures symbols { (test_run takes_two_symbols symbol_memory (codes "main") [] 1000).ending
        ≡ returned (list (from_list (symbol 0 ∷ symbol 1 ∷ []))) }
{}

/// A result that leaves 128 bits counts where it is computed before any fault, and within the bound.
pub fn numbers_have_128_bits()
    ensures before_a_fault { is_too_wide (evaluate_held (sum too_large one_by_zero) []) ≡ true }
    ensures behind_a_fault { is_too_wide (evaluate_held (sum one_by_zero too_large) []) ≡ false }
    ensures greatest { is_too_wide (evaluate_held (sum (number (2 ^ 127 - 2)) (number 1)) []) ≡ false }
    ensures one_more { is_too_wide (evaluate_held (sum (number (2 ^ 127 - 1)) (number 1)) []) ≡ true }
    ensures place { held_ending_of (returns_late too_large) 1000 ≡ held_number (in_main 1) empty }
    ensures within { held_ending_of (returns_late too_large) 2 ≡ held_number (in_main 1) empty }
    ensures past_the_bound { held_ending_of (returns_late too_large) 1 ≡ ended (test_run (returns_late too_large) no_memory (codes "main") [] 1) }
    ensures none { held_ending_of (calls half (number 9 ∷ [])) 1000 ≡ ended
        (test_run (calls half (number 9 ∷ [])) no_memory (codes "main") [] 1000) }
{}

/// Choices are those of guards that are booleans and of actions whose arguments have values, in order.
pub fn choices_stand_in_order()
    ensures guards { choices ten_fails no_memory (integer (pos 10) ∷ []) 1000 (start ten_fails (codes "main") [] empty 0) ≡ 0 ∷ 1 ∷ [] }
    ensures cut { choices ten_fails no_memory (integer (pos 10) ∷ []) 2 (start ten_fails (codes "main") [] empty 0) ≡ 0 ∷ [] }
    ensures no_boolean { choices guard_is_a_number no_memory [] 1000 (start guard_is_a_number (codes "main") [] empty 0) ≡ [] }
    ensures done { choices takes_two_symbols symbol_memory [] 1000 (start takes_two_symbols (codes "main") [] empty 0) ≡ 0 ∷ [] }
    ensures failed { choices looks_up no_memory [] 1000 (start looks_up (codes "main") [] empty 0) ≡ 1 ∷ [] }
    ensures missed { choices looks_up missing_memory [] 1000 (start looks_up (codes "main") [] empty 0) ≡ 2 ∷ [] }
{}
