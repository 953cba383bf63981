//! Rows that show what the source meaning means.
ghost use Rattle.std.specs.Prelude.{◌≡◌, pos, [], ◌∷◌, codes, true, false, Some, None};
ghost use Rattle.gil_values.specs.declared.kinds.Kind.TheVariants.{Int, Null};
ghost use Rattle.gil_values.specs.Pure.{integer, boolean, kind, text};
ghost use Rattle.gil_syntax.specs.Pure.{literal};
ghost use Rattle.gil_machine.specs.State.{returned, failed, vanished, no_input, bad_input};
ghost use Rattle.while_lang.specs.Pure.{assign, input, lookup, call, mutate, dispose, assert, assume, while, fail, return, no_statements};
ghost use Rattle.while_lang.specs.Examples.{
  number,
  x,
  in_main,
  ending_of,
  two_faults,
  names_field_twice,
  adds_up,
  calls_half,
  does,
  Fails,
};

/// Fields are evaluated from left to right, and the first fault is the statement's failure.
pub fn the_first_field_fails()
    ensures { ending_of two_faults [] 1 ≡ Some (failed (text (codes "zero")) (in_main 14)) }
{}

/// A record has each field once.
pub fn a_field_stands_once()
    ensures { ending_of names_field_twice [] 1 ≡ Some (failed (text (codes "type")) (in_main 14)) }
{}

/// A loop has no end where it may turn too seldom.
pub fn loops_turn()
    ensures often { ending_of adds_up [] 4 ≡ Some (returned (integer (pos 6))) }
    ensures seldom { ending_of adds_up [] 3 ≡ None }
{}

/// A function returns its value, and Null where it ends without a return; a draw needs its input.
pub fn calls_return()
    ensures value { ending_of calls_half (integer (pos 1) ∷ []) 2 ≡ Some (returned (integer (pos 1))) }
    ensures null { ending_of calls_half (integer (pos 2) ∷ []) 2 ≡ Some (returned (kind Null)) }
    ensures too_deep { ending_of calls_half (integer (pos 2) ∷ []) 1 ≡ None }
    ensures no_input { ending_of calls_half [] 2 ≡ Some (no_input 1) }
    ensures bad_input { ending_of calls_half (boolean true ∷ []) 2 ≡ Some (bad_input 1) }
{}

/// Each statement with a failure of its own has the byte at which it begins as its place.
pub fn statements_fail_at_their_places()
    ensures unset { Fails (assign (codes "a") x) (codes "unset") }
    ensures condition { Fails (while (number 1) None no_statements) (codes "type") }
    ensures assertion { Fails (assert (literal (boolean false))) (codes "assert") }
    ensures assumption { ending_of (does (assume (literal (boolean false)))) [] 1 ≡ Some vanished }
    ensures no_function { Fails (call (codes "a") (codes "f") []) (codes "proc") }
    ensures arguments { Fails (call (codes "a") (codes "main") (number 1 ∷ [])) (codes "arity") }
    ensures argument_first { Fails (call (codes "a") (codes "f") (x ∷ [])) (codes "unset") }
    ensures no_record { Fails (dispose (number 1)) (codes "type") }
    ensures failing { ending_of (does (fail (number 5))) [] 1 ≡ Some (failed (integer (pos 5)) (in_main 14)) }
{}
