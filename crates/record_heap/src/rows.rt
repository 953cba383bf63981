//! Rows that show what the actions do: each action in each of its cases, in the order of the cases.
ghost use Rattle.std.specs.Prelude.{pos, [], ◌∷◌, true, None, Some, codes};
ghost use Rattle.gil_values.specs.Pure.{text, boolean, symbol, list, from_list, no_values};
ghost use Rattle.mem_model.specs.declared.keys.Sub.TheVariants.{Name, Shape};
ghost use Rattle.mem_model.specs.Keys.{key};
ghost use Rattle.mem_model.specs.Pure.{done, failed, miss};
ghost use Rattle.mem_model.specs.Rows.{a_and_b, a_twice, number, at_three};
ghost use Rattle.record_heap.specs.Rows.{
  Gives,
  loc,
  name,
  null,
  whole,
  with_five,
  fresh_record,
  without_b,
  bare,
  alone,
  gone,
  two,
  other_left,
};

/// What is wrong with a call comes before the heap is looked at: first the action, then the number of arguments, then
/// their kinds.
pub fn rows_of_wrong_calls()
    ensures unknown { Gives gone (codes "load") None (null ∷ []) (failed (text (codes "action"))) gone }
    ensures new_of_none { Gives [] (codes "new") (Some 3) [] (failed (text (codes "arity"))) [] }
    ensures lookup_of_one { Gives gone (codes "lookup") None (null ∷ []) (failed (text (codes "arity"))) gone }
    ensures lookup_of_three { Gives gone (codes "lookup") None (loc ∷ name (codes "a") ∷ null ∷ []) (failed (text (codes "arity"))) gone }
    ensures mutate_of_two { Gives gone (codes "mutate") None (loc ∷ name (codes "a") ∷ []) (failed (text (codes "arity"))) gone }
    ensures dispose_of_two { Gives gone (codes "dispose") None (loc ∷ loc ∷ []) (failed (text (codes "arity"))) gone }
    ensures new_of_a_number { Gives [] (codes "new") (Some 3) (number (pos 1) ∷ []) (failed (text (codes "type"))) [] }
    ensures new_of_numbers { Gives [] (codes "new") (Some 3) (list (from_list (number (pos 1) ∷ [])) ∷ []) (failed (text (codes "type"))) [] }
    ensures new_of_a_name_twice { Gives [] (codes "new") (Some 3) (a_twice ∷ []) (failed (text (codes "type"))) [] }
    ensures lookup_in_a_number { Gives gone (codes "lookup") None (number (pos 3) ∷ name (codes "a") ∷ []) (failed (text (codes "type"))) gone }
    ensures lookup_of_a_number { Gives gone (codes "lookup") None (loc ∷ number (pos 3) ∷ []) (failed (text (codes "type"))) gone }
    ensures mutate_in_null { Gives gone (codes "mutate") None (null ∷ name (codes "a") ∷ null ∷ []) (failed (text (codes "type"))) gone }
    ensures dispose_of_a_text { Gives gone (codes "dispose") None (name (codes "a") ∷ []) (failed (text (codes "type"))) gone }
{}

/// A new record has the names of the list, in which each holds Null.
pub fn rows_of_new()
    ensures names { Gives [] (codes "new") (Some 3) (a_and_b ∷ []) (done loc) fresh_record }
    ensures no_names { Gives [] (codes "new") (Some 3) (list no_values ∷ []) (done loc) (at_three Shape (list no_values) ∷ []) }
{}

/// A lookup finds a value, or fails at a location that is gone or lacks the name, or misses.
pub fn rows_of_lookup()
    ensures found { Gives whole (codes "lookup") None (loc ∷ name (codes "b") ∷ []) (done (number (pos 2))) whole }
    ensures found_alone { Gives alone (codes "lookup") None (loc ∷ name (codes "a") ∷ []) (done (number (pos 1))) alone }
    ensures at_gone { Gives gone (codes "lookup") None (loc ∷ name (codes "a") ∷ []) (failed (text (codes "gone"))) gone }
    ensures absent { Gives whole (codes "lookup") None (loc ∷ name (codes "c") ∷ []) (failed (text (codes "absent"))) whole }
    ensures listed_and_missing { Gives without_b (codes "lookup") None (loc ∷ name (codes "b") ∷ []) (miss (key 3 (Name (codes "b")))) without_b }
    ensures missing { Gives alone (codes "lookup") None (loc ∷ name (codes "b") ∷ []) (miss (key 3 (Name (codes "b")))) alone }
    ensures elsewhere { Gives whole (codes "lookup") None (symbol 4 ∷ name (codes "a") ∷ []) (miss (key 4 (Name (codes "a")))) whole }
{}

/// A mutation puts the value at a name that is there, and adds none.
pub fn rows_of_mutate()
    ensures put { Gives whole (codes "mutate") None (loc ∷ name (codes "a") ∷ number (pos 5) ∷ []) (done (number (pos 5))) with_five }
    ensures at_gone { Gives gone (codes "mutate") None (loc ∷ name (codes "a") ∷ number (pos 5) ∷ []) (failed (text (codes "gone"))) gone }
    ensures absent { Gives whole (codes "mutate") None (loc ∷ name (codes "c") ∷ number (pos 5) ∷ []) (failed (text (codes "absent"))) whole }
    ensures listed_and_missing { Gives without_b (codes "mutate") None (loc ∷ name (codes "b") ∷ number (pos 5) ∷ []) (miss (key 3 (Name (codes "b")))) without_b }
    ensures missing { Gives [] (codes "mutate") None (loc ∷ name (codes "a") ∷ number (pos 5) ∷ []) (miss (key 3 (Name (codes "a")))) [] }
{}

/// A record is disposed of whole, and another one stays.
pub fn rows_of_dispose()
    ensures all { Gives two (codes "dispose") None (loc ∷ []) (done (boolean true)) other_left }
    ensures at_gone { Gives gone (codes "dispose") None (loc ∷ []) (failed (text (codes "gone"))) gone }
    ensures no_shape { Gives alone (codes "dispose") None (loc ∷ []) (miss (key 3 Shape)) alone }
    ensures one_missing { Gives without_b (codes "dispose") None (loc ∷ []) (miss (key 3 (Name (codes "b")))) without_b }
    ensures two_missing { Gives bare (codes "dispose") None (loc ∷ []) (miss (key 3 (Name (codes "a")))) bare }
{}
