//! Rows that show what the actions do: each action in each of its cases, in the order of the cases.
ghost use Rattle.std.specs.Prelude.{pos, [], ◌∷◌, true, false, None, Some, codes};
ghost use Rattle.gil_values.specs.Pure.{text, boolean, symbol};
ghost use Rattle.mem_model.specs.declared.keys.Sub.TheVariants.{Name, Dom, Proto};
ghost use Rattle.mem_model.specs.Keys.{key};
ghost use Rattle.mem_model.specs.Pure.{done, failed, miss};
ghost use Rattle.mem_model.specs.Rows.{number};
ghost use Rattle.object_heap.specs.Rows.{
  Gives,
  loc,
  name,
  null,
  undef,
  fresh_object,
  rootless,
  with_a,
  with_both,
  with_b,
  b_then_a,
  with_five,
  without_b,
  alone,
};

/// What is wrong with a call comes before the heap is looked at: first the action, then the number of arguments, then
/// their kinds.
pub fn rows_of_wrong_calls()
    ensures unknown { Gives alone (codes "lookup") None (null ∷ []) (failed (text (codes "action"))) alone }
    ensures new_of_none { Gives [] (codes "new") (Some 3) [] (failed (text (codes "arity"))) [] }
    ensures get_of_one { Gives alone (codes "get") None (null ∷ []) (failed (text (codes "arity"))) alone }
    ensures set_of_two { Gives alone (codes "set") None (loc ∷ name (codes "a") ∷ []) (failed (text (codes "arity"))) alone }
    ensures delete_of_three { Gives alone (codes "delete") None (loc ∷ name (codes "a") ∷ null ∷ []) (failed (text (codes "arity"))) alone }
    ensures has_of_one { Gives alone (codes "has") None (loc ∷ []) (failed (text (codes "arity"))) alone }
    ensures getproto_of_two { Gives alone (codes "getproto") None (loc ∷ loc ∷ []) (failed (text (codes "arity"))) alone }
    ensures setproto_of_one { Gives alone (codes "setproto") None (loc ∷ []) (failed (text (codes "arity"))) alone }
    ensures new_of_a_number { Gives [] (codes "new") (Some 3) (number (pos 4) ∷ []) (failed (text (codes "type"))) [] }
    ensures new_of_undef { Gives [] (codes "new") (Some 3) (undef ∷ []) (failed (text (codes "type"))) [] }
    ensures get_in_a_number { Gives alone (codes "get") None (number (pos 3) ∷ name (codes "a") ∷ []) (failed (text (codes "type"))) alone }
    ensures get_of_a_number { Gives alone (codes "get") None (loc ∷ number (pos 3) ∷ []) (failed (text (codes "type"))) alone }
    ensures set_in_null { Gives alone (codes "set") None (null ∷ name (codes "a") ∷ null ∷ []) (failed (text (codes "type"))) alone }
    ensures delete_of_null { Gives alone (codes "delete") None (loc ∷ null ∷ []) (failed (text (codes "type"))) alone }
    ensures has_of_null { Gives alone (codes "has") None (loc ∷ null ∷ []) (failed (text (codes "type"))) alone }
    ensures getproto_of_null { Gives alone (codes "getproto") None (null ∷ []) (failed (text (codes "type"))) alone }
    ensures setproto_to_a_number { Gives fresh_object (codes "setproto") None (loc ∷ number (pos 4) ∷ []) (failed (text (codes "type"))) fresh_object }
{}

/// A new object has no names, and the prototype that is given.
pub fn rows_of_new()
    ensures with_a_prototype { Gives [] (codes "new") (Some 3) (symbol 4 ∷ []) (done loc) fresh_object }
    ensures without_one { Gives [] (codes "new") (Some 3) (null ∷ []) (done loc) rootless }
{}

/// A property that isn't there is undefined where the names are known, and missed where they aren't.
pub fn rows_of_get()
    ensures found { Gives with_both (codes "get") None (loc ∷ name (codes "b") ∷ []) (done (number (pos 2))) with_both }
    ensures found_alone { Gives alone (codes "get") None (loc ∷ name (codes "a") ∷ []) (done (number (pos 1))) alone }
    ensures absent { Gives with_both (codes "get") None (loc ∷ name (codes "c") ∷ []) (done undef) with_both }
    ensures listed_and_missing { Gives without_b (codes "get") None (loc ∷ name (codes "b") ∷ []) (miss (key 3 (Name (codes "b")))) without_b }
    ensures missing { Gives alone (codes "get") None (loc ∷ name (codes "b") ∷ []) (miss (key 3 (Name (codes "b")))) alone }
{}

/// A property that is set and new comes last, also after it was deleted.
pub fn rows_of_set()
    ensures put { Gives with_both (codes "set") None (loc ∷ name (codes "a") ∷ number (pos 5) ∷ []) (done (number (pos 5))) with_five }
    ensures first { Gives fresh_object (codes "set") None (loc ∷ name (codes "a") ∷ number (pos 1) ∷ []) (done (number (pos 1))) with_a }
    ensures second { Gives with_a (codes "set") None (loc ∷ name (codes "b") ∷ number (pos 2) ∷ []) (done (number (pos 2))) with_both }
    ensures again { Gives with_b (codes "set") None (loc ∷ name (codes "a") ∷ number (pos 7) ∷ []) (done (number (pos 7))) b_then_a }
    ensures listed_and_missing { Gives without_b (codes "set") None (loc ∷ name (codes "b") ∷ number (pos 5) ∷ []) (miss (key 3 (Name (codes "b")))) without_b }
    ensures missing { Gives alone (codes "set") None (loc ∷ name (codes "b") ∷ number (pos 5) ∷ []) (miss (key 3 (Name (codes "b")))) alone }
{}

/// A property that is deleted leaves the names and the heap.
pub fn rows_of_delete()
    ensures taken { Gives with_both (codes "delete") None (loc ∷ name (codes "a") ∷ []) (done (boolean true)) with_b }
    ensures absent { Gives with_both (codes "delete") None (loc ∷ name (codes "c") ∷ []) (done (boolean true)) with_both }
    ensures listed_and_missing { Gives without_b (codes "delete") None (loc ∷ name (codes "b") ∷ []) (miss (key 3 (Name (codes "b")))) without_b }
    ensures no_names { Gives alone (codes "delete") None (loc ∷ name (codes "a") ∷ []) (miss (key 3 Dom)) alone }
{}

/// Whether there is a property is known by its value or by the names.
pub fn rows_of_has()
    ensures found { Gives with_both (codes "has") None (loc ∷ name (codes "a") ∷ []) (done (boolean true)) with_both }
    ensures found_alone { Gives alone (codes "has") None (loc ∷ name (codes "a") ∷ []) (done (boolean true)) alone }
    ensures listed_and_missing { Gives without_b (codes "has") None (loc ∷ name (codes "b") ∷ []) (done (boolean true)) without_b }
    ensures absent { Gives without_b (codes "has") None (loc ∷ name (codes "c") ∷ []) (done (boolean false)) without_b }
    ensures missing { Gives alone (codes "has") None (loc ∷ name (codes "b") ∷ []) (miss (key 3 (Name (codes "b")))) alone }
{}

/// A prototype is a symbol or Null.
pub fn rows_of_prototypes()
    ensures told { Gives fresh_object (codes "getproto") None (loc ∷ []) (done (symbol 4)) fresh_object }
    ensures not_known { Gives alone (codes "getproto") None (loc ∷ []) (miss (key 3 Proto)) alone }
    ensures put { Gives fresh_object (codes "setproto") None (loc ∷ null ∷ []) (done null) rootless }
    ensures missing { Gives alone (codes "setproto") None (loc ∷ symbol 4 ∷ []) (miss (key 3 Proto)) alone }
{}
