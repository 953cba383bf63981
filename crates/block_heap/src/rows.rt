//! Rows that show what the actions do: each action in each of its cases, in the order of the cases.
ghost use Rattle.std.specs.Prelude.{pos, negsuc, [], ◌∷◌, true, None, Some, codes};
ghost use Rattle.gil_values.specs.Pure.{text, boolean, symbol, list, from_list};
ghost use Rattle.mem_model.specs.declared.keys.Sub.TheVariants.{At, Bound};
ghost use Rattle.mem_model.specs.Keys.{key};
ghost use Rattle.mem_model.specs.Pure.{done, failed, miss};
ghost use Rattle.mem_model.specs.Rows.{number};
ghost use Rattle.block_heap.specs.Rows.{
  Gives,
  SizesAreGiven,
  OtherSizesFail,
  cell,
  whole,
  with_five,
  fresh_block,
  none,
  without_one,
  bare,
  alone,
  gone,
  two,
  other_left,
};

/// What is wrong with a call comes before the heap is looked at: first the action, then the number of arguments, then
/// their kinds.
pub fn rows_of_wrong_calls()
    ensures unknown { Gives gone (codes "lookup") None (number (pos 1) ∷ []) (failed (text (codes "action"))) gone }
    ensures alloc_of_none { Gives [] (codes "alloc") (Some 3) [] (failed (text (codes "arity"))) [] }
    ensures load_of_two { Gives gone (codes "load") None (symbol 3 ∷ number (pos 0) ∷ []) (failed (text (codes "arity"))) gone }
    ensures store_of_one { Gives gone (codes "store") None (cell (pos 0) ∷ []) (failed (text (codes "arity"))) gone }
    ensures free_of_none { Gives gone (codes "free") None [] (failed (text (codes "arity"))) gone }
    ensures alloc_of_a_symbol { Gives [] (codes "alloc") (Some 3) (symbol 4 ∷ []) (failed (text (codes "type"))) [] }
    ensures load_of_a_symbol { Gives gone (codes "load") None (symbol 3 ∷ []) (failed (text (codes "type"))) gone }
    ensures load_without_an_offset { Gives gone (codes "load") None (list (from_list (symbol 3 ∷ [])) ∷ []) (failed (text (codes "type"))) gone }
    ensures load_of_three_parts { Gives gone (codes "load") None (list (from_list (symbol 3 ∷ number (pos 0) ∷ number (pos 0) ∷ [])) ∷ [])
        (failed (text (codes "type"))) gone }
    ensures store_in_a_number { Gives gone (codes "store") None (list (from_list (number (pos 3) ∷ number (pos 0) ∷ [])) ∷ number (pos 1) ∷ [])
        (failed (text (codes "type"))) gone }
    ensures free_of_a_number { Gives gone (codes "free") None (number (pos 3) ∷ []) (failed (text (codes "type"))) gone }
{}

/// A new block has cells that hold 0.
pub fn rows_of_alloc()
    ensures two_cells { Gives [] (codes "alloc") (Some 3) (number (pos 2) ∷ []) (done (cell (pos 0))) fresh_block }
    ensures no_cells { Gives [] (codes "alloc") (Some 3) (number (pos 0) ∷ []) (done (cell (pos 0))) none }
    ensures too_many { Gives [] (codes "alloc") (Some 3) (number (pos 10001) ∷ []) (failed (text (codes "size"))) [] }
    ensures below_zero { Gives [] (codes "alloc") (Some 3) (number (negsuc 0) ∷ []) (failed (text (codes "size"))) [] }
    ensures sizes { SizesAreGiven }
    ensures other_sizes { OtherSizesFail }
{}

/// A load finds a value, or fails at a location that is gone or outside of its bound, or misses.
pub fn rows_of_load()
    ensures found { Gives whole (codes "load") None (cell (pos 1) ∷ []) (done (number (pos 8))) whole }
    ensures found_alone { Gives alone (codes "load") None (cell (pos 0) ∷ []) (done (number (pos 7))) alone }
    ensures at_gone { Gives gone (codes "load") None (cell (pos 0) ∷ []) (failed (text (codes "gone"))) gone }
    ensures at_the_bound { Gives whole (codes "load") None (cell (pos 2) ∷ []) (failed (text (codes "bound"))) whole }
    ensures below_zero { Gives whole (codes "load") None (cell (negsuc 0) ∷ []) (failed (text (codes "bound"))) whole }
    ensures within_and_missing { Gives without_one (codes "load") None (cell (pos 1) ∷ []) (miss (key 3 (At (pos 1)))) without_one }
    ensures missing { Gives alone (codes "load") None (cell (negsuc 0) ∷ []) (miss (key 3 (At (negsuc 0)))) alone }
{}

/// A store puts a value where a load would find one.
pub fn rows_of_store()
    ensures put { Gives whole (codes "store") None (cell (pos 1) ∷ number (pos 5) ∷ []) (done (number (pos 5))) with_five }
    ensures at_gone { Gives gone (codes "store") None (cell (pos 0) ∷ number (pos 5) ∷ []) (failed (text (codes "gone"))) gone }
    ensures at_the_bound { Gives whole (codes "store") None (cell (pos 2) ∷ number (pos 5) ∷ []) (failed (text (codes "bound"))) whole }
    ensures below_zero { Gives whole (codes "store") None (cell (negsuc 0) ∷ number (pos 5) ∷ []) (failed (text (codes "bound"))) whole }
    ensures within_and_missing { Gives without_one (codes "store") None (cell (pos 1) ∷ number (pos 5) ∷ []) (miss (key 3 (At (pos 1)))) without_one }
    ensures missing { Gives alone (codes "store") None (cell (pos 1) ∷ number (pos 5) ∷ []) (miss (key 3 (At (pos 1)))) alone }
{}

/// A block is freed whole, by its first address, and another one stays.
pub fn rows_of_free()
    ensures all { Gives two (codes "free") None (cell (pos 0) ∷ []) (done (boolean true)) other_left }
    ensures no_cells { Gives none (codes "free") None (cell (pos 0) ∷ []) (done (boolean true)) gone }
    ensures not_the_first { Gives gone (codes "free") None (cell (pos 1) ∷ []) (failed (text (codes "free"))) gone }
    ensures at_gone { Gives gone (codes "free") None (cell (pos 0) ∷ []) (failed (text (codes "gone"))) gone }
    ensures no_bound { Gives alone (codes "free") None (cell (pos 0) ∷ []) (miss (key 3 Bound)) alone }
    ensures one_missing { Gives without_one (codes "free") None (cell (pos 0) ∷ []) (miss (key 3 (At (pos 1)))) without_one }
    ensures two_missing { Gives bare (codes "free") None (cell (pos 0) ∷ []) (miss (key 3 (At (pos 0)))) bare }
{}
