//! What the definitions of words imply. The functions do nothing: their contracts are the laws.
ghost use Rattle.std.specs.Prelude.{◌≡◌, ℕ, List};
ghost use Rattle.gillian_words.specs.Asked.{AskFor};
ghost use Rattle.gillian_words.specs.Tasks.{PureRequest};

/// Words ask for one thing at most.
pub fn words_ask_for_one_thing()
    ensures { (words : List (List ℕ)) (a b : PureRequest) → AskFor words a → AskFor words b → a ≡ b }
{}
