//! What the definitions of tokens, texts and faults imply. The functions do nothing: their contracts are the laws.
ghost use Rattle.std.specs.Prelude.{◌≡◌, ◌≢◌, ℕ, ℤ, List, ◌++◌, Option};
ghost use Rattle.gil_lexer.specs.Spelling.{IsToken, SpellsNumber, SpellsText};
ghost use Rattle.gil_lexer.specs.Texts.{AreTokensOf};
ghost use Rattle.gil_lexer.specs.Faults.{IsFault, StopsAt};
ghost use Rattle.gil_lexer.specs.declared.forms.Form.{Form};
ghost use Rattle.gil_lexer.specs.declared.forms.Token.{Token};
ghost use Rattle.gil_lexer.specs.declared.faults.LexKind.{LexKind};
ghost use Rattle.gil_lexer.specs.declared.faults.LexKind.TheVariants as kinds;

/// One text has one reading.
pub fn one_reading()
    ensures { (tokens others : List Token) (bytes : List ℕ) → AreTokensOf tokens bytes → AreTokensOf others bytes → tokens ≡ others }
{}

/// Where a fault stands, no token stands.
pub fn fault_or_token()
    ensures { (kind : LexKind) (before : Option Form) (form : Form) (text rest : List ℕ) → kind ≢ kinds.Memory
        → IsFault kind before (text ++ rest) → IsToken before form text rest → ⊥ }
{}

/// A text in which a fault stands has no reading.
pub fn fault_or_reading()
    ensures { (kind : LexKind) (at : ℕ) (bytes : List ℕ) (tokens : List Token) → kind ≢ kinds.Memory → StopsAt kind at bytes
        → AreTokensOf tokens bytes → ⊥ }
{}

/// One fault at most stands in a text, want of memory aside.
pub fn one_fault()
    ensures { (kind other : LexKind) (at place : ℕ) (bytes : List ℕ) → kind ≢ kinds.Memory → other ≢ kinds.Memory
        → StopsAt kind at bytes → StopsAt other place bytes → (kind ≡ other) × (at ≡ place) }
{}

/// A text spells one number at most.
pub fn one_number()
    ensures { (text : List ℕ) (m n : ℤ) → SpellsNumber text m → SpellsNumber text n → m ≡ n }
{}

/// A text is the literal of one list of characters at most.
pub fn one_literal()
    ensures { (text cs others : List ℕ) → SpellsText text cs → SpellsText text others → cs ≡ others }
{}
