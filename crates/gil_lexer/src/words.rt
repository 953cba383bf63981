//! The reserved words. Each language reserves them all, so that one text has the same tokens in all.
ghost use Rattle.std.specs.Prelude.{◌≡◌, ◌≢◌, IfSome, IfNone};
ghost use Rattle.gil_lexer.specs.Words.{word_bytes};
ghost use Rattle.gil_lexer.specs.Reading.{word_of};
ghost use Rattle.gil_lexer.specs.declared.words.Word.{Word};

/// A reserved word, named by what it spells. The words that name a kind of values end in `Kind`.
#[derive(Clone, Copy, Debug, PartialEq, Eq)]
pub enum Word {
    /// `proc`
    Proc,
    /// `spec`
    Spec,
    /// `pred`
    Pred,
    /// `ifgoto`
    Ifgoto,
    /// `call`
    Call,
    /// `do`
    Do,
    /// `usym`
    Usym,
    /// `isym`
    Isym,
    /// `return`
    Return,
    /// `fail`
    Fail,
    /// `vanish`
    Vanish,
    /// `fold`
    Fold,
    /// `unfold`
    Unfold,
    /// `invariant`
    Invariant,
    /// `assert`
    Assert,
    /// `assume`
    Assume,
    /// `emp`
    Emp,
    /// `true`
    True,
    /// `false`
    False,
    /// `not`
    Not,
    /// `neg`
    Neg,
    /// `len`
    Len,
    /// `kind`
    Kind,
    /// `nth`
    Nth,
    /// `and`
    And,
    /// `or`
    Or,
    /// `ret`
    Ret,
    /// `Int`
    IntKind,
    /// `Bool`
    BoolKind,
    /// `Str`
    StrKind,
    /// `Sym`
    SymKind,
    /// `Kind`
    KindKind,
    /// `Proc`
    ProcKind,
    /// `List`
    ListKind,
    /// `Undef`
    UndefKind,
    /// `Null`
    NullKind,
    /// `int`
    Int,
    /// `bool`
    Bool,
    /// `str`
    Str,
    /// `sym`
    Sym,
    /// `list`
    List,
    /// `any`
    Any,
    /// `vars`
    Vars,
    /// `func`
    Func,
    /// `function`
    Function,
    /// `new`
    New,
    /// `input`
    Input,
    /// `symbol`
    Symbol,
    /// `dispose`
    Dispose,
    /// `if`
    If,
    /// `else`
    Else,
    /// `while`
    While,
    /// `let`
    Let,
    /// `create`
    Create,
    /// `setproto`
    Setproto,
    /// `proto`
    Proto,
    /// `has`
    Has,
    /// `delete`
    Delete,
    /// `undefined`
    Undefined,
    /// `null`
    Null,
    /// `malloc`
    Malloc,
    /// `free`
    Free,
    /// `NULL`
    NullPointer,
    /// `throw`
    Throw,
    /// `catch`
    Catch,
    /// `try`
    Try,
    /// `lemma`
    Lemma,
}

// The spellings, in the order of the words.
const SPELLINGS: [&str; 67] = [
    "proc",
    "spec",
    "pred",
    "ifgoto",
    "call",
    "do",
    "usym",
    "isym",
    "return",
    "fail",
    "vanish",
    "fold",
    "unfold",
    "invariant",
    "assert",
    "assume",
    "emp",
    "true",
    "false",
    "not",
    "neg",
    "len",
    "kind",
    "nth",
    "and",
    "or",
    "ret",
    "Int",
    "Bool",
    "Str",
    "Sym",
    "Kind",
    "Proc",
    "List",
    "Undef",
    "Null",
    "int",
    "bool",
    "str",
    "sym",
    "list",
    "any",
    "vars",
    "func",
    "function",
    "new",
    "input",
    "symbol",
    "dispose",
    "if",
    "else",
    "while",
    "let",
    "create",
    "setproto",
    "proto",
    "has",
    "delete",
    "undefined",
    "null",
    "malloc",
    "free",
    "NULL",
    "throw",
    "catch",
    "try",
    "lemma",
];

impl Word {
    // Every reserved word.
    pub(crate) const ALL: [Word; 67] = [
        Word::Proc,
        Word::Spec,
        Word::Pred,
        Word::Ifgoto,
        Word::Call,
        Word::Do,
        Word::Usym,
        Word::Isym,
        Word::Return,
        Word::Fail,
        Word::Vanish,
        Word::Fold,
        Word::Unfold,
        Word::Invariant,
        Word::Assert,
        Word::Assume,
        Word::Emp,
        Word::True,
        Word::False,
        Word::Not,
        Word::Neg,
        Word::Len,
        Word::Kind,
        Word::Nth,
        Word::And,
        Word::Or,
        Word::Ret,
        Word::IntKind,
        Word::BoolKind,
        Word::StrKind,
        Word::SymKind,
        Word::KindKind,
        Word::ProcKind,
        Word::ListKind,
        Word::UndefKind,
        Word::NullKind,
        Word::Int,
        Word::Bool,
        Word::Str,
        Word::Sym,
        Word::List,
        Word::Any,
        Word::Vars,
        Word::Func,
        Word::Function,
        Word::New,
        Word::Input,
        Word::Symbol,
        Word::Dispose,
        Word::If,
        Word::Else,
        Word::While,
        Word::Let,
        Word::Create,
        Word::Setproto,
        Word::Proto,
        Word::Has,
        Word::Delete,
        Word::Undefined,
        Word::Null,
        Word::Malloc,
        Word::Free,
        Word::NullPointer,
        Word::Throw,
        Word::Catch,
        Word::Try,
        Word::Lemma,
    ];

    /// The bytes that the word is written with.
    pub fn spelling(self) -> &'static [u8]
        ensures { result.now ≡ word_bytes self }
    {
        SPELLINGS[self as usize].as_bytes()
    }

    /// The word that these bytes spell, all of them.
    pub fn from_spelling(text: &[u8]) -> Option<Word>
        ensures some { IfSome result (λ word. word_bytes word ≡ text.now) }
        ensures none { IfNone result ((word : Word) → word_bytes word ≢ text.now) }
    {
        find_word(text)
    }
}

// The word that these bytes spell.
#[tactic(auto, unfolding(crate::specs::Reading::word_of, crate::specs::Words::all_words))]
pub(crate) fn find_word(text: &[u8]) -> Option<Word>
    ensures { result ≡ word_of text.now }
{
    Word::ALL
        .iter()
        .copied()
        .find(|word| text == word.spelling())
}
