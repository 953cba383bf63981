//! The shipped rules.
ghost use Rattle.std.specs.Prelude.{◌≡◌, IfOk, IsFalse};
ghost use Rattle.std.specs.Option.{option_map};
ghost use Rattle.gil_values.specs.Characters.{IsText};
ghost use Rattle.pure_terms.specs.View.{term_view};
ghost use Rattle.rewrite_book.specs.Answers.{AnswersNoTerm, AnswersWell};
ghost use Rattle.rewrite_book.specs.Heads.{is_headed};

use crate::booleans::{not_not, same_equal};
use crate::lists::{len_list, nth_list};
use crate::numbers::{minus_zero, neg_neg, plus_zero, times_one, times_zero};
use crate::rules::Head;
use gil_values::{BinOp, Text, UnOp};
use pure_terms::Term;
use std::alloc::{AllocError, Global};

/// A shipped rule.
#[derive(Clone, Copy, Debug, PartialEq, Eq)]
pub enum ShippedRule {
    /// `(t + 0)` and `(0 + t)` are t.
    PlusZero,
    /// `(t - 0)` is t.
    MinusZero,
    /// `(t * 0)` and `(0 * t)` are 0.
    TimesZero,
    /// `(t * 1)` and `(1 * t)` are t.
    TimesOne,
    /// `not(not(t))` is t.
    NotNot,
    /// `neg(neg(t))` is t.
    NegNeg,
    /// `(t = t)` is true.
    SameEqual,
    /// `len` of a list term is the number of its elements.
    LenList,
    /// `nth` of a list term at a literal within it is its element.
    NthList,
}

impl ShippedRule {
    ghost use Rattle.rewrite_book.specs.ShippedRules.{answer_of, head_of, name_of};

    /// All of them, in the order in which they are asked. Who wants a book of them boxes each one's `answer`.
    pub const ALL: [ShippedRule; 9] = [
        ShippedRule::PlusZero,
        ShippedRule::MinusZero,
        ShippedRule::TimesZero,
        ShippedRule::TimesOne,
        ShippedRule::NotNot,
        ShippedRule::NegNeg,
        ShippedRule::SameEqual,
        ShippedRule::LenList,
        ShippedRule::NthList,
    ];

    /// The rule's name.
    pub fn name(self, alloc: Global) -> Result<Text, AllocError>
        ensures { IfOk result (λ name. name ≡ name_of self) }
    {
        match Text::from_str(alloc, self.word())? {
            Some(name) => Ok(name),
            None => unreachable!(),
        }
    }

    fn word(self) -> &'static str
        ensures word { result.now ≡ name_of self }
        ensures is_text { IsText result.now }
    {
        match self {
            ShippedRule::PlusZero => "plus_zero",
            ShippedRule::MinusZero => "minus_zero",
            ShippedRule::TimesZero => "times_zero",
            ShippedRule::TimesOne => "times_one",
            ShippedRule::NotNot => "not_not",
            ShippedRule::NegNeg => "neg_neg",
            ShippedRule::SameEqual => "same_equal",
            ShippedRule::LenList => "len_list",
            ShippedRule::NthList => "nth_list",
        }
    }

    /// What stands at the root of the terms that the rule answers on.
    pub fn head(self) -> Head
        ensures { result ≡ head_of self }
    {
        match self {
            ShippedRule::PlusZero => Head::Op2(BinOp::Add),
            ShippedRule::MinusZero => Head::Op2(BinOp::Subtract),
            ShippedRule::TimesZero | ShippedRule::TimesOne => Head::Op2(BinOp::Multiply),
            ShippedRule::NotNot => Head::Op1(UnOp::Not),
            ShippedRule::NegNeg => Head::Op1(UnOp::Neg),
            ShippedRule::SameEqual => Head::Op2(BinOp::Equal),
            ShippedRule::LenList => Head::Op1(UnOp::Len),
            ShippedRule::NthList => Head::Op2(BinOp::Nth),
        }
    }

    /// The term to put in a term's place, or None where the rule doesn't apply.
    pub fn answer(self, alloc: Global, t: &Term) -> Result<Option<Term>, AllocError>
        ensures form { IfOk result (λ o. option_map term_view o ≡ answer_of self (term_view t.now)) }
        ensures well { AnswersWell t.now result }
        ensures headed { IsFalse (is_headed (head_of self) (term_view t.now)) → AnswersNoTerm result }
    {
        self.answer_by_form(alloc, t)
    }

    fn answer_by_form(self, alloc: Global, t: &Term) -> Result<Option<Term>, AllocError>
        ensures form { IfOk result (λ o. option_map term_view o ≡ answer_of self (term_view t.now)) }
        ensures well { AnswersWell t.now result }
    {
        match self {
            ShippedRule::PlusZero => plus_zero(alloc, t),
            ShippedRule::MinusZero => minus_zero(alloc, t),
            ShippedRule::TimesZero => times_zero(t),
            ShippedRule::TimesOne => times_one(alloc, t),
            ShippedRule::NotNot => not_not(alloc, t),
            ShippedRule::NegNeg => neg_neg(alloc, t),
            ShippedRule::SameEqual => same_equal(t),
            ShippedRule::LenList => len_list(t),
            ShippedRule::NthList => nth_list(alloc, t),
        }
    }
}
