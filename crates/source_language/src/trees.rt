//! What the trees of every source language have.
use gil_syntax::{Assertion, Params, PredDefs, PredUse, Specs, Texts};
use gil_values::Text;
use sequence::Sequence;

/// What only the proof of a specification looks at. Contracts see it as its pure data, by `logic_view`.
#[derive(Debug, Drop)]
pub enum Logic {
    Fold(PredUse),
    Unfold(PredUse),
    Assert(Assertion),
    Invariant(Invariant),
}

/// An invariant, of a loop or by itself: the variables that may change, the logical variables, and the assertion. Contracts see it as its pure
/// data, by `invariant_view`.
#[derive(Debug, Drop)]
pub struct Invariant {
    pub names: Texts,
    pub logicals: Params,
    pub assertion: Assertion,
}

/// A function with a body of the type `B`, and the byte at which it begins. Contracts see it as its pure data, by `function_view`.
#[derive(Debug, Drop)]
pub struct Function<B> {
    pub name: Text,
    pub params: Texts,
    pub body: B,
    pub at: u32,
}

/// The lists of which a program is made, in the order of its text, with functions of the type `F`.
#[derive(Debug, Drop)]
pub struct SourceParts<F> {
    pub functions: Sequence<F>,
    pub specs: Specs,
    pub preds: PredDefs,
}
