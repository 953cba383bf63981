//! Procedures, specifications and predicates, and the lists of them of which a program is made.
use crate::assertions::{Assertion, Assertions, Params};
use crate::commands::{Body, Texts};
use gil_values::Text;
use sequence::Sequence;

/// A procedure.
#[derive(Debug, Drop)]
pub struct Proc {
    pub name: Text,
    pub params: Texts,
    pub body: Body,
}

/// A specification of the procedure of that name: a precondition, the postconditions, of which a return meets one, and
/// the error postconditions, of which a throw meets one. In an error postcondition `ret` is the value thrown. A text has
/// at least one of the two kinds; a specification that is cut has none.
#[derive(Debug, Drop)]
pub struct Spec {
    pub name: Text,
    pub params: Params,
    pub logicals: Params,
    pub pre: Assertion,
    pub posts: Assertions,
    pub errors: Assertions,
}

/// A user predicate, which stands for one of its cases.
#[derive(Debug, Drop)]
pub struct PredDef {
    pub name: Text,
    pub ins: Params,
    pub outs: Params,
    pub logicals: Params,
    pub cases: Assertions,
}

pub type Procs = Sequence<Proc>;

pub type Specs = Sequence<Spec>;

pub type PredDefs = Sequence<PredDef>;

/// The lists of which a program is made, before it is known whether they make one.
#[derive(Debug, Drop)]
pub struct Parts {
    pub procs: Procs,
    pub specs: Specs,
    pub preds: PredDefs,
}
