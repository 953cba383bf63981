//! The book.
ghost use Rattle.std.specs.Prelude.{◌≡◌, [], ◌∷◌, ◌++◌, OnOk, OnErr};
ghost use Rattle.rewrite_book.specs.Books.{rules_of};

use crate::rules::Rule;
use std::alloc::{AllocError, Global};

/// A book of rules, in the order in which they are asked.
#[derive(Drop)]
pub struct RuleBook {
    pub(crate) rules: Vec<Rule>,
}

impl RuleBook {
    /// The empty book, which takes no memory.
    pub fn new(alloc: Global) -> RuleBook
        ensures { rules_of result ≡ [] }
    {
        RuleBook {
            rules: Vec::new(alloc),
        }
    }

    /// Adds a rule at the end.
    pub fn add(&mut self, rule: Rule) -> Result<(), AllocError>
        ensures ok { OnOk result (rules_of self.new ≡ rules_of self.old ++ rule ∷ []) }
        ensures err { OnErr result (rules_of self.new ≡ rules_of self.old) }
    {
        self.rules.push(rule)?;
        Ok(())
    }
}
