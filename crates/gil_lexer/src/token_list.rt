//! A list of tokens.
ghost use Rattle.std.specs.Prelude.{◌≡◌, ◌+◌, List, [], ◌∷◌, ◌++◌, length, IsTrue, ◌↔◌, OnOk, OnErr, slice_get};
ghost use Rattle.std.specs.Slice.Iter.{iter_rest};

use crate::forms::Token;
use std::alloc::{AllocError, Global};
use std::marker::Model;
use std::slice;

/// Tokens in their order in the text. Contracts see the list.
#[derive(Debug, Drop)]
pub struct Tokens {
    items: Vec<Token>,
}

impl Model for Tokens {
    ghost use Rattle.std.specs.Prelude.{List};
    ghost use Rattle.gil_lexer.specs.declared.forms.Token.{Token};

    ghost Value = { List Token };

    ghost view = { λ t. t.items.items };
}

impl Tokens {
    pub fn new(alloc: Global) -> Self
        ensures { result ≡ [] }
    {
        Tokens {
            items: Vec::new(alloc),
        }
    }

    pub fn len(&self) -> usize
        ensures { result ≡ length self.now }
    {
        self.items.len()
    }

    pub fn is_empty(&self) -> bool
        ensures { IsTrue result ↔ (self.now ≡ []) }
    {
        self.items.is_empty()
    }

    /// The token at an index, if there are so many.
    pub fn get(&self, index: usize) -> Option<Token>
        ensures { result ≡ slice_get self.now index }
    {
        self.items.get(index).copied()
    }

    pub fn push(&mut self, token: Token) -> Result<(), AllocError>
        ensures ok { OnOk result (self.new ≡ self.old ++ token ∷ []) }
        ensures err { OnErr result (self.new ≡ self.old) }
    {
        self.items.push(token)?;
        Ok(())
    }

    pub fn iter(&self) -> slice::Iter<'_, Token>
        ensures { iter_rest result ≡ self.now }
    {
        self.items.iter()
    }

    pub fn as_slice(&self) -> &[Token]
        ensures { result.now ≡ self.now }
    {
        self.items.as_slice()
    }
}
