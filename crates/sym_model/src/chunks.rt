//! Symbolic chunks, and lists of them.
ghost use Rattle.std.specs.Prelude.{◌≡◌, ◌<◌, ◌↔◌, [], ◌∷◌, ◌++◌, length, remove, slice_get, IfOk, IsTrue, OnOk, OnErr, Some};
ghost use Rattle.pure_terms.specs.View.{term_view};
ghost use Rattle.sym_model.specs.Chunks.{with_held};
ghost use Rattle.sym_model.specs.Pure.{PureChunk};
ghost use Rattle.sym_model.specs.View.{chunk_view, chunks_view, frag_view};

use crate::keys::SymSub;
use pure_terms::Term;
use std::alloc::{AllocError, Global};

/// A key and what it holds, in terms. Contracts see it as its pure data, by `chunk_view`.
#[derive(Debug, Drop)]
pub struct Chunk {
    pub loc: Term,
    pub sub: SymSub,
    pub val: Term,
}

impl Chunk {
    /// An equal chunk.
    pub fn copy(&self, alloc: Global) -> Result<Chunk, AllocError>
        ensures { IfOk result (λ c. chunk_view c ≡ chunk_view self.now) }
    {
        let loc = self.loc.copy(alloc)?;
        let sub = self.sub.copy(alloc)?;
        let val = self.val.copy(alloc)?;
        Ok(Chunk { loc, sub, val })
    }
}

/// A list of chunks, which contracts see as the list of their pure data by `frag_view`.
#[derive(Debug, Drop)]
pub struct SymFrag {
    chunks: Vec<Chunk>,
}

impl SymFrag {
    /// The empty list, which takes no memory.
    pub fn new(alloc: Global) -> SymFrag
        ensures { frag_view result ≡ [] }
    {
        SymFrag {
            chunks: Vec::new(alloc),
        }
    }

    /// How many chunks there are.
    pub fn len(&self) -> usize
        ensures { result ≡ length (frag_view self.now) }
    {
        self.chunks.len()
    }

    /// An equal chunk to the one at a place, counted from 0.
    pub fn chunk(&self, alloc: Global, index: usize) -> Result<Chunk, AllocError>
        requires { index < length (frag_view self.now) }
        ensures { IfOk result (λ c. slice_get (frag_view self.now) index ≡ Some (chunk_view c)) }
    {
        self.chunks[index].copy(alloc)
    }

    /// The chunks as a slice.
    pub fn as_slice(&self) -> &[Chunk]
        ensures { chunks_view result.now ≡ frag_view self.now }
    {
        self.chunks.as_slice()
    }

    /// Whether the chunks at two places, counted from 0, are at one location, by its term. It takes no memory.
    pub fn same_loc(&self, first: usize, second: usize) -> bool
        requires first { first < length (frag_view self.now) }
        requires second { second < length (frag_view self.now) }
        ensures { (c d : PureChunk) → slice_get (frag_view self.now) first ≡ Some c → slice_get (frag_view self.now) second ≡ Some d
            → IsTrue result ↔ (c.loc ≡ d.loc) }
    {
        self.chunks[first].loc == self.chunks[second].loc
    }

    /// Adds a chunk at the end.
    pub fn push(&mut self, chunk: Chunk) -> Result<(), AllocError>
        ensures ok { OnOk result (frag_view self.new ≡ frag_view self.old ++ chunk_view chunk ∷ []) }
        ensures err { OnErr result (frag_view self.new ≡ frag_view self.old) }
    {
        self.chunks.push(chunk)?;
        Ok(())
    }

    /// Removes the chunk at a place, and closes up. It takes no memory.
    pub fn remove(&mut self, index: usize)
        requires { index < length (frag_view self.old) }
        ensures { frag_view self.new ≡ remove (frag_view self.old) index }
    {
        let _ = self.chunks.remove(index);
    }

    /// Puts a term in the place of what the chunk at a place holds. It takes no memory.
    pub fn set_held(&mut self, index: usize, val: Term)
        requires { index < length (frag_view self.old) }
        ensures { frag_view self.new ≡ with_held (frag_view self.old) index (term_view val) }
    {
        let chunk = &mut self.chunks[index];
        chunk.val = val;
    }

    /// An equal list.
    pub fn copy(&self, alloc: Global) -> Result<SymFrag, AllocError>
        ensures { IfOk result (λ cs. frag_view cs ≡ frag_view self.now) }
    {
        let mut chunks = Vec::with_capacity(alloc, self.chunks.len())?;
        for chunk in &self.chunks {
            chunks.push(chunk.copy(alloc)?)?;
        }
        Ok(SymFrag { chunks })
    }
}
