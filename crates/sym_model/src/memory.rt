//! The interface of a symbolic memory.
ghost use Rattle.std.specs.Prelude.{◌≡◌, ◌↔◌, ℕ, ℤ, List, IfOk};
ghost use Rattle.std.specs.FinMap.{empty};
ghost use Rattle.gil_values.specs.Pure.{PureValue};
ghost use Rattle.mem_model.specs.Heaps.{Heap};
ghost use Rattle.pure_terms.specs.Pure.{PureTerm};
ghost use Rattle.pure_terms.specs.View.{terms_view};
ghost use Rattle.sym_model.specs.CoreLaws.{
  ProduceLaw,
  ProducesWhatMatters,
  ConsumeLaw,
  ProducesPlainly,
  ConsumesPlainly,
  ProducesNarrowly,
  ConsumesNarrowly,
};
ghost use Rattle.sym_model.specs.Cores.{TakesIns, TakesBoth, MissesItsOwn};
ghost use Rattle.sym_model.specs.Fixing.{FixLaw, FixesNarrowly};
ghost use Rattle.sym_model.specs.Forms.{OpenWhatMatters};
ghost use Rattle.sym_model.specs.Listing.{IsListing};
ghost use Rattle.sym_model.specs.Lists.{Each};
ghost use Rattle.sym_model.specs.Plain.{IsPlainState, ActsNarrowly};
ghost use Rattle.sym_model.specs.Terms.{StateTerms, no_state_terms};
ghost use Rattle.sym_model.specs.Laws.{IsMeaning, AsksItsArguments, IsCopy, MayBeAsked, ActLaw, ActsPlainly};
ghost use Rattle.sym_model.specs.View.{key_view, branches_view, uses_view, fixes_view};

use crate::branches::Branches;
use crate::keys::SymKey;
use crate::uses::{CoreUses, Fixes};
use gil_values::Text;
use mem_model::{LocalMemory, MemoryName};
use pure_terms::{Terms, Var};
use std::alloc::{AllocError, Global};

/// A symbolic memory over a concrete one (Gillian, Part I, PLDI 2020). Its meaning is the relation of a state, a valuation and
/// the heap that the state has there.
pub trait SymMemory: Drop {
    /// The concrete memory.
    type Local: LocalMemory;

    /// Under the valuation the state has this heap.
    ghost stands: { Self → List PureValue → Heap → Type 0 };

    ghost terms: { Self → StateTerms };

    /// What an action asks about: its arguments, but not those that it only stores, and literals that it compares these with;
    /// and the arguments whose literal form it may need by itself.
    ghost asked: { List ℕ → List PureTerm → List PureTerm × List PureTerm };

    /// What an action comes to depends on the literal form of a term, under a valuation that gives the state this heap.
    ghost depends: { Self → List ℕ → List PureTerm → List PureValue → Heap → PureTerm → Type 0 };

    /// What the law of plain memories needs of a state, with the bounds of its literals.
    ghost plain: { Self → ℤ → ℤ → Type 0 };

    /// Whether the memory keeps the law of plain memories.
    ghost keeps_plain: { Type 0 };

    /// Whether the memory keeps the law of narrow memories.
    ghost keeps_narrow: { Type 0 };

    /// What a state keeps that is made by these calls, and from which it is listed back: each chunk is of the memory, and what
    /// says that a location is gone holds the literal true.
    ghost kept: { Self → Type 0 };

    /// The memory's name.
    fn name() -> MemoryName
        ensures { result ≡ Self.Local.memory };

    /// The state without chunks.
    fn empty(alloc: Global) -> Result<Self, AllocError>
        ensures stands { IfOk result (λ m. (v : List PureValue) → stands m v empty) }
        ensures terms { IfOk result (λ m. terms m ≡ no_state_terms) }
        ensures plain { IfOk result (λ m. (low high : ℤ) → plain m low high) }
        ensures kept { IfOk result (λ m. kept m) };

    /// A state that stands for the same heaps.
    fn copy(&self, alloc: Global) -> Result<Self, AllocError>
        ensures copy { IfOk result (λ m. IsCopy stands terms depends plain self.now m) }
        ensures kept { kept self.now → IfOk result (λ m. kept m) };

    /// What an action may come to.
    fn act(
        &self,
        alloc: Global,
        action: &Text,
        fresh: Option<Var>,
        args: &Terms,
    ) -> Result<Branches<Self>, AllocError>
        requires { MayBeAsked Self.Local.actions action.now fresh (terms_view args.now) (terms self.now) }
        ensures laws { IfOk result (λ bs. ActLaw stands terms Self.Local.actions action.now fresh (terms_view args.now)
            (asked action.now (terms_view args.now)) self.now (branches_view bs)) }
        ensures forms { IfOk result (λ bs. OpenWhatMatters stands terms depends action.now fresh (terms_view args.now) self.now
            (branches_view bs)) }
        ensures plain { keeps_plain → IfOk result (λ bs. ActsPlainly plain action.now (terms_view args.now) self.now (branches_view bs)) }
        ensures narrow { keeps_narrow → IfOk result (λ bs. ActsNarrowly terms action.now (terms_view args.now) self.now (branches_view bs)) }
        ensures kept { kept self.now → IfOk result (λ bs. Each (λ b. kept b.state) (branches_view bs)) }
        ensures misses { IfOk result (λ bs. Each (λ b. MissesItsOwn Self.Local.memory b.result) (branches_view bs)) };

    ghost meaning: { IsMeaning Self.Local.memory stands terms };

    ghost asked_are_given: { AsksItsArguments asked };

    /// What a plain state is, is said for all memories by their names.
    ghost plain_is_said: { (s : Self) (low high : ℤ) → plain s low high ↔ IsPlainState Self.Local.memory (terms s) low high };
}

/// A symbolic memory on which core predicates are produced and consumed, whose missed keys are fixed, and whose whole state can be
/// listed.
pub trait ListedMemory: SymMemory {
    /// What producing a core predicate may come to: the state with its key, each branch done with true. There is none where
    /// the key surely can't be added.
    fn produce(
        &self,
        alloc: Global,
        core: &Text,
        ins: &Terms,
        outs: &Terms,
    ) -> Result<Branches<Self>, AllocError>
        requires { TakesBoth Self.Local.memory core.now (terms_view ins.now) (terms_view outs.now) }
        ensures laws { IfOk result (λ bs. ProduceLaw Self.Local.memory Self.stands Self.terms core.now (terms_view ins.now) (terms_view outs.now)
            self.now (branches_view bs)) }
        ensures forms { IfOk result (λ bs. ProducesWhatMatters Self.Local.memory Self.stands Self.terms core.now (terms_view ins.now)
            (terms_view outs.now) self.now (branches_view bs)) }
        ensures plain { Self.keeps_plain → IfOk result (λ bs. ProducesPlainly Self.plain core.now (terms_view ins.now) (terms_view outs.now) self.now
            (branches_view bs)) }
        ensures narrow { Self.keeps_narrow → IfOk result (λ bs. ProducesNarrowly Self.terms core.now (terms_view ins.now) (terms_view outs.now) self.now
            (branches_view bs)) }
        ensures kept { Self.kept self.now → IfOk result (λ bs. Each (λ b. Self.kept b.state) (branches_view bs)) };

    /// What consuming a core predicate may come to: done with the list of its outs, and the state without its key; or a miss
    /// of the key.
    fn consume(&self, alloc: Global, core: &Text, ins: &Terms) -> Result<Branches<Self>, AllocError>
        requires { TakesIns Self.Local.memory core.now (terms_view ins.now) }
        ensures laws { IfOk result (λ bs. ConsumeLaw Self.Local.memory Self.stands Self.terms core.now (terms_view ins.now) self.now (branches_view bs)) }
        ensures plain { Self.keeps_plain → IfOk result (λ bs. ConsumesPlainly Self.plain (terms_view ins.now) self.now (branches_view bs)) }
        ensures narrow { Self.keeps_narrow → IfOk result (λ bs. ConsumesNarrowly Self.terms core.now (terms_view ins.now) self.now (branches_view bs)) }
        ensures kept { Self.kept self.now → IfOk result (λ bs. Each (λ b. Self.kept b.state) (branches_view bs)) };

    /// What may fix a key that an action misses.
    fn fixes(&self, alloc: Global, key: &SymKey) -> Result<Fixes, AllocError>
        ensures laws { IfOk result (λ fs. FixLaw Self.Local.memory Self.Local.actions (key_view key.now) (fixes_view fs)) }
        ensures narrow { Self.keeps_narrow → IfOk result (λ fs. FixesNarrowly (key_view key.now) (fixes_view fs)) };

    /// The state as uses of core predicates, one key each.
    fn listing(&self, alloc: Global) -> Result<CoreUses, AllocError>
        ensures { IfOk result (λ us. IsListing Self.Local.memory Self.stands Self.terms Self.kept self.now (uses_view us)) };
}
