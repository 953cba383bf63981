//! The core predicates: what assertions say of heaps, one key each.
ghost use Rattle.std.specs.Prelude.{◌≡◌};
ghost use Rattle.gil_values.specs.Characters.{IsText};
ghost use Rattle.mem_model.specs.CoreNames.{core_of, core_name, ins_of, outs_of, has_core};
ghost use Rattle.mem_model.specs.Cores.{OneKeyMoreIsHeap, OneKeyMoreIsUnion, CoresStandForKeys};

use crate::keys::MemoryName;
use gil_values::Text;

/// A core predicate (Gillian, Part II, CAV 2021). It stands for one key of a heap.
#[derive(Clone, Copy, Debug, PartialEq, Eq)]
pub enum Core {
    /// `prop(l, p; v)`: the property p of l holds v.
    Prop,
    /// `cell(l, i; v)`: the cell of l at offset i holds v.
    Cell,
    /// `shape(l; d)`: d lists the names of the record l.
    Shape,
    /// `bound(l; n)`: the block l has n cells.
    Bound,
    /// `dom(l; d)`: d lists the names of the object l.
    Dom,
    /// `proto(l; v)`: the prototype of the object l is v.
    Proto,
    /// `gone(l;)`: l was disposed of or freed.
    Gone,
}

impl Core {
    /// The core predicate of this name.
    pub fn from_name(name: &Text) -> Option<Core>
        ensures { result ≡ core_of name.now }
    {
        let name = name.as_str();
        if name == "prop" {
            Some(Core::Prop)
        } else if name == "cell" {
            Some(Core::Cell)
        } else if name == "shape" {
            Some(Core::Shape)
        } else if name == "bound" {
            Some(Core::Bound)
        } else if name == "dom" {
            Some(Core::Dom)
        } else if name == "proto" {
            Some(Core::Proto)
        } else if name == "gone" {
            Some(Core::Gone)
        } else {
            None
        }
    }

    /// The name.
    pub fn as_str(self) -> &'static str
        ensures name { result.now ≡ core_name self }
        ensures characters { IsText result.now }
    {
        match self {
            Core::Prop => "prop",
            Core::Cell => "cell",
            Core::Shape => "shape",
            Core::Bound => "bound",
            Core::Dom => "dom",
            Core::Proto => "proto",
            Core::Gone => "gone",
        }
    }

    /// How many ins it has.
    pub fn ins(self) -> usize
        ensures { result ≡ ins_of self }
    {
        match self {
            Core::Prop | Core::Cell => 2,
            Core::Shape | Core::Bound | Core::Dom | Core::Proto | Core::Gone => 1,
        }
    }

    /// How many outs it has.
    pub fn outs(self) -> usize
        ensures { result ≡ outs_of self }
    {
        match self {
            Core::Gone => 0,
            _ => 1,
        }
    }

    /// Whether the memory has it.
    pub fn is_of(self, memory: MemoryName) -> bool
        ensures { result ≡ has_core memory self }
    {
        match memory {
            MemoryName::Record => match self {
                Core::Prop | Core::Shape | Core::Gone => true,
                _ => false,
            },
            MemoryName::Block => match self {
                Core::Cell | Core::Bound | Core::Gone => true,
                _ => false,
            },
            MemoryName::Object => match self {
                Core::Prop | Core::Dom | Core::Proto => true,
                _ => false,
            },
        }
    }
}

/// A heap with one key more is a heap of a memory exactly where the heap and the one key are, and the key stands together
/// with each key of the heap.
pub fn one_key_more_is_a_heap()
    ensures { OneKeyMoreIsHeap }
{}

/// A heap with one key more is the union of the heap and the one key.
pub fn one_key_more_is_a_union()
    ensures { OneKeyMoreIsUnion }
{}

/// Each core predicate has its name, its numbers and its memories.
pub fn cores_stand_for_keys()
    ensures { CoresStandForKeys }
{}
