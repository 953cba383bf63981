//! Variables by their names.
ghost use Rattle.std.specs.Prelude.{IfOk, IfErr};
ghost use Rattle.atom_text.specs.Resolving.{FindsAll, IsTwiceUnless, variable_in};

use crate::sources::Declaration;
use pure_terms::Var;
use std::alloc::{AllocError, AllocFailed, Global};
use std::collections::HashMap;

/// Why declarations and expressions make no list of atoms, and the byte at which that stands.
#[derive(Clone, Copy, Debug, PartialEq, Eq)]
pub(crate) enum Unfit {
    /// A name is declared twice.
    Duplicate(usize),
    /// An expression names what isn't declared.
    UnknownName(usize),
    /// Too many variables are declared.
    TooMany(usize),
    /// Memory ran out.
    Memory,
}

impl From<AllocError> for Unfit {
    ghost use Rattle.std.specs.Prelude.{◌≡◌};
    ghost use Rattle.atom_text.specs.declared.naming.Unfit.TheVariants.{Memory};

    ghost from_gives = { λ _ e. e ≡ Memory };

    fn from(_error: AllocError) -> Unfit {
        Unfit::Memory
    }
}

impl<T: Drop> From<AllocFailed<T>> for Unfit {
    ghost use Rattle.std.specs.Prelude.{◌≡◌};
    ghost use Rattle.atom_text.specs.declared.naming.Unfit.TheVariants.{Memory};

    ghost from_gives = { λ _ e. e ≡ Memory };

    fn from(_error: AllocFailed<T>) -> Unfit {
        Unfit::Memory
    }
}

/// Variables by their names.
pub(crate) type Variables<'a> = HashMap<&'a str, Var>;

/// The variables of declarations, which are numbered in their order.
pub(crate) fn variables_of<'a>(
    alloc: Global,
    declarations: &'a [Declaration],
) -> Result<Variables<'a>, Unfit>
    ensures ok { IfOk result (λ variables. FindsAll declarations.now (variable_in variables)) }
    ensures twice { IfErr result (IsTwiceUnless declarations.now) }
{
    let mut variables = HashMap::new(alloc);
    for (place, declaration) in declarations.iter().enumerate() {
        let variable = Var {
            number: place as u64,
            sort: declaration.sort,
        };
        if variables
            .insert(declaration.name.as_str(), variable)?
            .is_some()
        {
            return Err(Unfit::Duplicate(declaration.at));
        }
    }
    Ok(variables)
}
