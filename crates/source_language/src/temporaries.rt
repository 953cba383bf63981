//! Names that only compiled programs have, which begin with Null.
ghost use Rattle.std.specs.Prelude.{◌≡◌, ◌++◌, IfOk, OnOk};
ghost use Rattle.source_language.specs.Code.{code_view};
ghost use Rattle.source_language.specs.Names as names;
ghost use Rattle.source_language.specs.Names.{temporaries_from};
ghost use Rattle.source_language.specs.Procedures as procedures;

use crate::expressions::null;
use crate::pieces::{put, text};
use gil_syntax::{Body, Command, Texts};
use gil_values::{Text, push_number};
use std::alloc::{AllocError, Global};

/// The temporary of a number.
pub fn temporary(alloc: Global, number: usize) -> Result<Text, AllocError>
    ensures { IfOk result (λ t. t ≡ names.temporary number) }
{
    let mut name = String::from_str(alloc, "t$")?;
    push_number(&mut name, number as u64)?;
    text(alloc, name.as_str())
}

/// The variable in which a value that is thrown is handled.
pub fn caught(alloc: Global) -> Result<Text, AllocError>
    ensures { IfOk result (λ t. t ≡ names.caught) }
{
    text(alloc, "e$")
}

/// The first temporaries.
pub fn first_temporaries(alloc: Global, count: usize) -> Result<Texts, AllocError>
    ensures { IfOk result (λ list. list ≡ temporaries_from 0 count) }
{
    let mut list = Texts::new(alloc);
    for number in 0..count {
        list.push(temporary(alloc, number)?)?;
    }
    Ok(list)
}

/// The names that the commands of statements assign besides those of the source: so many temporaries, and then the variable in which
/// thrown values are handled, where they do that.
pub fn own_names(alloc: Global, count: usize, catches: bool) -> Result<Texts, AllocError>
    ensures { IfOk result (λ list. list ≡ names.own_names count catches) }
{
    let mut list = first_temporaries(alloc, count)?;
    if catches {
        list.push(caught(alloc)?)?;
    }
    Ok(list)
}

/// More names after the others.
pub(crate) fn append_names(list: &mut Texts, more: Texts) -> Result<(), AllocError>
    ensures { OnOk result (list.new ≡ list.old ++ more) }
{
    for name in more.into_vec() {
        list.push(name)?;
    }
    Ok(())
}

/// The commands that give Null to names.
pub fn nulls(alloc: Global, at: u32, list: &Texts) -> Result<Body, AllocError>
    ensures { IfOk result (λ body. code_view body ≡ procedures.nulls at list.now) }
{
    let mut body = Body::new(alloc);
    let list = list.as_slice();
    for name in list {
        put(&mut body, at, Command::Assign(name.copy(alloc)?, null()))?;
    }
    Ok(body)
}
