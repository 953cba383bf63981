//! What only proofs look at, as commands.
ghost use Rattle.std.specs.Prelude.{◌≡◌, [], ◌∷◌, IfOk};
ghost use Rattle.source_language.specs.Code.{code_view};
ghost use Rattle.source_language.specs.Compiled as compiled;
ghost use Rattle.source_language.specs.Procedures.{placed};
ghost use Rattle.source_language.specs.View.{invariants_view, logic_view};

use crate::pieces::{one, put};
use crate::temporaries::append_names;
use crate::trees::{Invariant, Logic};
use gil_syntax::{Body, Command, Texts};
use std::alloc::{AllocError, Global};
use syntax_copy::{copy_assertion, copy_params, copy_texts, copy_use};

/// A logic command.
pub fn logic_code(alloc: Global, at: u32, logic: &Logic) -> Result<Body, AllocError>
    ensures { IfOk result (λ code. code_view code ≡ placed at (compiled.logic_command (logic_view logic.now)) ∷ []) }
{
    match logic {
        Logic::Fold(used) => one(alloc, at, Command::Fold(copy_use(alloc, used)?)),
        Logic::Unfold(used) => one(alloc, at, Command::Unfold(copy_use(alloc, used)?)),
        Logic::Assert(assertion) => {
            let assertion = copy_assertion(alloc, assertion)?;
            one(alloc, at, Command::AssertThat(assertion))
        }
        Logic::Invariant(invariant) => {
            let names = copy_texts(alloc, &invariant.names)?;
            let logicals = copy_params(alloc, &invariant.logicals)?;
            let assertion = copy_assertion(alloc, &invariant.assertion)?;
            one(
                alloc,
                at,
                Command::LoopInvariant(names, logicals, assertion),
            )
        }
    }
}

/// The invariant of a loop that assigns more names, which are none of the source.
pub fn invariant_code(
    alloc: Global,
    at: u32,
    more: Texts,
    invariant: &Option<Invariant>,
) -> Result<Body, AllocError>
    ensures { IfOk result (λ code. code_view code ≡ compiled.invariant_code at more (invariants_view invariant.now)) }
{
    let mut code = Body::new(alloc);
    if let Some(invariant) = invariant {
        let mut names = copy_texts(alloc, &invariant.names)?;
        append_names(&mut names, more)?;
        let logicals = copy_params(alloc, &invariant.logicals)?;
        let assertion = copy_assertion(alloc, &invariant.assertion)?;
        put(
            &mut code,
            at,
            Command::LoopInvariant(names, logicals, assertion),
        )?;
    }
    Ok(code)
}
