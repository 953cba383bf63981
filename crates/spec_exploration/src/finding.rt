//! The command at which a path stands, and its place.
ghost use Rattle.std.specs.Prelude.{◌≡◌, IfOk, IfSome, Some};
ghost use Rattle.std.specs.Option.{option_map};
ghost use Rattle.gil_syntax.specs.Program.{prog_view};
ghost use Rattle.gil_syntax.specs.Pure.{PureParts};
ghost use Rattle.gil_syntax.specs.View.{numbered_command_view};
ghost use Rattle.sym_engine.specs.Lawful.{MayAdvance};
ghost use Rattle.sym_paths.specs.Meaning.{command_of_frames};
ghost use Rattle.sym_paths.specs.Steps.{IsPlaceOf};
ghost use Rattle.sym_paths.specs.View.{frames_view};

use gil_syntax::{NumberedCommand, Prog};
use gil_values::Place;
use std::alloc::{AllocError, Global};
use sym_paths::{Frames, running};

/// The command at which the frames stand.
pub(crate) fn command_of<'p>(prog: &'p Prog, frames: &Frames) -> Option<&'p NumberedCommand>
    ensures command { option_map (λ c. numbered_command_view c.now) result
        ≡ command_of_frames (prog_view prog.now) (frames_view frames.now) }
    ensures below { IfSome result (λ _. MayAdvance (frames_view frames.now)) }
{
    let running = running(frames)?;
    let proc = prog.proc(&running.proc)?;
    proc.body.as_slice().get(running.next)
}

/// The place of that command.
pub(crate) fn place_of(
    alloc: Global,
    frames: &Frames,
    numbered: &NumberedCommand,
) -> Result<Place, AllocError>
    ensures { IfOk result (λ place. (p : PureParts) → command_of_frames p (frames_view frames.now) ≡ Some (numbered_command_view numbered.now)
        → IsPlaceOf p (frames_view frames.now) place) }
{
    let Some(frame) = running(frames) else {
        return Err(AllocError);
    };
    let proc = frame.proc.copy(alloc)?;
    Ok(Place {
        proc,
        at: numbered.at,
    })
}
