//! The command at which a path stands, and its place.
ghost use Rattle.std.specs.Prelude.{◌≡◌, IfOk, Some};
ghost use Rattle.std.specs.Option.{option_map};
ghost use Rattle.gil_syntax.specs.Program.{prog_view};
ghost use Rattle.gil_syntax.specs.Pure.{PureParts};
ghost use Rattle.gil_syntax.specs.View.{numbered_command_view};
ghost use Rattle.sym_paths.specs.Meaning.{command_of_frames};
ghost use Rattle.sym_paths.specs.Steps.{IsPlaceOf};
ghost use Rattle.sym_paths.specs.View.{frames_view, path_view};
ghost use Rattle.biabduce.specs.Asked.{IsPlaceOfEnd};

use gil_syntax::{NumberedCommand, Prog};
use gil_values::Place;
use std::alloc::{AllocError, Global};
use sym_paths::{Frames, Path, PathEnd, copy_place, running};

/// The command at which the frames stand.
fn command_of<'p>(prog: &'p Prog, frames: &Frames) -> Option<&'p NumberedCommand>
    ensures { option_map (λ c. numbered_command_view c.now) result ≡ command_of_frames (prog_view prog.now) (frames_view frames.now) }
{
    let running = running(frames)?;
    let proc = prog.proc(&running.proc)?;
    proc.body.as_slice().get(running.next)
}

/// The place of that command.
fn place_at(alloc: Global, frames: &Frames, numbered: &NumberedCommand) -> Result<Place, AllocError>
    ensures { IfOk result (λ place. (p : PureParts) → command_of_frames p (frames_view frames.now) ≡ Some (numbered_command_view numbered.now)
        → IsPlaceOf p (frames_view frames.now) place) }
{
    let Some(frame) = running(frames) else {
        return Err(AllocError);
    };
    let proc = frame.proc.copy(alloc)?;
    Ok(Place {
        proc,
        at: numbered.at,
    })
}

/// The place of the command at which the frames stand. Those of a path always stand at one.
fn place_of(alloc: Global, prog: &Prog, frames: &Frames) -> Result<Place, AllocError>
    ensures { IfOk result (IsPlaceOf (prog_view prog.now) (frames_view frames.now)) }
{
    let Some(numbered) = command_of(prog, frames) else {
        return Err(AllocError);
    };
    place_at(alloc, frames, numbered)
}

/// Where a path ends that returned, threw or was cut: the place where it throws, or that of the command at which it stands.
pub(crate) fn place_of_end<M: Drop>(
    alloc: Global,
    prog: &Prog,
    path: &Path<M>,
) -> Result<Place, AllocError>
    ensures { IfOk result (IsPlaceOfEnd (prog_view prog.now) (path_view path.now) (path_view path.now).ending) }
{
    match &path.end {
        Some(PathEnd::Threw(_, place)) => copy_place(alloc, place),
        _ => place_of(alloc, prog, &path.stack),
    }
}
