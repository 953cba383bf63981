//! What ends a body, and where its jumps go.
ghost use Rattle.std.specs.Prelude.{◌≡◌, length};
ghost use Rattle.std.specs.List.{list_any};
ghost use Rattle.gil_syntax.specs.Valid as valid;
ghost use Rattle.gil_syntax.specs.Valid.{a_proc};
ghost use Rattle.gil_syntax.specs.View.{command_view, proc_view};

use crate::{Command, NumberedCommand, Proc};

/// Whether a label is that of none of this many commands.
fn is_no_label(commands: usize, label: i64) -> bool
    ensures { result ≡ valid.is_no_label commands label }
{
    label < 0 || label as u64 >= commands as u64
}

/// Whether a handler has such a label.
fn is_bad_handler(commands: usize, handler: Option<i64>) -> bool
    ensures { result ≡ valid.is_bad_handler commands handler }
{
    match handler {
        Some(label) => is_no_label(commands, label),
        None => false,
    }
}

/// Whether a jump or a handler goes to none of this many commands.
fn is_bad_jump(commands: usize, command: &Command) -> bool
    ensures { result ≡ valid.is_bad_jump commands (command_view command.now) }
{
    match command {
        Command::Call(_, _, _, handler) => is_bad_handler(commands, *handler),
        Command::IfGoto(_, target) => is_no_label(commands, *target),
        _ => false,
    }
}

/// Whether a body may end with the command.
fn ends_body(command: &Command) -> bool
    ensures { result ≡ valid.ends_body (command_view command.now) }
{
    matches!(
        command,
        Command::Return(_) | Command::Fail(_) | Command::Throw(_) | Command::Vanish
    )
}

/// Whether some command jumps to none of these, or has its handler at none.
fn has_bad_jump(body: &[NumberedCommand]) -> bool
    ensures { result ≡ list_any (λ c. valid.is_bad_jump (length body.now) (command_view c.command)) body.now }
{
    body.iter()
        .any(|numbered| is_bad_jump(body.len(), &numbered.command))
}

/// Whether some jump or handler goes to none of the commands.
pub(crate) fn has_bad_label(proc: &Proc) -> bool
    ensures { result ≡ valid.has_bad_label (a_proc (proc_view proc.now)) }
{
    has_bad_jump(proc.body.as_slice())
}

/// Whether the body is empty or ends with a command that doesn't end it.
pub(crate) fn has_no_end(proc: &Proc) -> bool
    ensures { result ≡ valid.has_no_end (a_proc (proc_view proc.now)) }
{
    match proc.body.as_slice().last() {
        Some(last) => !ends_body(&last.command),
        None => true,
    }
}
