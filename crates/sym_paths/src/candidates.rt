//! What holds of the candidates of every path: laws of the definitions, which no code is needed for.
ghost use Rattle.sym_paths.specs.Acting.{ActionsKeepTheLaws};
ghost use Rattle.sym_paths.specs.Calls.{CallsKeepTheLaws};
ghost use Rattle.sym_paths.specs.Copies.{CopiesKeepTheLaws};
ghost use Rattle.sym_paths.specs.Guards.{GuardsKeepTheLaws};
ghost use Rattle.sym_paths.specs.Returns.{ReturnsKeepTheLaws};
ghost use Rattle.sym_paths.specs.Throws.{ThrowsKeepTheLaws};

use sym_model::SymMemory;

/// The candidates of `return`, by which the entry ends or the frame that waits goes on, keep the laws.
pub fn returns_keep_the_laws<M: SymMemory>()
    ensures { ReturnsKeepTheLaws M.stands M.terms }
{}

/// The candidates of `throw`, by which a caller's handler goes on or the path ends, keep the laws.
pub fn throws_keep_the_laws<M: SymMemory>()
    ensures { ThrowsKeepTheLaws M.stands M.terms }
{}

/// The candidates of `ifgoto`, one for each side of the guard, keep the laws.
pub fn guards_keep_the_laws<M: SymMemory>()
    ensures { GuardsKeepTheLaws M.stands M.terms }
{}

/// The candidates of a call keep the laws.
pub fn calls_keep_the_laws<M: SymMemory>()
    ensures { CallsKeepTheLaws M.stands M.terms }
{}

/// The candidates of an action, one for each branch of the memory, keep the laws.
pub fn actions_keep_the_laws<M: SymMemory>()
    ensures { ActionsKeepTheLaws M.stands M.terms M.asked M.Local.actions }
{}

/// Candidates whose memories are copied keep the laws.
pub fn copies_keep_the_laws<M: SymMemory>()
    ensures { CopiesKeepTheLaws M.stands M.terms M.depends M.plain }
{}
