//! What holds of every path: laws of the definitions, which no code is needed for.
ghost use Rattle.sym_paths.specs.Beginning.{BeginningsStand};
ghost use Rattle.sym_paths.specs.Calling.{CallsLead};
ghost use Rattle.sym_paths.specs.Valued.{ValuedCandidates};
ghost use Rattle.sym_paths.specs.Moves.{AskNothing};
ghost use Rattle.sym_paths.specs.Settling.{CandidatesSettle};
ghost use Rattle.sym_paths.specs.Laws.{PathsMayGrow, PathsStandAtCommands, BindingsKeepStores, LaterVariablesAreProper, VariablesFollowInTurn};

use sym_model::SymMemory;

/// A path on which a procedure begins stands for exactly the states in which it begins so.
pub fn beginnings_stand<M: SymMemory>()
    ensures { BeginningsStand M.stands M.terms M.plain }
{}

/// What a path stands for stays where the table and the valuation grow, and the counter rises.
pub fn paths_may_grow<M: SymMemory>()
    ensures { PathsMayGrow M.stands M.terms }
{}

/// A path stands at the command at which the states stand that it stands for.
pub fn paths_stand_at_commands()
    ensures { PathsStandAtCommands }
{}

/// Where a name gets a term and the term's value, the stores still agree.
pub fn bindings_keep_stores()
    ensures { BindingsKeepStores }
{}

/// A valuation stays proper where it is extended by the counter's symbol, or by a value of the sort of a draw.
pub fn later_variables_are_proper()
    ensures { LaterVariablesAreProper }
{}

/// The values of the variables of one step and those of the next are those of both.
pub fn variables_follow_in_turn()
    ensures { VariablesFollowInTurn }
{}

/// At `vanish`, at a logic command and at `usym` a path has one next path, without a new condition.
pub fn some_commands_ask_nothing<M: SymMemory>()
    ensures { AskNothing M.stands M.terms }
{}

/// Where the laws hold of the candidates of a step, they hold of what a decider makes of them.
pub fn candidates_settle<M: SymMemory>()
    ensures { CandidatesSettle M.stands M.terms }
{}

/// At a call a next path goes on in a procedure, fails with a text or is unknown.
pub fn calls_lead<M: SymMemory>()
    ensures { CallsLead M.Local.actions M.stands M.terms }
{}

/// The candidates of an assignment and of `fail`, one for each fault of the expression and one for its result, keep the laws.
pub fn valued_candidates_keep_the_laws<M: SymMemory>()
    ensures { ValuedCandidates M.stands M.terms }
{}
