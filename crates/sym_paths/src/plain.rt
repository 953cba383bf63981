//! What holds of plain expressions: laws of the definitions, which no code is needed for.
ghost use Rattle.sym_paths.specs.PlainLaws.{PlainExpressionsAskNothing};

use pure_terms::folding_replaces;

/// Over plain terms no condition is asked of a plain argument or of a plain form, and its term is plain.
pub fn plain_expressions_ask_nothing()
    ensures { PlainExpressionsAskNothing }
{
    folding_replaces();
}
