//! Rows that show what functions are compiled to.
ghost use Rattle.std.specs.Prelude.{◌≡◌, [], ◌∷◌};
ghost use Rattle.gil_syntax.specs.Pure.{return};
ghost use Rattle.source_language.specs.Procedures.{null, placed};
ghost use Rattle.while_compiler.specs.Compiled.{compiled_function};
ghost use Rattle.while_compiler.specs.Examples.{one, returns_one, every_statement, its_commands};

/// A function returns Null where its statements end, also where they never do.
pub fn a_return_stands_last()
    ensures { (compiled_function returns_one).body ≡ placed 14 (return one) ∷ placed 0 (return null) ∷ [] }
{}

/// Each statement has its commands, in order.
pub fn statements_have_their_commands()
    ensures { (compiled_function every_statement).body ≡ its_commands }
{}
