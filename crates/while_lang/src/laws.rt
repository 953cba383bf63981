//! What holds of every While program.
ghost use Rattle.while_lang.specs.Laws.{EndsStay};

/// An end of a program is its end with more turns of its loops and deeper calls too.
pub fn ends_stay()
    ensures { EndsStay }
{}
