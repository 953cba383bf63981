//! What holds of every C-like program.
ghost use Rattle.clike_lang.specs.Laws.{EndsStay};

/// An end of a program is its end with more turns of its loops and deeper calls too.
pub fn ends_stay()
    ensures { EndsStay }
{}
