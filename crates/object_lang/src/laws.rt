//! What holds of every program of the object language.
ghost use Rattle.object_lang.specs.Laws.{EndsStay};

/// An end of a program is its end with more turns of its loops, longer ways along prototypes and deeper calls too.
pub fn ends_stay()
    ensures { EndsStay }
{}
