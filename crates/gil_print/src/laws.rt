//! What holds of the printed texts of all programs. The functions do nothing: their contracts are the laws.
ghost use Rattle.gil_print.specs.Writable.{PrintedAgain, PrintedTextsSpell, PrintingTellsPrograms};

/// The printed text of a program that a text spells, spells it.
pub fn printed_again()
    ensures { PrintedAgain }
{}

/// The printed text of a program that some text spells, but for the numbers of its commands, spells it.
pub fn printed_texts_spell()
    ensures { PrintedTextsSpell }
{}

/// Programs that texts spell and that are printed alike are the same, but for the numbers of their commands.
pub fn printing_tells_programs()
    ensures { PrintingTellsPrograms }
{}
