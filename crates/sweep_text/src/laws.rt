//! What holds of the made texts. The function does nothing: its contract is the law.
ghost use Rattle.sweep_text.specs.Made.{AssertsEachOnce};

/// Each number from 1 to the size is asserted once.
pub fn each_number_is_asserted_once()
    ensures { AssertsEachOnce }
{}
