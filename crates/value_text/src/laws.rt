//! What holds of all values. The functions do nothing: their contracts are the laws.
ghost use Rattle.value_text.specs.Laws.{OnlyWritable, ValuesAgain};

/// A writable value that was printed is read again, whatever follows that is no part of it.
pub fn values_again()
    ensures { ValuesAgain }
{}

/// What is read as a value is a writable one.
pub fn only_writable()
    ensures { OnlyWritable }
{}
