//! Laws of the operator table: each is the contract of a function that does nothing.
ghost use Rattle.gil_values.specs.Answers.{AnswersAreExact};
ghost use Rattle.gil_values.specs.Laws.{AddsNumbers, AndIsBoth, KindTells, LenCountsCharacters, LenCountsElements, MultipliesNumbers, NegatesNumbers, NotTurns, OrIsEither, SubtractsNumbers, AppendJoinsLists, AppendJoinsTexts, CodeNumbers, DivisionTruncates, EqualTells, KindsFirst, KindsOfBothFirst, LessOrders, LessOrEqualOrders, NthCounts, OnlyNthHasRange, RangeIsOfLists, ZeroDivides};
ghost use Rattle.gil_values.specs.Printed.{NumeralsTell, PrintingTellsNumbers};

/// An answer of `apply1` and `apply2` tells the table's outcome, and the outcome tells the answer, but for want of memory.
pub fn answers_are_exact()
    ensures { AnswersAreExact }
{}

/// Kinds are tested before all else: the fault of kinds comes exactly at kinds that the operator doesn't take.
pub fn kinds_come_first()
    ensures one { KindsFirst }
    ensures two { KindsOfBothFirst }
{}

/// The quotient and the remainder are those of ISO/IEC 9899:2011, 6.5.5.
pub fn division_truncates()
    ensures { DivisionTruncates }
{}

/// The fault of zero comes exactly where a whole number is divided by 0.
pub fn zero_divides_nothing()
    ensures { ZeroDivides }
{}

/// The numbers that the code holds are those of `i128`.
pub fn code_numbers()
    ensures { CodeNumbers }
{}

/// `<` and `<=` are the order of whole numbers.
pub fn less_orders()
    ensures less { LessOrders }
    ensures less_or_equal { LessOrEqualOrders }
{}

/// Sums, differences, products and opposites are those of whole numbers, of any size.
pub fn arithmetic_computes()
    ensures sum { AddsNumbers }
    ensures difference { SubtractsNumbers }
    ensures product { MultipliesNumbers }
    ensures opposite { NegatesNumbers }
{}

/// `not`, `and` and `or` are those of booleans.
pub fn booleans_compute()
    ensures not { NotTurns }
    ensures both { AndIsBoth }
    ensures either { OrIsEither }
{}

/// `len` is the number of characters of a text, and of elements of a list.
pub fn len_counts()
    ensures characters { LenCountsCharacters }
    ensures elements { LenCountsElements }
{}

/// `kind` has a kind at every value.
pub fn kind_tells()
    ensures { KindTells }
{}

/// `=` tells exactly the same values.
pub fn equal_tells()
    ensures { EqualTells }
{}

/// `++` joins two texts or two lists.
pub fn append_joins()
    ensures texts { AppendJoinsTexts }
    ensures lists { AppendJoinsLists }
{}

/// `nth` counts from 0, and has the fault of range exactly outside the list. No other operator has that fault.
pub fn nth_counts()
    ensures element { NthCounts }
    ensures range { RangeIsOfLists }
    ensures alone { OnlyNthHasRange }
{}

/// A numeral is the decimal notation of its number, of any size, without leading zeros.
pub fn numerals_tell()
    ensures { NumeralsTell }
{}

/// Printing is one-to-one on whole numbers and on symbols.
pub fn printing_tells_numbers()
    ensures { PrintingTellsNumbers }
{}
