//! Laws of the definitions, whatever the text.

ghost use Rattle.udmf_text.specs.TextTokens.Laws.{GapsEnd, FaultIsUnclosed};
ghost use Rattle.udmf_text.specs.TextTokens.TokenLaws.{StringsEnd, WordsAreLongest};

/// What is left behind blanks and comments stands behind some, and begins with none.
pub fn gaps_end()
    ensures { GapsEnd }
{}

/// The fault is at a comment that isn't closed and stands behind blanks and comments.
pub fn fault_is_unclosed()
    ensures { FaultIsUnclosed }
{}

/// A string goes on to the next quote that no backslash takes along.
pub fn strings_end()
    ensures { StringsEnd }
{}

/// A word is the longest run of bytes that are in words.
pub fn words_are_longest()
    ensures { WordsAreLongest }
{}
