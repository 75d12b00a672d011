// Laws of words and numbers: each is the contract of a function with an empty body, which a crate above calls to have it.
ghost use Rattle.text_words.specs.Laws.{NumberLaws, WordLaws};

/// A number in the range is read back from its decimal digits, and a word that is read for a number is how it is spelled.
pub fn numbers_are_read_back()
    ensures { NumberLaws }
{}

/// Numbers are words, and so are names.
pub fn spellings_are_words()
    ensures { WordLaws }
{}
