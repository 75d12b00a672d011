/// What is wrong with a line of a scenario. Words have their places from 0.
#[derive(Clone, Copy, Debug, PartialEq, Eq)]
pub enum SyntaxFault {
    /// The first word begins no form.
    Word,
    /// No form with that first word has so many words.
    Count,
    /// No form has this word there.
    Keyword(u8),
    /// The forms have a number there, and this word is none, or not in its range.
    Number(u8),
    /// The first command isn't `pool`, the second isn't `host`, or one of these stands later.
    Place,
}
