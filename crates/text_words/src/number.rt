// Numbers out of words.
ghost use Rattle.std.specs.Prelude.{◌≡◌, ◌≤◌, IfSome};
ghost use Rattle.std.specs.Option.{SomeIff};
ghost use Rattle.std.specs.Str.Parse.{digits_value};
ghost use Rattle.text_words.specs.Digits.{SpellsDigits};
ghost use Rattle.text_words.specs.Words.{number_in};

// The number that digits spell, where it fits.
fn digits(word: &[u8]) -> Option<u64>
    ensures { SomeIff result (SpellsDigits word.now) (digits_value 10 word.now) }
{
    if word.is_empty() || word[0] == b'+' {
        return None;
    }
    let text = str::from_utf8(word).ok()?;
    text.parse::<u64>().ok()
}

/// The number that a word is, in a range.
pub fn number_of(word: &[u8], low: u64, high: u64) -> Option<u64>
    ensures value { result ≡ number_in low high word.now }
    ensures bounds { IfSome result (λ n. (low ≤ n) × (n ≤ high)) }
{
    if word.len() > 1 && word[0] == b'0' {
        return None;
    }
    let number = digits(word)?;
    if number < low || number > high {
        return None;
    }
    Some(number)
}
