//! Number words.
ghost use Rattle.std.specs.Prelude.{◌≡◌, ◌<◌, IfSome};
ghost use Rattle.command_words.specs.Number.{number_in, number_of};

/// The number of a number word: one to twenty ASCII digits, leading zeros allowed. `None` for any
/// other word.
pub fn number(word: &str) -> Option<u128>
    ensures value { result ≡ number_of word.now }
{
    if word.is_empty() || word.len() > 20 {
        return None;
    }
    let mut value = 0u128;
    for byte in word.as_bytes() {
        if !byte.is_ascii_digit() {
            return None;
        }
        value = value * 10 + u128::from(*byte - b'0');
    }
    Some(value)
}

/// The number of a number word that is at least `least` and below `end`.
pub fn number_in(least: u64, end: u64, text: &str) -> Option<u64>
    ensures value { result ≡ number_in least end text.now }
    ensures below { IfSome result (λ n. n < end) }
{
    let value = number(text)?;
    if value >= u128::from(least) && value < u128::from(end) {
        Some(value as u64)
    } else {
        None
    }
}
