// Decimal numbers up to a bound.
ghost use Rattle.std.specs.Prelude.{◌≡◌, ◌≤◌, IfSome};
ghost use Rattle.console.specs.Decimals.{decimal_answer};

// The number that a word spells with digits alone, if it is at most that. Leading zeros are allowed.
pub fn decimal(word: &[u8], most: usize) -> Option<usize>
    ensures answers { result ≡ decimal_answer most word.now }
    ensures bounds { IfSome result (λ n. n ≤ most) }
{
    if word.is_empty() {
        return None;
    }
    let mut value: u128 = 0;
    for octet in word {
        if !octet.is_ascii_digit() {
            return None;
        }
        value = value * 10 + u128::from(*octet - b'0');
        if value > most as u128 {
            return None;
        }
    }
    Some(value as usize)
}

// A number from 0 to 255. (One generic function for this and `pair` would be no plainer: its clause would speak of its type's
// conversion.)
pub fn octet(word: &[u8]) -> Option<u8>
    ensures { result ≡ decimal_answer 255 word.now }
{
    Some(decimal(word, 255)? as u8)
}

// A number from 0 to 65535.
pub fn pair(word: &[u8]) -> Option<u16>
    ensures { result ≡ decimal_answer 65535 word.now }
{
    Some(decimal(word, 65535)? as u16)
}
