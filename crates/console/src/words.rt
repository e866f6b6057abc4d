// The words of a line: runs of octets between ASCII white space.
ghost use Rattle.std.specs.Prelude.{◌≡◌};
ghost use Rattle.std.specs.Str.{bytes_eq};
ghost use Rattle.console.specs.Words.{white, first_word, after_word};

// Tab, line feed, VT, FF, CR or the space.
fn is_white(octet: u8) -> bool
    ensures { result ≡ white octet }
{
    matches!(octet, b' ' | 9..=13)
}

// The first word, empty where there is none, and what stands behind it.
pub fn split_word(text: &[u8]) -> (&[u8], &[u8])
    ensures word { result.0.now ≡ first_word text.now }
    ensures rest { result.1.now ≡ after_word text.now }
{
    let white = text.iter().take_while(|octet| is_white(**octet)).count();
    let (_, trimmed) = text.split_at(white);
    let solid = trimmed
        .iter()
        .take_while(|octet| !is_white(**octet))
        .count();
    trimmed.split_at(solid)
}

// Whether a word is this text.
pub fn is(word: &[u8], text: &str) -> bool
    ensures { result ≡ bytes_eq word.now text.now }
{
    word == text.as_bytes()
}
