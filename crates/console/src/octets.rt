// Octets as a word: hexadecimal text, two digits an octet, the high one first; a lone '-' for no octets.
ghost use Rattle.std.specs.Prelude.{◌≡◌, IfOk, Some, vec_items, string_bytes};
ghost use Rattle.std.specs.Option.{option_map};
ghost use Rattle.console.specs.Hex.{spelled, octets_answer, text_of};

use std::alloc::{AllocError, Global};

// The octets that digits spell, if they are hexadecimal digits of an even number.
fn spelled(heap: Global, digits: &[u8]) -> Result<Option<Vec<u8>>, AllocError>
    ensures { IfOk result (λ o. option_map vec_items o ≡ spelled digits.now) }
{
    // Looked at first, so that a word with a wrong digit takes no memory.
    if !digits.iter().all(|digit| digit.is_ascii_hexdigit()) {
        return Ok(None);
    }
    let mut octets = vec![in heap; 0; digits.len() / 2]?;
    let spelled = hex::decode_to_slice(digits, octets.as_mut_slice());
    Ok(spelled.is_ok().then_some(octets))
}

// The octets that a word stands for.
pub fn parse(heap: Global, word: &[u8]) -> Result<Option<Vec<u8>>, AllocError>
    ensures { IfOk result (λ o. option_map vec_items o ≡ octets_answer word.now) }
{
    match word {
        [] => Ok(None),
        b"-" => Ok(Some(Vec::new(heap))),
        _ => spelled(heap, word),
    }
}

// The word for a run of octets.
pub fn text(heap: Global, octets: &[u8]) -> Result<String, AllocError>
    ensures shows { IfOk result (λ t. string_bytes t ≡ text_of octets.now) }
    ensures reads_back { IfOk result (λ t. octets_answer (string_bytes t) ≡ Some octets.now) }
{
    if octets.is_empty() {
        String::from_str(heap, "-")
    } else {
        hex::encode(heap, octets)
    }
}
