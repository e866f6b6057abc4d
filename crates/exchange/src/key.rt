// The keys that the modules hold: 0 to 64 octets each, from a fixed generator.
use crate::generator::Generator;
use std::alloc::{AllocError, Global};

// The next key of a generator.
pub fn draw(heap: Global, source: &mut Generator) -> Result<Vec<u8>, AllocError> {
    let length = source.below(65);
    (0..length).map(|_| source.below(256) as u8).collect(heap)
}
