// A block: the information of an I frame with memory of its own, 0 to 64 octets.
ghost use Rattle.std.specs.Prelude.{◌≤◌};

mod calls;

// A length beside fixed memory, since the libraries allocate nothing and a block is copied. No `impl Model`: a type that is
// `Copy` gives its fields back from what is seen, and the octets behind the length are not seen.
#[derive(Clone, Copy)]
pub struct Block {
    octets: [u8; 64],
    len: usize,
    ghost fits: { len ≤ 64 },
}
