// A frame that was read. The information of an I frame is lent from the octets that it was read from.
#[derive(Clone, Copy, Debug)]
pub enum Frame<'a> {
    I {
        ns: u8,
        nr: u8,
        b: u8,
        info: &'a [u8],
    },
    Rr {
        nr: u8,
        b: u8,
    },
    Rnr {
        nr: u8,
        b: u8,
    },
    Sarm,
    Disc,
    Ua,
    Dm,
}
