// The kinds of frame. RR and RNR tell a station's status, SARM and DISC ask, UA and DM answer.
#[derive(Clone, Copy, PartialEq, Eq, Debug)]
pub enum Kind {
    I,
    Rr,
    Rnr,
    Sarm,
    Disc,
    Ua,
    Dm,
}
