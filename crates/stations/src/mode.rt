// The modes of the primary. (The secondary is closed or open.)
#[derive(Clone, Copy, PartialEq, Eq, Debug)]
pub enum Mode {
    Closed,
    Opening,
    Open,
    Closing,
}
