// An assertion of a long test as one call: written out in each row, it takes the proof four times as long. (The link's tests
// have one too: two test crates share no crate but the libraries.)
use std::fmt::Debug;
use std::process::Abort;

pub(crate) fn same<T: PartialEq + Debug + Drop>(rt: &impl Abort, answer: T, expected: T) {
    assert_eq!(rt; answer, expected);
}
