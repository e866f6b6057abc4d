// What a link answers.
use link::LinkRefusal;
use stations::{Counts, Taken};

// So many frames are put, and none is lost.
pub fn puts(put: usize) -> Result<Counts, LinkRefusal> {
    Ok(Counts { put, lost: 0 })
}

// A frame is heeded, and answered by so many frames; nothing is acknowledged or taken in.
pub fn heeds(put: usize) -> Result<Taken, LinkRefusal> {
    Ok(Taken {
        counts: Counts { put, lost: 0 },
        acknowledged: 0,
        taken: false,
        passed: false,
    })
}

// The number of the refusal, where a call was refused.
pub fn refusal<T: Drop>(answer: Result<T, LinkRefusal>) -> Option<u8> {
    answer.err().map(LinkRefusal::number)
}
