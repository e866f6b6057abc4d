// Cases of a line by itself, and of a primary over it.
use crate::answers::refusal;
use crate::both::Case;
use frames::{Block, FrameBuf, Kind, Way};
use lines::Line;
use link::Link;
use stations::Primary;

// 6: over a line of D = 2, T = 4 is refused with 16 and T = 5 is not.
pub struct PollTimer;

impl Case for PollTimer {
    fn holds<L: Line + Drop>(line: L) -> bool {
        refusal(Link::check(&line, 4)) == Some(16) && Link::check(&line, 5).is_ok()
    }
}

// A frame of the secondary that has no information. (A literal, since it cannot fail as a conversion of parts can.)
fn from_secondary(kind: Kind, nr: u8) -> FrameBuf {
    FrameBuf {
        kind,
        ns: 0,
        nr,
        b: 0,
        block: Block::empty(),
    }
}

// A primary that is open: its SARM is taken, and it hears UA.
fn opened<L: Line>(line: &mut L) -> Primary {
    let mut primary = Primary::new();
    let _ = primary.open(line);
    let _ = line.take(Way::One);
    let _ = primary.hear(from_secondary(Kind::Ua, 0), line);
    primary
}

// Whether the only frame on way 1 is I with this N(S); it is taken.
fn numbered<L: Line>(line: &mut L, ns: u8) -> bool {
    let taken = line.take(Way::One);
    taken.is_ok_and(|frame| frame.kind == Kind::I && frame.ns == ns) && line.count(Way::One) == 0
}

// The primary sends a block, whose frame on the line has this N(S).
fn sends<L: Line>(primary: &mut Primary, line: &mut L, ns: u8) -> bool {
    primary.send(&[ns], line).is_ok() && numbered(line, ns)
}

// The primary hears that the block with this N(S) was taken in.
fn hears<L: Line>(primary: &mut Primary, line: &mut L, ns: u8) -> bool {
    let nr = ns.wrapping_add(1) % 8;
    primary.hear(from_secondary(Kind::Rr, nr), line).is_ok()
}

// 13: a connection's first eight blocks have N(S) 0 to 7, and its ninth has 0. Each is looked at on the line, so a primary
// is played alone, and the line is its far end.
pub struct NinthBlock;

impl Case for NinthBlock {
    fn holds<L: Line + Drop>(mut line: L) -> bool {
        let mut primary = opened(&mut line);
        [0, 1, 2, 3, 4, 5, 6, 7, 0].iter().all(|ns| sends(&mut primary, &mut line, *ns)
            && hears(&mut primary, &mut line, *ns))
    }
}
