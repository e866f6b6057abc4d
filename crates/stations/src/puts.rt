// A frame that the line has no room for is lost.
ghost use Rattle.std.specs.Prelude.{◌≡◌, true, is_ok};
ghost use Rattle.frames.specs.Parts.{given};
ghost use Rattle.frames.specs.Writer.{admit_answer};
ghost use Rattle.lines.specs.Entries.{on, with_way};
ghost use Rattle.stations.specs.Answers.{AtMost};
ghost use Rattle.stations.specs.Puts.{put, counts};

use crate::Counts;
use frames::{Parts, Way};
use lines::Line;

// Puts a frame that can be written. The line and its way are two parameters here and in `Station`: a struct of both
// would have to lend the line anew at each call. Inlined: most frames are known but for their numbers.
#[inline(always)]
pub(crate) fn deliver<L: Line>(line: &mut L, way: Way, frame: Parts<'_>) -> Counts
    requires { is_ok (admit_answer way (given frame)) ≡ true }
    ensures answers { result ≡ counts 1 (on way (L.Line.meaning line.old)) (put (L.Line.meaning line.old).capacity (on way (L.Line.meaning line.old)) (given frame.entry)) }
    ensures few { AtMost 1 result }
    ensures leaves { L.Line.meaning line.new ≡ with_way way (put (L.Line.meaning line.old).capacity (on way (L.Line.meaning line.old)) (given frame.entry)) (L.Line.meaning line.old) }
    ensures keeps { L.Line.beyond line.new ≡ L.Line.beyond line.old }
{
    // A match, since either answer has its count and none is handed on.
    match line.put(way, frame) {
        Ok(_) => Counts { put: 1, lost: 0 },
        Err(_) => Counts { put: 0, lost: 1 },
    }
}
