// Writing: a frame's parts to octets at the front of the caller's memory, or a refusal.
ghost use Rattle.std.specs.Prelude.{◌≡◌, ◌+◌, ◌≤◌, ◌++◌, length, drop};
ghost use Rattle.frames.specs.Parts.{given};
ghost use Rattle.frames.specs.Writer.{octets_of, admit_answer, write_answer, write_leaves};
ghost use Rattle.frames.specs.Laws.{ReadsBack};

use crate::control::control_of;
use crate::fcs::check_sequence;
use crate::{FrameRefusal, Kind, Parts, Way};

// The control octet of a frame that can be written, or why the frame cannot be: long, control or stray.
pub fn admit(way: Way, frame: Parts<'_>) -> Result<u8, FrameRefusal>
    ensures { result ≡ admit_answer way (given frame.entry) }
{
    if frame.info.len() > 64 {
        return Err(FrameRefusal::Long);
    }
    let control = control_of(way, frame).ok_or(FrameRefusal::Control)?;
    if frame.kind != Kind::I && !frame.info.is_empty() {
        return Err(FrameRefusal::Stray);
    }
    Ok(control)
}

// Lays a frame's octets into the front of `out`.
fn lay(control: u8, info: &[u8], out: &mut [u8])
    requires { length info.now + 4 ≤ length out.old }
    ensures { out.new ≡ octets_of control info.now ++ drop (length info.now + 4) out.old }
{
    let body = info.len() + 2;
    out[0] = 0x01;
    out[1] = control;
    out[2..body].copy_from_slice(info);
    let sequence = check_sequence(&out[0..body]);
    out[body..body + 2].copy_from_slice(&sequence.to_le_bytes());
}

// Writes a frame and answers how many octets it has. A refusal leaves `out` as it was.
// The refusals are looked for in the order of their numbers.
pub fn write(way: Way, frame: Parts<'_>, out: &mut [u8]) -> Result<usize, FrameRefusal>
    ensures answers { result ≡ write_answer way (given frame.entry) (length out.old) }
    ensures leaves { out.new ≡ write_leaves way (given frame.entry) out.old }
    ensures reads_back { ReadsBack way (given frame.entry) result out.new }
{
    let control = admit(way, frame)?;
    let len = frame.info.len() + 4;
    if out.len() < len {
        return Err(FrameRefusal::NoSpace);
    }
    lay(control, frame.info, out);
    Ok(len)
}
