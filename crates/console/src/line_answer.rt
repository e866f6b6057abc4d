// Answers of a line that stands.
use crate::answer::frame_text;
use crate::command::{LineCommand, parse_for_line};
use crate::error::CommandError;
use frames::Parts;
use lines::Line;
use std::alloc::Global;

// The answer to a line of words that is for a line.
pub fn line_answer<L: Line>(
    heap: Global,
    text: &[u8],
    line: &mut L,
) -> Result<String, CommandError> {
    match parse_for_line(heap, text)? {
        LineCommand::Put(draft) => line.put(draft.way, draft.parts())?,
        LineCommand::Take(way) => {
            let frame = line.take(way)?;
            return Ok(frame_text(heap, Parts::from(&frame))?);
        }
        LineCommand::Strike(strike) => line.strike(strike.way, strike.place, strike.burst)?,
        LineCommand::Tick => line.tick(),
        LineCommand::Count(way) => {
            let count = line.count(way);
            return Ok(format!(in heap; "count={count}\n")?);
        }
    }
    Ok(String::from_str(heap, "ok\n")?)
}
