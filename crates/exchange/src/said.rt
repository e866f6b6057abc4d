// Answers in the report.
use std::fmt;

// An answer to a question, written as yes or no. (As in the console: two programs share no crate but the libraries.)
#[derive(Clone, Copy)]
pub struct Answer(pub bool);

impl fmt::Display for Answer {
    fn fmt<W: fmt::Write>(&self, f: &mut fmt::Formatter<W>) -> fmt::Result {
        f.write_str(if self.0 { "yes" } else { "no" })
    }
}
