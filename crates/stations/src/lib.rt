// The two stations of the link: the primary and the secondary, each over any line.
#![tactic(auto)]

mod answer;
mod mode;
mod number;
mod primary;
mod puts;
mod refusal;
mod row;
mod secondary;
mod station;

pub use answer::{Counts, Heard, Taken};
pub use mode::Mode;
pub use primary::Primary;
pub use refusal::StationRefusal;
pub use row::{Queue, Row, Window};
pub use secondary::{Secondary, SecondaryMode};
pub use station::{FarStatus, Station};
