// The line between two modules: one interface, and its implementations over lent memory.
#![tactic(auto)]

mod line;
mod measures;
mod octets;
mod packed;
mod record;
mod refusal;
mod ring;
mod store;
mod stored;
mod table;
mod two_way;

pub use line::Line;
pub use octets::OctetLine;
pub use record::Record;
pub use refusal::LineRefusal;
pub use ring::{Blank, Ring, RingFull};
pub use table::TableLine;
