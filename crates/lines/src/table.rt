// The table line: each entry as a record in a ring of K slots a way.
ghost use Rattle.lines.specs.Ring.{Blanked};
ghost use Rattle.lines.specs.Record.{blank_record};
ghost use Rattle.std.proofs.Props.{props};

use crate::two_way::TwoWay;
use crate::{Record, Ring};

mod calls;
mod store;

// One way: a ring of records. Slots that hold nothing are blank. (The fact is public, for clauses of other crates.)
#[derive(Drop)]
pub struct RecordStore<'a> {
    ring: Ring<'a, Record>,
    pub ghost free: { Blanked blank_record ring } by { Prim.hlevel props },
}

pub type TableLine<'a, 'b> = TwoWay<RecordStore<'a>, RecordStore<'b>>;
