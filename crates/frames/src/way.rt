// The two ways of a line: way 1 leads from the primary to the secondary, way 2 back.
#[derive(Clone, Copy, PartialEq, Eq, Debug)]
pub enum Way {
    One,
    Two,
}
