// A line of two stores, one a way.

mod calls;

#[derive(Drop)]
pub struct TwoWay<A, B> {
    pub(crate) one: A,
    pub(crate) two: B,
    pub(crate) lifetime: u16,
}
