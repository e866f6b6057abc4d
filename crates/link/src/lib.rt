// The link between two modules: two stations over one line, and what it promises over every history.
#![tactic(auto)]

mod call;
mod drained;
mod end;
mod fetched;
mod link;
mod part;
mod refusal;

pub use call::Call;
pub use drained::Drained;
pub use end::End;
pub use fetched::Fetched;
pub use link::Link;
pub use refusal::LinkRefusal;
