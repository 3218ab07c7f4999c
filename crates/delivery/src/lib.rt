// Lists of calls replayed on a cell, with the law of every run. Nothing here allocates.
#![tactic(auto)]

mod call;
mod entry;
mod replaying;
mod reply;
mod serving;

pub use call::Call;
pub use entry::{Entry, Outcome};
pub use replaying::replay;
pub use reply::Reply;
