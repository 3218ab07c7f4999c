// The law over every list of calls on a cell: its statement stands in specs/, its proof in proofs/.
#![tactic(auto)]

mod laws;
mod weakened;

pub use laws::every_run_is_lawful;
pub use weakened::weakened_cells_break_the_law;
