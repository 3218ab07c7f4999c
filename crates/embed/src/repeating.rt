// Loops for measuring the engine beside another one (twin/speed.rs): each takes so many turns of the same work, and answers a
// number that depends on every turn. What one turn is, is told exactly enough that a loop over the other engine does the same.
mod cells_again;
mod checks_again;
mod frames_again;
mod units_again;
mod work;
