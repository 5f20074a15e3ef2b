// A piece of a recording that is read in pieces: whether it is accepted, decided with nothing written, and then its blocks, one after
// another. Everything public here is for the crates above. Rests on hold, for what is held, on hold_either, for a block more, on sp,
// for a block's run, on packets, refusals, blocks and tables.
#![tactic(auto)]

// What a piece would bring.
pub mod survey;

// The blocks of a piece.
pub mod absorb;
