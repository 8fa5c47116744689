// The calls of `library` as C sees them, each with the clauses that it has there. A slice crosses as a pointer and a length.
#![tactic(auto)]

mod checked;
mod decoded;
mod improved;
mod looked;
mod timed;
