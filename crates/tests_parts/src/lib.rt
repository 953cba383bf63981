//! Tests of what no word of the command line shows of the parts; the library is empty.
//!
//! - Texts and devices: `annotations`, `throws` and `words` test the readers of GIL programs, `devices` tests `gil_io`.
//! - Runs: `heap_blocks` and `heap_objects` test the memories of blocks and of objects, by `running`.
//! - The solver: `checking` tests `solver_proof` and `solver_print`, `rows` tests `linear_core`, `equalities` tests `equality_core`, and
//!   `deciding` tests `path_solver`. `reading` and `proofs` read lists of atoms and make proofs.
#![tactic(auto)]

#[cfg(test)]
mod annotations;
#[cfg(test)]
mod checking;
#[cfg(test)]
mod deciding;
#[cfg(test)]
mod devices;
#[cfg(test)]
mod equalities;
#[cfg(test)]
mod heap_blocks;
#[cfg(test)]
mod heap_objects;
#[cfg(test)]
mod proofs;
#[cfg(test)]
mod reading;
#[cfg(test)]
mod rows;
#[cfg(test)]
mod running;
#[cfg(test)]
mod throws;
#[cfg(test)]
mod words;
