//! Callers that prove a fact from the public contracts alone, and the values that they are run on. Also tests of what no contract and no
//! row can say.

mod blocks;
mod checks;
mod faults;
mod file;
mod folder;
mod kept;
mod premises;
mod reading;
mod record;
mod two_ends;
mod writing;
