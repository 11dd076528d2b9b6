//! Laws of the abbreviations and units of DWARF (DWARF 4 and 5, section 7.5): each is the contract
//! of a function with an empty body.
#![tactic(auto)]

pub mod laws;
