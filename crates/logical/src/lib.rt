//! MVC, CLC, ALC, SLC, and TBN, TBF, SBN, SBF, MVI, CLI, SLI: each does what its rule says.
#![tactic(auto)]

mod bytes;
mod fields;

pub use bytes::{cli, mvi, set_bits, sli, test_bits};
pub use fields::{clc, combine, mvc};
