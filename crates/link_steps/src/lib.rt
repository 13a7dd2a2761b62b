//! One induction for the step of a link (AX.25 2.2 sections 6.3 to 6.7).
//!
//! The crate has no code. Each step of a link is single acts one after another, and each row of its table is one of a
//! few kinds. A law on links is shown act by act, or row by row, and not for each entry of the table.
#![tactic(auto)]
