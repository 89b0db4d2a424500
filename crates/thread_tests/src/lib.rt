//! Tests with threads: shared words, sync files and fences while drivers advance timelines, and clients with the tables
//! that they share and the settled end that the program prints.
#![tactic(auto)]

#[cfg(test)]
mod tests;
