//! Tests beyond the scripts of a program: totals, flushes, counts of reads and writes, readers and writers that fail, and the
//! lines of faults.
#![tactic(auto)]

#[cfg(test)]
mod answering;
#[cfg(test)]
mod checking;
#[cfg(test)]
mod counting;
#[cfg(test)]
mod explaining;
#[cfg(test)]
mod faults;
#[cfg(test)]
mod pipes;
