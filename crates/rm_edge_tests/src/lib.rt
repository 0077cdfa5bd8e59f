//! Tests of rm_edge: its adapters over files, standard output, sockets and the clock of the machine.
//!
//! Nothing else shows what these do. Their contracts say that a call which fails raises the count of faults, and how many octets a
//! call gives at most. They don't tell what a file holds, what is written, what comes and goes over a socket, or the time. Cases run
//! over the forms in memory, whose contracts tell what these hold.
#![tactic(auto)]

#[cfg(test)]
mod tests;
