//! The top of the library: one call that carries out a command: it runs a script from its file to its report, runs a
//! workload and tells how long it took, checks a report, tells what the provider grants, has peers add to a window, or runs
//! rounds of collectives.
//!
//! What lies outside the program is handed in as the traits of `fab_outside`: a [`Depot`] gives files, a [`Sink`]
//! takes the text, a [`Clock`] tells the time.
#![tactic(auto)]

mod checking;
mod collecting;
mod running;
mod whole;

pub use running::run;
