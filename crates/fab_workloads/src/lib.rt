//! The scripts that the commands `pingpong`, `bandwidth`, `gen` and `coll` run, and the line that each of the first three prints.
//!
//! A [`Workload`] is what the words of such a command ask for ([`workload_of`]). [`bound`] makes its script, with the
//! bytes in it, and [`bench_line`] the line that is printed at the end. The definitions are in specs/: `Commands` has
//! the words and their ranges, `Lines` the lines of `pingpong` and `bandwidth`, `Generator` the messages of `gen` and
//! their lines, `Script` the script as a whole, and `Bench` the line that is printed.
//!
//! In a round of collectives every rank sends its share to all ranks that need it, and folds what it received. [`read_rounds`]
//! reads a file of rounds. A [`CollScript`] has the rounds of so many ranks with their shares, and [`plan`] is the script that
//! does them; what shares come to is `fab_fold`. `Rounds` has rounds within the rules, `Plan` the script of all rounds, `Grammar`
//! the files that spell rounds, `Reading` what was read so far, and `Text` what is written of rounds.
//!
//! That these scripts are settled, and that none gets stuck, are the laws of `fab_workload_laws`.
#![tactic(auto)]

mod bench;
mod coll_lines;
mod files;
mod generator;
mod lines;
mod plans;
mod reader;
mod round;
mod script;
mod shares;
mod workload;

pub use bench::bench_line;
pub use files::read_rounds;
pub use generator::next_drawn;
pub use lines::{receive, send, wait};
pub use plans::{lines_in, plan, share_of};
pub use round::{CollScript, Round};
pub use script::{all_numbered, bound, conf_of};
pub use workload::{Workload, number_within, payload_file, workload_of};
