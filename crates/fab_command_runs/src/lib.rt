//! What the commands `window` and `coll` do, and the machines of a script's peers.
//!
//! `window NUMBER PEERS WORDS ADDS`: peers in threads of their own add drawn numbers to the words of one window.
//! PEERS (1 to 32) peers make ADDS (up to 100,000) additions each in a window of WORDS (1 to 1,024) words that begin at 0.
//! The numbers of peer p are drawn from NUMBER plus p, modulo 2^64, as `gen` draws its messages; each stands for one
//! addition, of less than 65,536. The text is one row with the numbers of the command, and a row for each word with what it
//! holds at last. That is a function of the four numbers alone, whatever the threads do: no addition is lost or made twice,
//! so their order is not seen. [`window_of`] reads the words of the command, and [`window_text`] carries it out. In specs/,
//! `Planned` has the additions and the totals, `Texts` the rows, and `Commands` the words.
//!
//! `coll FILE`: the file is loaded and read as `fab_workloads` reads it; the script of its rounds ([`fab_workloads::plan`]) is run
//! until no peer can go on; each rank makes of its own share and of those that it received what the round comes to; and the text
//! has a line for each rank and round. It is a function of the file alone, whatever the threads do: the script of the rounds
//! has one answer. [`coll_file`] reads the words of the command, and [`text_of_file`] carries it out. `Files` has what a file
//! spells, and the text that is due.
//!
//! What one peer of a script does is proved in `fab_peer` over any endpoint, and what all of them do together in `fab_rounds`
//! over any machine behind their endpoints. In `peers` the machine is chosen: that of `fab_open`, with matching in hashed bins.
#![tactic(auto)]

mod asked;
mod coll_running;
mod commands;
mod drawing;
mod files;
mod peers;
mod ranks;
mod texts;
mod window_running;
mod writing;

pub use asked::{Asked, window_of};
pub use coll_running::text_of_file;
pub use commands::coll_file;
pub use peers::machines;
pub use window_running::{totals, window_text};
