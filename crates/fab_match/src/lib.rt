//! The matching store: the receives that are posted and the messages that none of them took, and
//! the first of either that matches (fi_msg(3), fi_tagged(3)).
//!
//! [`Matcher`] is the contract: two lists in order, each member under an id. [`ListMatcher`] meets
//! it by going over its lists. A look along the posted receives in their order is by an
//! [`IdTest`]. [`take_posted`] and [`take_unexpected`] take the first match out of
//! any store.
//!
//! [`BinMatcher`] meets the contract with hashed bins, and looks at a few of what it holds and not at all, where tags differ. A
//! receive or a message is a card in a [`bucket`], which keeps all cards in order and files each in bins; a bin is a chain
//! through records of links ([`chains`]), and [`bins`] says which bin it is. A receive stands in one bin, by what it wants, and
//! the lowest number of posting decides between the bins that a message may find it in. A message stands in a bin of its kind,
//! tag and source, in one of its kind and tag, and among all, and a receive looks in one of these.
#![tactic(auto)]

mod bin_matcher;
mod bins;
mod bucket;
mod chains;
pub mod list_matcher;
pub mod matcher;
pub mod signs;
pub mod taking;

pub use bin_matcher::BinMatcher;
pub use list_matcher::ListMatcher;
pub use matcher::{IdTest, Matcher};
pub use signs::{fits, sign_of};
pub use taking::{take_posted, take_unexpected};
