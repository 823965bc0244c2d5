//! A lock over a machine. Its turns make one history, of which each role knows a beginning.
//!
//! The lock is a table of two words and one slot. The word `held` is 1 while a role has the turn, and else 0. The word
//! `count` is the length of the history. The slot holds the machine with its entries, and is empty while a role has the turn.
#![tactic(auto)]

mod finish;
mod law;
mod lock;
mod make;
mod meet;
mod pass;
mod shared;
mod table;
mod view;

pub use law::Law;
pub use pass::Pass;
pub use table::{HistLock, Refused};
pub use view::{About, Home, View};
