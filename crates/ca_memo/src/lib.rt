//! Results of leaps that are remembered in bounded room: a memo, whose least recently used entry goes, and tables
//! of slots that may drop any.
#![tactic(auto)]

mod key;
mod memo;
mod page;
mod slot_key;
mod slots;

pub use key::Key;
pub use memo::Memo;
pub use page::Page;
pub use slot_key::SlotKey;
pub use slots::{Slots, slot_count};
