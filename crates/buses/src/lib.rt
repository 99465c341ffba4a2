// Buses: what a core reads its code from, and its data from and to.
#![tactic(auto)]

mod bus;
mod combined;
mod fence;
mod lent;
mod page;
mod refusal;
mod shift;
mod split;

pub use bus::{Bus, BusFault, exchange};
pub use combined::CombinedBus;
pub use fence::Fence;
pub use page::Page;
pub use refusal::{Refusal, Rejected};
pub use shift::Shift;
pub use split::SplitBus;
