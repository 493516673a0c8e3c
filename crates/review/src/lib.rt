//! What a page for review says of a task: the sheet that `page` draws, out of what the explanations, the remarks and the search for a run came to. Nothing is
//! decided here.
#![tactic(auto)]

mod changes;
mod columns;
mod heads;
mod holdings;
mod listings;
mod matrices;
mod messages;
mod panels;
mod pictures;
pub mod played;
mod points;
mod room;
mod runs;
pub mod sheets;
mod uses;
pub mod views;

pub use played::{Played, played_moves};
pub use sheets::sheet_of;
pub use views::{Outcome, Reviewed};
