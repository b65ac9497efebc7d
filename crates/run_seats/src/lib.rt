//! The members of a run, each in a seat of its own: a member that runs is called, has its phases and is stopped; one that
//! is stopped keeps its disk.
#![tactic(auto)]

mod answer;
mod asking;
mod calls;
mod ended;
mod going;
mod idle;
mod member;
mod mounted;
mod phases;
mod running;
mod seat;
mod site;
mod stopped;

pub use asking::Asking;
pub use ended::{ServiceRun, first_number};
pub use member::Shown;
pub use mounted::Mounted;
pub use running::Running;
pub use seat::{Seat, Took};
pub use site::{MemberId, Site};
