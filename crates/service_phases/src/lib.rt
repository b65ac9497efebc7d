//! What a member has of its services: the containers between phases, and while a phase runs what it lent and how each
//! image began. Feeding the images, and running the containers at them.
#![tactic(auto)]

mod close;
mod feeding;
mod finishing;
mod forget;
mod images;
mod job;
mod laws;
mod lend;
mod services;

pub use feeding::{feed_each, have_pushed, publish_each, wanted};
pub use finishing::{finish_each, have_ended, have_published, have_taken};
pub use job::work;
pub use laws::{what_is_fed_is_the_logs, what_is_published_stays_the_logs};
pub use services::Services;
