//! What a service is: a state that each event of the log leads on, with outputs, and records that restore it. Beside
//! it the services that the product ships.
#![tactic(auto)]

mod echo;
mod ledger;
mod number;
mod output;
mod service;
mod shipped;
mod ticker;

pub use echo::Echo;
pub use ledger::Ledger;
pub use output::{Output, Outputs};
pub use service::Service;
pub use shipped::{Kind, Shipped};
pub use ticker::Ticker;
