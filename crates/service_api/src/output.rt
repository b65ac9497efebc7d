// What a service gives at an event.
use cl_base::{Bytes, List};
use sbe_local::Command;

/// One output of a service at an event.
#[derive(Debug, Drop)]
pub enum Output {
    /// A message to a client. It is dropped where the session isn't open after the entry, or the payload is above
    /// `PAYLOAD_LIMIT` bytes.
    Egress { session: i64, payload: Bytes },
    /// A request to the module.
    Command(Command),
}

/// The outputs of a service at an event, in order.
pub type Outputs = List<Output>;
