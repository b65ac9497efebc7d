// One record to a client.
use cl_base::Bytes;

/// A record that was sent.
#[derive(Debug, Drop)]
pub struct Sent {
    /// The stream on which its client listens.
    pub stream: i32,
    /// The entry that owes it, by its index. None for a direct answer.
    pub entry: Option<u64>,
    /// The service that gave it. None for the module's.
    pub service: Option<u8>,
    /// How many records that service owed before at that entry.
    pub number: u64,
    /// One message to a client.
    pub bytes: Bytes,
}
