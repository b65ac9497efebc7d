//! A node that copies a log and its snapshots without being a member: its packets, and its own disk.
#![tactic(auto)]

mod answer;
mod backup;
mod decode;
mod encode;
mod entries;
mod give;
mod laws;
mod packet;
mod part;
mod parts;
mod query;
mod snapshots;
mod template;

pub use answer::{BackupFault, Taken};
pub use backup::Backup;
pub use decode::decode_backup;
pub use encode::encode_backup;
pub use give::{entries_packet, snapshot_packet};
pub use laws::a_backup_copies_one_log;
pub use packet::BackupPacket;
