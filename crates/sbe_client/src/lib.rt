//! The messages between clients and the cluster, and their bytes. What a client sends is read leniently: a newer
//! schema's longer blocks and further fields are skipped.
#![tactic(auto)]

mod check;
mod egress;
mod ingress;
mod laws;

pub use egress::{Egress, decode_egress, encode_egress};
pub use ingress::{Ingress, decode_ingress, encode_ingress};
pub use laws::{egress_is_read_again, ingress_is_read_again};
