// What clients send.
use crate::cluster::Cluster;
use cl_base::{Bytes, Disk, NoMemory};
use joined_clients::stream_of;
use sbe_client::{Ingress, encode_ingress};
use scenario::Order;

impl<D: Disk + Drop> Cluster<D> {
    /// The bytes that a client sends by an order, none where the order is no client's.
    pub(crate) fn bytes_of(&mut self, order: &Order) -> Result<Bytes, NoMemory> {
        match order {
            Order::Connect { client, .. } => self.connect_bytes(*client),
            Order::Send { client, text, .. } => self.message_bytes(*client, text.as_slice()),
            Order::SendHex {
                client,
                payload,
                ..
            } => self.message_bytes(*client, payload.as_slice()),
            Order::Close { client, .. } => self.close_bytes(*client),
            Order::KeepAlive { client, .. } => self.keep_alive_bytes(*client),
            Order::Raw { bytes, .. } => bytes.copy(),
            _ => Bytes::of(self.alloc(), &[]),
        }
    }

    /// The client's next connect. Its correlation id is 1 plus the number of its connects before.
    fn connect_bytes(&mut self, client: u64) -> Result<Bytes, NoMemory> {
        let alloc = self.alloc();
        let mut corr = 1;
        if let Some(before) = self.connects.get_mut(client as usize) {
            *before = before.saturating_add(1);
            corr = *before;
        }
        let channel = Bytes::of(alloc, &[])?;
        encode_ingress(
            alloc,
            &Ingress::Connect {
                corr,
                stream: stream_of(client),
                channel,
            },
        )
    }

    /// The client's message, with the term and the session that it knows.
    fn message_bytes(&self, client: u64, payload: &[u8]) -> Result<Bytes, NoMemory> {
        let alloc = self.alloc();
        let known = self.outside.egress.known(stream_of(client));
        let payload = Bytes::of(alloc, payload)?;
        encode_ingress(
            alloc,
            &Ingress::Message {
                term: known.term,
                session: known.session,
                payload,
            },
        )
    }

    /// The client's close of its session.
    fn close_bytes(&self, client: u64) -> Result<Bytes, NoMemory> {
        let known = self.outside.egress.known(stream_of(client));
        encode_ingress(
            self.alloc(),
            &Ingress::Close {
                term: known.term,
                session: known.session,
            },
        )
    }

    /// The client's keep-alive.
    fn keep_alive_bytes(&self, client: u64) -> Result<Bytes, NoMemory> {
        let known = self.outside.egress.known(stream_of(client));
        encode_ingress(
            self.alloc(),
            &Ingress::KeepAlive {
                term: known.term,
                session: known.session,
            },
        )
    }
}
