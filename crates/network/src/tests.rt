// Which packets come, in which order and in which round.
use crate::Net;
use cl_base::{Bytes, NoMemory};
use sbe_consensus::Outgoing;
use std::alloc::Global;

// Sends a packet of one byte.
fn send(net: &mut Net, alloc: Global, from: u8, to: u8, byte: u8) -> Result<(), NoMemory> {
    let bytes = Bytes::of(alloc, &[byte])?;
    net.send(from, Outgoing { to, bytes })
}

// The bytes of the packets that one round hands on.
fn round(net: &mut Net, alloc: Global) -> Result<Vec<u8>, NoMemory> {
    let mut seen = Vec::new(alloc);
    for _ in 0..1000 {
        let Some((_, packet)) = net.take() else {
            return Ok(seen);
        };
        if seen.extend_from_slice(packet.bytes.as_slice()).is_err() {
            return Err(NoMemory);
        }
    }
    Ok(seen)
}

#[test]
fn a_round_has_what_was_in_flight_as_it_began(rt: HostRuntime) -> Result<(), NoMemory> {
    let a = rt.alloc();
    let mut net = Net::new(a, 3)?;
    assert!(rt; net.take().is_none());
    send(&mut net, a, 0, 1, 7)?;
    send(&mut net, a, 2, 1, 8)?;
    let first = net.take();
    assert!(rt; first.is_some_and(|p| p.0 == 0 && p.1.to == 1));
    send(&mut net, a, 1, 0, 9)?;
    assert!(rt; round(&mut net, a)?.as_slice() == [8].as_slice());
    assert!(rt; round(&mut net, a)?.as_slice() == [9].as_slice());
    assert!(rt; round(&mut net, a)?.is_empty());
    Ok(())
}

#[test]
fn a_cut_link_drops_at_delivery_and_a_lost_packet_is_gone(rt: HostRuntime) -> Result<(), NoMemory> {
    let a = rt.alloc();
    let mut net = Net::new(a, 5)?;
    send(&mut net, a, 0, 1, 1)?;
    send(&mut net, a, 1, 0, 2)?;
    send(&mut net, a, 4, 3, 3)?;
    net.cut_link(0, 1);
    assert!(rt; round(&mut net, a)?.as_slice() == [2, 3].as_slice());
    send(&mut net, a, 0, 1, 4)?;
    net.heal_link(0, 1);
    assert!(rt; round(&mut net, a)?.as_slice() == [4].as_slice());
    send(&mut net, a, 0, 1, 5)?;
    send(&mut net, a, 1, 0, 6)?;
    net.lose(0, 1);
    send(&mut net, a, 0, 1, 7)?;
    assert!(rt; round(&mut net, a)?.as_slice() == [6, 7].as_slice());
    Ok(())
}

#[test]
fn a_packet_is_sent_again_as_long_as_its_link_keeps_it(rt: HostRuntime) -> Result<(), NoMemory> {
    let a = rt.alloc();
    let mut net = Net::new(a, 2)?;
    for byte in 0..=255 {
        send(&mut net, a, 0, 1, byte)?;
    }
    send(&mut net, a, 0, 1, 77)?;
    assert!(rt; round(&mut net, a)?.len() == 257);
    for (k, comes) in [
        (1, Some(77)),
        (2, Some(255)),
        (256, Some(1)),
        (257, None),
        (1, Some(77)),
    ] {
        net.replay(0, 1, k)?;
        let seen = round(&mut net, a)?;
        assert!(rt; seen.first().copied() == comes && seen.len() < 2);
    }
    net.replay(1, 0, 1)?;
    assert!(rt; round(&mut net, a)?.is_empty());
    Ok(())
}
