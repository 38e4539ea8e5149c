// Calls of the client, for counting what they cost: `turn_bench KERNEL UNITS` makes the call so many times on a client with a relay and
// 32 peers bound, with 1,200 bytes of data, and prints how many events, packets or deadlines there were.
#![tactic(auto)]

use std::{array, io};
use stun_address::{Address, Ip};
use stun_frame::names::ATTR_LIFETIME;
use turn_state::{Channel, Channels, Client, Host, Permission, Permissions, Place};

// The i-th peer: 192.0.2.1 port 5000, and on.
fn peer(i: usize) -> Address {
    let k = (i % 32) as u16;
    Address {
        ip: Ip::V4(0xC0000201 + u32::from(k)),
        port: 5000 + k,
    }
}

fn ready() -> Client {
    let mut client = turn_open::open(b"school", b"secret", false).unwrap_or(turn_open::unopened());
    client.permissions = Permissions {
        rows: array::from_fn(|i| Permission {
            host: Host::from(peer(i).ip),
            granted: true,
            at: 240000,
        }),
        len: 32,
    };
    client.channels = Channels {
        rows: array::from_fn(|i| Channel {
            peer: Place::from(peer(i)),
            number: 0x4000 + (i % 32) as u16,
            bound: true,
            at: 540000,
        }),
        len: 32,
    };
    client.has_relay = true;
    client.done = true;
    client.has_refresh = true;
    client.refresh_at = 540000;
    client.next_num = 0x4020;
    client
}

// Calls in a row on one client, and the events and packets, or what they were refused with. A macro and no function over a closure,
// which would add three copies of the client to what is counted: 12,387 instructions an idle poll in place of 8,545.
macro_rules! calls {
    ($units:expr, $client:ident, $room:ident, $call:expr) => {{
        let mut $client = ready();
        let mut $room = [0u8; 4096];
        let mut seen = 0;
        for _ in 0..$units {
            match $call {
                Ok(answer) => {
                    seen ^= answer.events as u64 ^ answer.packets as u64;
                    $client = answer.client;
                }
                Err(refusal) => seen ^= u64::from(u32::from(refusal)),
            }
        }
        seen
    }};
}

// Datagrams that come in.
fn handled(datagram: &[u8], units: u64) -> u64 {
    calls!(
        units,
        client,
        room,
        turn_handle::handle(client, 0, datagram, b"", &mut room)
    )
}

// Data sent to the 21st peer.
fn sent(data: &[u8], units: u64) -> u64 {
    let to = peer(20);
    calls!(
        units,
        client,
        room,
        turn_send::send(client, 0, to, data, b"", &mut room)
    )
}

fn polls(units: u64) -> u64 {
    calls!(
        units,
        client,
        room,
        turn_poll::poll(client, 0, b"", &mut room)
    )
}

fn deadlines(units: u64) -> u64 {
    let client = ready();
    let mut seen = 0;
    for _ in 0..units {
        seen ^= turn_deadline::next_deadline(client).unwrap_or(0);
    }
    seen
}

// ChannelData on the 21st channel, a Data indication from the 21st peer (a Send indication but for its type, behind the three bytes of
// its head), and a signed success of 60 bytes.
fn channel_in(data: &[u8], units: u64) -> Option<u64> {
    let mut room = [0u8; 4096];
    let end = stun_frame::encode_channel_data(0x4014, data, &mut room).ok()?;
    Some(handled(room.get(..end)?, units))
}

fn data_in(data: &[u8], units: u64) -> Option<u64> {
    let mut room = [0u8; 4096];
    let end = turn_data::write_indication(&mut room, 0, peer(20), [7; 12], data).ok()?;
    room[4] = 0x17;
    Some(handled(room.get(3..end)?, units))
}

fn verified(units: u64) -> Option<u64> {
    let mut room = [0u8; 4096];
    let key = [7; 16];
    let end = stun_write::push_attr(&mut room, 20, ATTR_LIFETIME, &[0, 0, 2, 88]).ok()?;
    let end = stun_write::seal(&mut room, end, 0x0104, [7; 12], &key, true, true).ok()?;
    let datagram = room.get(..end)?;
    let mut seen = 0;
    for _ in 0..units {
        seen ^= u64::from(stun_check::verify(datagram, &key));
    }
    Some(seen)
}

// The kernel of that name; nothing for any other name, as `none`.
fn run(name: &[u8], units: u64) -> Option<u64> {
    let mut data = [0u8; 1200];
    vectors::fill(&mut data, 3, 7);
    match name {
        b"channel-in" => channel_in(&data, units),
        b"data-in" => data_in(&data, units),
        b"channel-out" => Some(sent(&data, units)),
        b"verify" => verified(units),
        b"deadline" => Some(deadlines(units)),
        b"poll-idle" => Some(polls(units)),
        _ => None,
    }
}

fn main(rt: HostRuntime) -> io::Result<()> {
    let mut first = [0; 4096];
    let mut second = [0; 4096];
    let name = vectors::argument(&rt, 1, &mut first);
    let units = vectors::number(vectors::argument(&rt, 2, &mut second));
    let seen = run(name, units).unwrap_or(0) % 0x1_0000_0000;
    println!(rt; "seen {seen:08x}")
}
