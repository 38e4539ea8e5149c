// Clients made by hand: with a relay, permissions, channels, requests and credentials that only answers from a server would bring.
ghost use Rattle.std.specs.Prelude.{◌≡◌, length};

use stun_address::{Address, Ip};
use turn_state::{Asked, Channel, Client, Host, Kind, Permission, Place, Request};

// 2001:db8::/64
pub fn v6(low: u64) -> Ip {
    Ip::V6(0x20010DB800000000, low)
}

pub fn place(ip: Ip, port: u16) -> Address {
    Address { ip, port }
}

// The client of `a` and `b`, over UDP or not.
pub fn opened(reliable: bool) -> Client {
    turn_open::open(b"a", b"b", reliable).unwrap_or(turn_open::unopened())
}

pub fn relayed(mut client: Client) -> Client {
    client.relay = Place::from(place(Ip::V4(0xC00002FE), 49152));
    client.has_relay = true;
    client.done = true;
    client
}

pub fn refreshing(client: Client, at: u64) -> Client {
    let mut next = relayed(client);
    next.refresh_at = at;
    next.has_refresh = true;
    next
}

pub fn closing(mut client: Client) -> Client {
    client.closing = true;
    client
}

// An empty realm, an empty nonce, a key of zeros.
pub fn signing(mut client: Client, realm: bool, nonce: bool, key: bool) -> Client {
    client.credentials.has_realm = realm;
    client.credentials.has_nonce = nonce;
    client.credentials.has_key = key;
    client
}

// One permission more, where there is a place for it.
pub fn permitted(mut client: Client, ip: Ip, granted: bool, at: u64) -> Client {
    let n = client.permissions.len;
    if n < 32 {
        client.permissions.rows[n] = Permission {
            host: Host::from(ip),
            granted,
            at,
        };
        client.permissions.len = n + 1;
    }
    client
}

// One channel more, where there is a place for it.
pub fn bound(mut client: Client, peer: Address, number: u16, bound: bool, at: u64) -> Client {
    let n = client.channels.len;
    if n < 32 {
        client.channels.rows[n] = Channel {
            peer: Place::from(peer),
            number,
            bound,
            at,
        };
        client.channels.len = n + 1;
    }
    client
}

// One request more, where there is a place for it, whose id is twelve of a byte.
pub fn pending(mut client: Client, letter: u8, kind: Kind, tries: u32, next: u64) -> Client {
    let n = client.requests.len;
    if n < 64 {
        client.requests.rows[n] = Request {
            id: [letter; 12],
            under: [letter; 12],
            asked: Asked::from(kind),
            tries,
            next,
            retried: false,
        };
        client.requests.len = n + 1;
    }
    client
}

// The client after n starts, under the ids of twelve zeros, twelve ones and so on.
pub fn started(client: Client, n: u8, now: u64) -> Client {
    let mut next = client;
    for letter in 0..n {
        let mut out = [0u8; 64];
        if let Ok(answer) = turn_poll::start(next, now, &[letter; 12], &mut out) {
            next = answer.client;
        }
    }
    next
}

// As many permissions as are asked for, granted, and to be renewed at a time.
pub fn permissions(client: Client, n: u32, at: u64) -> Client {
    let mut next = client;
    for k in 0..n {
        next = permitted(next, Ip::V4(k), true, at);
    }
    next
}

// Channels, bound, and to be bound anew at a time.
pub fn channels(client: Client, n: u16, at: u64) -> Client {
    let mut next = client;
    for k in 0..n {
        next = bound(next, place(Ip::V4(u32::from(k)), 5000), k, true, at);
    }
    next
}

// The ids of twelve zeros, twelve ones, up to twelve times 64.
pub fn ids() -> [u8; 780]
    ensures { 780 ≡ length result }
{
    let mut bytes = [0u8; 780];
    for i in 0..780 {
        bytes[i] = (i / 12) as u8;
    }
    bytes
}
