// What a client holds between calls, and what a call answers: the structs and enums of turn.rs. A client crosses to C by reference, and
// no exported function takes a reference that leads to an enum, an Option or a struct with type parameters: so rows keep kind and peer
// as plain numbers, flags stand beside values, and the three tables are three structs. The enums stand at every interface, and `From`
// goes both ways. specs/ has turn.rs as a definition, and what these structs mean in it.
#![tactic(auto)]

ghost use Rattle.std.specs.Prelude.{◌≡◌};
ghost use Rattle.turn_state.specs.Number.{number_of};
ghost use Rattle.turn_state.specs.View.{host_of, ip_in, place_of, address_in, asked_of, kind_in, quiet, telling, sending};

use stun_address::{Address, Ip};
use stun_text::Text;

// What a request asks for.
#[derive(Clone, Copy)]
pub enum Kind {
    Allocate,
    Refresh(u32),
    Permission(Ip),
    ChannelBind(Address, u16),
}

// Why an allocation failed.
#[derive(Clone, Copy)]
pub enum Reason {
    Code(u16),
    Timeout,
    NoRelayedAddress,
    Lost,
}

// `Data` is a part of the caller's datagram, from `start` on, `len` bytes long.
#[derive(Clone, Copy)]
pub enum Event {
    Allocated(Address, Option<Address>),
    Failed(Reason),
    Data(Address, usize, usize),
}

// An IP address: family 1 with the address in `low`, or family 2 with its two halves. Numbers, for C: `Ip` is the enum.
#[repr(C)]
#[derive(Clone, Copy)]
pub struct Host {
    pub family: u8,
    pub high: u64,
    pub low: u64,
}

#[repr(C)]
#[derive(Clone, Copy)]
pub struct Place {
    pub host: Host,
    pub port: u16,
}

// A kind: 0 Allocate, 1 Refresh, 2 CreatePermission, 3 ChannelBind; what it does not name is zero. Numbers, for C: `Kind` is the enum.
#[repr(C)]
#[derive(Clone, Copy)]
pub struct Asked {
    pub tag: u8,
    pub number: u16,
    pub lifetime: u32,
    pub peer: Place,
}

// A pending request. `under` is the id under which its peer's address is encoded.
#[repr(C)]
#[derive(Clone, Copy)]
pub struct Request {
    pub id: [u8; 12],
    pub under: [u8; 12],
    pub asked: Asked,
    pub tries: u32,
    pub next: u64,
    pub retried: bool,
}

// A permission: asked for, or granted and to be renewed at `at`. A flag and no Option, for C.
#[repr(C)]
#[derive(Clone, Copy)]
pub struct Permission {
    pub host: Host,
    pub granted: bool,
    pub at: u64,
}

// A channel: asked for, or bound; `at` is held either way, as in turn.rs.
#[repr(C)]
#[derive(Clone, Copy)]
pub struct Channel {
    pub peer: Place,
    pub number: u16,
    pub bound: bool,
    pub at: u64,
}

// Tables: the first `len` rows, in the order in which they came; the rows after them are blank. Arrays with a length: no heap.
#[repr(C)]
#[derive(Clone, Copy)]
pub struct Requests {
    pub rows: [Request; 64],
    pub len: usize,
}

#[repr(C)]
#[derive(Clone, Copy)]
pub struct Permissions {
    pub rows: [Permission; 32],
    pub len: usize,
}

#[repr(C)]
#[derive(Clone, Copy)]
pub struct Channels {
    pub rows: [Channel; 32],
    pub len: usize,
}

// What a call is to ask for, in order, one request each.
#[derive(Clone, Copy)]
pub struct Asks {
    pub rows: [Asked; 65],
    pub len: usize,
}

// What a request is signed with, and the texts that go with it. What is not held is empty, or zero; flags and no Options, for C.
#[repr(C)]
#[derive(Clone, Copy)]
pub struct Credentials {
    pub username: Text,
    pub realm: Text,
    pub nonce: Text,
    pub key: [u8; 16],
    pub has_realm: bool,
    pub has_nonce: bool,
    pub has_key: bool,
}

#[repr(C)]
#[derive(Clone, Copy)]
pub struct Client {
    pub password: Text,
    pub credentials: Credentials,
    pub requests: Requests,
    pub permissions: Permissions,
    pub channels: Channels,
    pub relay: Place,
    pub refresh_at: u64,
    pub next_num: u16,
    pub has_relay: bool,
    pub has_refresh: bool,
    pub done: bool,
    pub closing: bool,
    pub reliable: bool,
}

// Why a call is refused, by its number: the lowest of those that hold.
#[derive(Clone, Copy, PartialEq, Eq)]
pub enum Refusal {
    // 1: a time above 9,007,199,254,740,991.
    Late,
    // 2: a text that is longer than its room.
    LongText,
    // 3: a username or a password that is not well-formed.
    IllFormed,
    // 4: data or a message's body that is too long.
    LongBody,
    // 5: a record that meets a full table.
    Full,
    // 6: fewer ids than the call draws.
    FewIds,
    // 7: an id that is pending, or drawn twice.
    TakenId,
    // 8: an output that is too small.
    SmallOutput,
}

impl From<Refusal> for u32 {
    ghost from_gives = { λ refusal n. n ≡ number_of refusal };

    fn from(refusal: Refusal) -> u32 {
        match refusal {
            Refusal::Late => 1,
            Refusal::LongText => 2,
            Refusal::IllFormed => 3,
            Refusal::LongBody => 4,
            Refusal::Full => 5,
            Refusal::FewIds => 6,
            Refusal::TakenId => 7,
            Refusal::SmallOutput => 8,
        }
    }
}

// What a call that is not refused answers: the next client, how many events there were and the first, which a caller is told of, how
// many packets stand in the lent output, and how many bytes of it they take, heads included. A refused call answers a `Refusal`
// alone: it changes nothing, so the client that the caller gave is the next one.
#[derive(Clone, Copy)]
pub struct Answer {
    pub client: Client,
    pub event: Option<Event>,
    pub events: usize,
    pub packets: usize,
    pub len: usize,
}

impl Answer {
    // Nothing told, nothing written.
    pub fn quiet(client: Client) -> Answer
        ensures { result ≡ quiet client }
    {
        Answer::sending(client, 0, 0)
    }

    // One event.
    pub fn telling(client: Client, event: Event) -> Answer
        ensures { result ≡ telling client event }
    {
        Answer {
            client,
            event: Some(event),
            events: 1,
            packets: 0,
            len: 0,
        }
    }

    // Packets of so many bytes in the output.
    pub fn sending(client: Client, packets: usize, len: usize) -> Answer
        ensures { result ≡ sending client packets len }
    {
        Answer {
            client,
            event: None,
            events: 0,
            packets,
            len,
        }
    }
}

// An IP address as numbers, which mean it, and back.
impl From<Ip> for Host {
    ghost from_gives = { λ ip host. (host ≡ host_of ip) × (ip_in host ≡ ip) };

    fn from(ip: Ip) -> Host {
        match ip {
            Ip::V4(x) => Host {
                family: 1,
                high: 0,
                low: u64::from(x),
            },
            Ip::V6(high, low) => Host {
                family: 2,
                high: high,
                low: low,
            },
        }
    }
}

impl From<Host> for Ip {
    ghost from_gives = { λ host ip. ip ≡ ip_in host };

    fn from(host: Host) -> Ip {
        if host.family == 2 {
            return Ip::V6(host.high, host.low);
        }
        Ip::V4((host.low % 4294967296) as u32)
    }
}

impl From<Address> for Place {
    ghost from_gives = { λ address place. (place ≡ place_of address) × (address_in place ≡ address) };

    fn from(address: Address) -> Place {
        Place {
            host: Host::from(address.ip),
            port: address.port,
        }
    }
}

impl From<Place> for Address {
    ghost from_gives = { λ place address. address ≡ address_in place };

    fn from(place: Place) -> Address {
        Address {
            ip: Ip::from(place.host),
            port: place.port,
        }
    }
}

// A kind as numbers, which mean it, and back.
impl From<Kind> for Asked {
    ghost from_gives = { λ kind asked. (asked ≡ asked_of kind) × (kind_in asked ≡ kind) };

    fn from(kind: Kind) -> Asked {
        let nowhere = Place {
            host: Host {
                family: 0,
                high: 0,
                low: 0,
            },
            port: 0,
        };
        match kind {
            Kind::Allocate => Asked {
                tag: 0,
                number: 0,
                lifetime: 0,
                peer: nowhere,
            },
            Kind::Refresh(lifetime) => Asked {
                tag: 1,
                number: 0,
                lifetime: lifetime,
                peer: nowhere,
            },
            Kind::Permission(ip) => Asked {
                tag: 2,
                number: 0,
                lifetime: 0,
                peer: Place {
                    host: Host::from(ip),
                    port: 0,
                },
            },
            Kind::ChannelBind(to, number) => Asked {
                tag: 3,
                number: number,
                lifetime: 0,
                peer: Place::from(to),
            },
        }
    }
}

impl From<Asked> for Kind {
    ghost from_gives = { λ asked kind. kind ≡ kind_in asked };

    fn from(asked: Asked) -> Kind {
        match asked.tag {
            0 => Kind::Allocate,
            1 => Kind::Refresh(asked.lifetime),
            2 => Kind::Permission(Ip::from(asked.peer.host)),
            _ => Kind::ChannelBind(Address::from(asked.peer), asked.number),
        }
    }
}
