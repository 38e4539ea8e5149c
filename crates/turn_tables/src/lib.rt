// The client's three tables, by value: a row is found, put last, replaced and taken out, and what is due is listed.
// A length above the room is read as the room.
#![tactic(auto)]

ghost use Rattle.std.specs.Prelude.{◌≡◌, ◌&&◌, not, ◌<◌, ◌+◌, ◌-◌, cond, length, ltb, set, min, leb};
ghost use Rattle.turn_state.specs.Source.{same_ip as «ip_is», under_id, for_ip, for_peer, of_number};
ghost use Rattle.turn_state.specs.View.{ip_in, txns_in, perms_in, chans_in, no_request as «blank_request», no_permission as «blank_permission», no_channel as «blank_channel»};
ghost use Rattle.turn_tables.specs.Rows.{position as «first», closed, noted};
ghost use Rattle.turn_tables.specs.Tables.{pushed_request, put_request as «replaced_request», removed_request, pushed_permission, put_permission as «replaced_permission», removed_permission, pushed_channel, put_channel as «replaced_channel», removed_channel};
ghost use Rattle.turn_tables.specs.Lists.{due_ids, due_hosts, due_places, waiting_places};

use stun_address::{Address, Ip};
use turn_state::{
    Asked, Channel, Channels, Host, Permission, Permissions, Place, Request, Requests,
};

// What is listed at an entry: the first `len` rows, in the table's order, and zeros after them.
#[derive(Clone, Copy)]
pub struct Id {
    pub bytes: [u8; 12],
}

#[derive(Clone, Copy)]
pub struct Ids {
    pub rows: [Id; 64],
    pub len: usize,
}

#[derive(Clone, Copy)]
pub struct Hosts {
    pub rows: [Host; 32],
    pub len: usize,
}

#[derive(Clone, Copy)]
pub struct Places {
    pub rows: [Place; 32],
    pub len: usize,
}

const REQUEST_ROOM: usize = 64;

const PERMISSION_ROOM: usize = 32;

const CHANNEL_ROOM: usize = 32;

// The first row of that key.
pub fn find_request(t: Requests, id: [u8; 12]) -> Option<usize>
    ensures { result ≡ «first» (under_id id) (txns_in t) }
{
    t.rows[..t.len.min(REQUEST_ROOM)]
        .iter()
        .position(|row| row.id == id)
}

pub fn find_permission(t: Permissions, ip: Ip) -> Option<usize>
    ensures { result ≡ «first» (for_ip ip) (perms_in t) }
{
    t.rows[..t.len.min(PERMISSION_ROOM)]
        .iter()
        .position(|row| Ip::from(row.host) == ip)
}

pub fn find_channel(t: Channels, peer: Address) -> Option<usize>
    ensures { result ≡ «first» (for_peer peer) (chans_in t) }
{
    t.rows[..t.len.min(CHANNEL_ROOM)]
        .iter()
        .position(|row| Address::from(row.peer) == peer)
}

pub fn find_number(t: Channels, number: u16) -> Option<usize>
    ensures { result ≡ «first» (of_number number) (chans_in t) }
{
    t.rows[..t.len.min(CHANNEL_ROOM)]
        .iter()
        .position(|row| row.number == number)
}

// Over the first `len` rows of a room, a longer `len` read as the room: a row put last, put last where it is wanted, replaced, taken out.
// The answers are how many rows there are then; where there is no room, or no such row, all stays.
fn push<T: Copy>(rows: &mut [T], len: usize, row: T) -> usize
    ensures kept { rows.new ≡ cond (ltb len (length rows.old)) (set rows.old len row) rows.old }
    ensures count { result ≡ cond (ltb len (length rows.old)) (len + 1) len }
{
    if rows.len() <= len {
        return len;
    }
    rows[len] = row;
    len + 1
}

fn note<T: Copy>(rows: &mut [T], len: usize, wanted: bool, row: T) -> usize
    requires { len < length rows.old }
    ensures kept { rows.new ≡ noted wanted rows.old len row }
    ensures count { result ≡ cond wanted (len + 1) len }
{
    if wanted { push(rows, len, row) } else { len }
}

fn put<T: Copy>(rows: &mut [T], len: usize, i: usize, row: T)
    ensures { rows.new ≡ cond (ltb i (min len (length rows.old))) (set rows.old i row) rows.old }
{
    if i < len.min(rows.len()) {
        rows[i] = row;
    }
}

fn remove<T: Copy>(rows: &mut [T], len: usize, i: usize, blank: T) -> usize
    ensures kept { rows.new ≡ cond (ltb i (min len (length rows.old))) (closed blank (min len (length rows.old)) rows.old i) rows.old }
    ensures count { result ≡ cond (ltb i (min len (length rows.old))) (min len (length rows.old) - 1) len }
{
    let n = len.min(rows.len());
    if n <= i {
        return len;
    }
    rows.copy_within(i + 1..n, i);
    rows[n - 1] = blank;
    n - 1
}

// A row put last; a full table stays.
pub fn push_request(mut t: Requests, request: Request) -> Requests
    ensures { result ≡ pushed_request t request }
{
    let len = t.len;
    t.len = push(&mut t.rows, len, request);
    t
}

pub fn push_permission(mut t: Permissions, permission: Permission) -> Permissions
    ensures { result ≡ pushed_permission t permission }
{
    let len = t.len;
    t.len = push(&mut t.rows, len, permission);
    t
}

pub fn push_channel(mut t: Channels, channel: Channel) -> Channels
    ensures { result ≡ pushed_channel t channel }
{
    let len = t.len;
    t.len = push(&mut t.rows, len, channel);
    t
}

// A row replaced; where there is none, the table stays.
pub fn put_request(mut t: Requests, i: usize, request: Request) -> Requests
    ensures { result ≡ «replaced_request» t i request }
{
    let len = t.len;
    put(&mut t.rows, len, i, request);
    t
}

pub fn put_permission(mut t: Permissions, i: usize, permission: Permission) -> Permissions
    ensures { result ≡ «replaced_permission» t i permission }
{
    let len = t.len;
    put(&mut t.rows, len, i, permission);
    t
}

pub fn put_channel(mut t: Channels, i: usize, channel: Channel) -> Channels
    ensures { result ≡ «replaced_channel» t i channel }
{
    let len = t.len;
    put(&mut t.rows, len, i, channel);
    t
}

// Blank rows.
pub fn no_request() -> Request
    ensures { result ≡ «blank_request» }
{
    let id = [0; 12];
    let asked = Asked {
        tag: 0,
        number: 0,
        lifetime: 0,
        peer: Place {
            host: Host {
                family: 0,
                high: 0,
                low: 0,
            },
            port: 0,
        },
    };
    Request {
        id: id,
        under: id,
        asked: asked,
        tries: 0,
        next: 0,
        retried: false,
    }
}

pub fn no_permission() -> Permission
    ensures { result ≡ «blank_permission» }
{
    Permission {
        host: Host {
            family: 0,
            high: 0,
            low: 0,
        },
        granted: false,
        at: 0,
    }
}

pub fn no_channel() -> Channel
    ensures { result ≡ «blank_channel» }
{
    Channel {
        peer: Place {
            host: Host {
                family: 0,
                high: 0,
                low: 0,
            },
            port: 0,
        },
        number: 0,
        bound: false,
        at: 0,
    }
}

// A row taken out: the rows after it move down by one, and the last becomes blank. Where there is none, the table stays.
pub fn remove_request(mut t: Requests, i: usize) -> Requests
    ensures { result ≡ removed_request t i }
{
    let len = t.len;
    t.len = remove(&mut t.rows, len, i, no_request());
    t
}

pub fn remove_permission(mut t: Permissions, i: usize) -> Permissions
    ensures { result ≡ removed_permission t i }
{
    let len = t.len;
    t.len = remove(&mut t.rows, len, i, no_permission());
    t
}

pub fn remove_channel(mut t: Channels, i: usize) -> Channels
    ensures { result ≡ removed_channel t i }
{
    let len = t.len;
    t.len = remove(&mut t.rows, len, i, no_channel());
    t
}

// Is what is held, a grant or a bound channel, to be renewed? Does a channel that is not bound wait for that address?
fn is_due(held: bool, at: u64, now: u64) -> bool
    ensures { result ≡ (held && leb at now) }
{
    held && at <= now
}

fn is_waiting(bound: bool, host: Host, ip: Ip) -> bool
    ensures { result ≡ («ip_is» (ip_in host) ip && not bound) }
{
    Ip::from(host) == ip && !bound
}

// The ids of the requests whose time has come.
pub fn due_requests(t: Requests, now: u64) -> Ids
    ensures { result ≡ due_ids t now }
{
    let mut list = Ids {
        rows: [Id { bytes: [0; 12] }; 64],
        len: 0,
    };
    let n = t.len.min(REQUEST_ROOM);
    for i in 0..n {
        let row = t.rows[i];
        let id = row.id;
        let due = row.next <= now;
        let len = list.len;
        list.len = note(&mut list.rows, len, due, Id { bytes: id });
    }
    list
}

// The hosts of the permissions to be renewed.
pub fn due_permissions(t: Permissions, now: u64) -> Hosts
    ensures { result ≡ due_hosts t now }
{
    let mut list = Hosts {
        rows: [no_permission().host; 32],
        len: 0,
    };
    let n = t.len.min(PERMISSION_ROOM);
    for i in 0..n {
        let row = t.rows[i];
        let due = is_due(row.granted, row.at, now);
        let len = list.len;
        list.len = note(&mut list.rows, len, due, row.host);
    }
    list
}

// The peers of the channels to be renewed, and of those that wait for a permission.
pub fn due_channels(t: Channels, now: u64) -> Places
    ensures { result ≡ due_places t now }
{
    let mut list = Places {
        rows: [no_channel().peer; 32],
        len: 0,
    };
    let n = t.len.min(CHANNEL_ROOM);
    for i in 0..n {
        let row = t.rows[i];
        let due = is_due(row.bound, row.at, now);
        let len = list.len;
        list.len = note(&mut list.rows, len, due, row.peer);
    }
    list
}

pub fn waiting_channels(t: Channels, ip: Ip) -> Places
    ensures { result ≡ waiting_places t ip }
{
    let mut list = Places {
        rows: [no_channel().peer; 32],
        len: 0,
    };
    let n = t.len.min(CHANNEL_ROOM);
    for i in 0..n {
        let row = t.rows[i];
        let waits = is_waiting(row.bound, row.peer.host, ip);
        let len = list.len;
        list.len = note(&mut list.rows, len, waits, row.peer);
    }
    list
}
