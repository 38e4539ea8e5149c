// `send` of turn.rs: data to a peer, over its channel once that is bound, else in a Send indication; a permission and a channel that are
// missing are asked for first. What is to be done is read from the tables, then it is decided, and only then is anything written.
#![tactic(auto)]

ghost use Rattle.std.specs.Prelude.{◌≡◌, ◌&&◌, ◌||◌, Bool, cond, is_some, [], ◌∷◌, ◌++◌, ◌+◌, ◌≤◌, length, take, drop, option_map};
ghost use Rattle.turn_state.specs.Maps.{get};
ghost use Rattle.turn_state.specs.Source.{for_ip, for_peer};
ghost use Rattle.turn_state.specs.Sequence.{Send};
ghost use Rattle.turn_state.specs.Number.{framed};
ghost use Rattle.turn_state.specs.View.{host_of, place_of, perm_in, chan_in, txns_in, perms_in, chans_in, reply_of, Allows};
ghost use Rattle.turn_tables.specs.Tables.{pushed_permission, pushed_channel};
ghost use Rattle.turn_ids.specs.Ids.{request_full};
ghost use Rattle.turn_send.specs.Sending.{route_of as «route_by», ask_bytes, asked_out, data_bytes, data_of, with_ask, Concludes};

use stun_address::{Address, Ip};
use turn_data::{indication_size, write_channel_data, write_indication};
use turn_ids::{id_of, meets_full, verdict};
use turn_packet::{packet_size, write_packet};
use turn_plan::{first_next, insert_request};
use turn_state::{
    Answer, Asked, Channel, Channels, Client, Credentials, Host, Kind, Permission, Permissions,
    Place, Refusal, Request, Requests,
};
use turn_tables::{find_channel, find_permission, push_channel, push_permission};

const LAST_NUMBER: u16 = 0x7FFF;

// What a send comes to: a permission and a channel that are to be made, with the number that comes next then; the request that is asked
// for, where one is; whether a table is full; and the bound channel's number, where there is one.
#[derive(Clone, Copy)]
pub struct Route {
    pub permits: bool,
    pub opens: bool,
    pub next: u16,
    pub ask: Option<Asked>,
    pub full: bool,
    pub line: Option<u16>,
}

// A peer's permission and its channel, where they stand.
fn permission_of(t: Permissions, ip: Ip) -> Option<Permission>
    ensures { option_map perm_in result ≡ get (for_ip ip) (perms_in t) }
{
    let i = find_permission(t, ip)?;
    Some(t.rows[i])
}

fn channel_of(t: Channels, peer: Address) -> Option<Channel>
    ensures { option_map chan_in result ≡ get (for_peer peer) (chans_in t) }
{
    let i = find_channel(t, peer)?;
    Some(t.rows[i])
}

// A permission that was just asked for is not granted: so no more than one request is made.
fn route_of(
    permission: Option<Permission>,
    channel: Option<Channel>,
    permissions: usize,
    channels: usize,
    next_num: u16,
    peer: Address,
) -> Route
    ensures { result ≡ «route_by» (option_map perm_in permission) (option_map chan_in channel) permissions channels next_num peer }
{
    let opens = channel.is_none() && next_num <= LAST_NUMBER;
    let next = if opens { next_num + 1 } else { next_num };
    let crowded = opens && 32 <= channels;
    let line = match channel {
        Some(row) if row.bound => Some(row.number),
        _ => None,
    };
    match permission {
        None => Route {
            permits: true,
            opens,
            next,
            ask: Some(Asked::from(Kind::Permission(peer.ip))),
            full: 32 <= permissions || crowded,
            line,
        },
        Some(row) => Route {
            permits: false,
            opens,
            next,
            ask: if opens && row.granted {
                Some(Asked::from(Kind::ChannelBind(peer, next_num)))
            } else {
                None
            },
            full: crowded,
            line,
        },
    }
}

// How many bytes the request takes in the output, and the data.
fn ask_size(c: Credentials, ask: Option<Asked>) -> usize
    ensures { (result ≡ ask_bytes c ask) × (result ≤ 3003) }
{
    match ask {
        Some(asked) => 3 + packet_size(c, asked),
        None => 0,
    }
}

fn data_size(line: Option<u16>, peer: Address, n: usize) -> usize
    requires { n ≤ 2048 }
    ensures { (result ≡ data_bytes line peer n) × (result ≤ 3000) }
{
    match line {
        Some(_) => 3 + 4 + n + (4 - n % 4) % 4,
        None => 3 + indication_size(peer, n),
    }
}

// The request in front of the output.
fn write_ask(out: &mut [u8], c: Credentials, ask: Option<Asked>, id: [u8; 12])
    requires { ask_bytes c ask ≤ length out.old }
    ensures { out.new ≡ framed (asked_out c ask id) ++ drop (ask_bytes c ask) out.old }
{
    if let Some(asked) = ask {
        let _ = write_packet(out, 0, c, asked, id, id);
    }
}

// The data at the place `at`.
fn write_data(
    out: &mut [u8],
    at: usize,
    line: Option<u16>,
    peer: Address,
    id: [u8; 12],
    data: &[u8],
)
    requires { (length «data».now ≤ 2048) × (at + data_bytes line peer (length «data».now) ≤ length out.old) }
    ensures { out.new ≡ (take at out.old ++ framed (data_of line peer id «data».now ∷ [])) ++ drop (at + data_bytes line peer (length «data».now)) out.old }
{
    match line {
        Some(number) => {
            let _ = write_channel_data(out, at, number, data);
        }
        None => {
            let _ = write_indication(out, at, peer, id, data);
        }
    }
}

// The tables with what is asked for and made.
fn with_request(t: Requests, ask: Option<Asked>, id: [u8; 12], next: u64) -> Requests
    ensures { result ≡ with_ask t ask id next }
{
    match ask {
        Some(asked) => insert_request(
            t,
            Request {
                id,
                under: id,
                asked,
                tries: 1,
                next,
                retried: false,
            },
        ),
        None => t,
    }
}

fn with_permission(t: Permissions, wanted: bool, ip: Ip) -> Permissions
    ensures { result ≡ cond wanted (pushed_permission t (record { host = host_of ip; granted = Bool.false; at = 0 })) t }
{
    if !wanted {
        return t;
    }
    push_permission(
        t,
        Permission {
            host: Host::from(ip),
            granted: false,
            at: 0,
        },
    )
}

fn with_channel(t: Channels, wanted: bool, peer: Address, number: u16, now: u64) -> Channels
    ensures { result ≡ cond wanted (pushed_channel t (record { peer = place_of peer; number = number; bound = Bool.false; at = now })) t }
{
    if !wanted {
        return t;
    }
    push_channel(
        t,
        Channel {
            peer: Place::from(peer),
            number,
            bound: false,
            at: now,
        },
    )
}

// Does a record that the route makes meet a full table?
fn is_full(route: Route, pending: Requests, ids: &[u8]) -> bool
    ensures { result ≡ (route.full || (is_some route.ask && request_full (txns_in pending) ids.now 0)) }
{
    route.full || route.ask.is_some() && meets_full(pending, ids, 0)
}

// A route's number, or its packets and the client after it.
fn conclude(
    client: Client,
    route: Route,
    now: u64,
    peer: Address,
    data: &[u8],
    ids: &[u8],
    out: &mut [u8],
) -> Result<Answer, Refusal>
    requires { (now ≤ 9007199254740991) × (length «data».now ≤ 2048) }
    ensures { Concludes client route now peer «data».now ids.now out.old (reply_of client result) out.new }
{
    let first = ask_size(client.credentials, route.ask);
    let size = first + data_size(route.line, peer, data.len());
    let own = usize::from(route.ask.is_some());
    let used = own + usize::from(route.line.is_none());
    let full = is_full(route, client.requests, ids);
    verdict(client.requests, full, used, ids, size, out.len())?;
    let id = id_of(ids, 0);
    write_ask(out, client.credentials, route.ask, id);
    let other = id_of(ids, own);
    write_data(out, first, route.line, peer, other, data);
    let next = first_next(now, client.reliable);
    let mut after = client;
    after.requests = with_request(client.requests, route.ask, id, next);
    after.permissions = with_permission(client.permissions, route.permits, peer.ip);
    after.channels = with_channel(client.channels, route.opens, peer, client.next_num, now);
    after.next_num = route.next;
    Ok(Answer::sending(after, own + 1, size))
}

// Sends data to a peer.
#[tactic(auto, using(crate::proofs::Answers::too_long))]
pub fn send(
    client: Client,
    now: u64,
    peer: Address,
    data: &[u8],
    ids: &[u8],
    out: &mut [u8],
) -> Result<Answer, Refusal>
    ensures { Allows client (Send now peer «data».now ids.now (length out.old)) out.old (reply_of client result) out.new }
{
    if 9007199254740991 < now {
        return Err(Refusal::Late);
    }
    if 2048 < data.len() {
        return Err(Refusal::LongBody);
    }
    if !client.has_relay || client.closing {
        return Ok(Answer::quiet(client));
    }
    let permission = permission_of(client.permissions, peer.ip);
    let channel = channel_of(client.channels, peer);
    if let (Some(_), Some(row)) = (permission, channel)
        && row.bound
    {
        let size = write_channel_data(out, 0, row.number, data).or(Err(Refusal::SmallOutput))?;
        return Ok(Answer::sending(client, 1, size));
    }
    let route = route_of(
        permission,
        channel,
        client.permissions.len,
        client.channels.len,
        client.next_num,
        peer,
    );
    conclude(client, route, now, peer, data, ids, out)
}
