// `handle` of turn.rs: what came from the server. ChannelData and Data indications are data from a peer, and are never checked; the
// answer to a pending request is checked first where a key is held, and only then does the request leave its table.
#![tactic(auto)]

ghost use Rattle.std.specs.Prelude.{◌≡◌, Some, ◌&&◌, ◌||◌, not, ◌≤◌, eqb, length};
ghost use Rattle.std.specs.Option.{option_to_list};
ghost use Rattle.stun_frame.specs.declared.classes.Class.TheVariants.{Success as «SuccessOf», Error as «ErrorOf»};
ghost use Rattle.stun_walk.specs.Source.{decoded, error_code_of};
ghost use Rattle.turn_state.specs.Source.{under_id, exempt, is_answer, passed, refresh_time, bound_at, update_chan, on_success, on_failure};
ghost use Rattle.turn_state.specs.Number.{given_of, called};
ghost use Rattle.turn_state.specs.Sequence.{Handle};
ghost use Rattle.turn_state.specs.View.{view, held, kind_in, chan_in, txns_in, reply_of, Meets, Allows};
ghost use Rattle.turn_tables.specs.Rows.{position};
ghost use Rattle.turn_handle.specs.Handling.{saying, heard, indication, lacking, Quiet, resolved, answered_by, part_of};

use stun_address::Address;
use stun_check::verify;
use stun_frame::classes::Class;
use stun_frame::names::{
    ATTR_DATA, ATTR_XOR_MAPPED_ADDRESS, ATTR_XOR_PEER_ADDRESS, ATTR_XOR_RELAYED_ADDRESS,
    DATA_INDICATION,
};
use stun_frame::{ChannelData, class, decode_channel_data};
use stun_walk::{Header, decode, error_code, get, lifetime, xor_addr};
use turn_poll::permit;
use turn_retry::retry;
use turn_state::{
    Answer, Asked, Channel, Channels, Client, Credentials, Event, Kind, Place, Reason, Refusal,
};
use turn_tables::{
    find_channel, find_number, find_permission, find_request, put_channel, remove_channel,
    remove_permission, remove_request,
};

// Takes a datagram or a frame from the server.
pub fn handle(
    client: Client,
    now: u64,
    datagram: &[u8],
    ids: &[u8],
    out: &mut [u8],
) -> Result<Answer, Refusal>
    ensures { Allows client (Handle now datagram.now ids.now (length out.old)) out.old (reply_of client result) out.new }
{
    if 9007199254740991 < now {
        return Err(Refusal::Late);
    }
    // The answers to data are made here: another function would copy the client once more.
    if let Some(data) = decode_channel_data(datagram) {
        let event = channel_data(client.channels, data);
        return Ok(Answer {
            client,
            event,
            events: count(event),
            packets: 0,
            len: 0,
        });
    }
    match decode(datagram) {
        None => Ok(Answer::quiet(client)),
        Some(header) => {
            if header.typ == DATA_INDICATION {
                let event = indicated(datagram);
                return Ok(Answer {
                    client,
                    event,
                    events: count(event),
                    packets: 0,
                    len: 0,
                });
            }
            answer(client, header, now, datagram, ids, out)
        }
    }
}

// The bytes of an event's data in the datagram that it came from; none of any other event, and none without one.
pub fn data_of(event: Option<Event>, datagram: &[u8]) -> &[u8]
    ensures { result.now ≡ part_of event datagram.now }
{
    match event {
        Some(Event::Data(_, start, len)) => {
            let n = datagram.len();
            let a = start.min(n);
            let e = a + len.min(n - a);
            &datagram[a..e]
        }
        _ => &datagram[0..0],
    }
}

// One event or none.
fn count(event: Option<Event>) -> usize
    ensures { result ≡ length (option_to_list event) }
{
    match event {
        Some(_) => 1,
        None => 0,
    }
}

// Data on a channel's number, bound or not, is data from its peer.
fn channel_data(t: Channels, data: ChannelData) -> Option<Event>
    ensures { result ≡ heard t «data» }
{
    let i = find_number(t, data.number)?;
    Some(Event::Data(Address::from(t.rows[i].peer), data.start, data.len))
}

// A Data indication, with its peer and its data.
fn indicated(datagram: &[u8]) -> Option<Event>
    ensures { result ≡ indication datagram.now }
{
    let peer = xor_addr(datagram, ATTR_XOR_PEER_ADDRESS)?;
    let value = get(datagram, ATTR_DATA)?;
    Some(Event::Data(peer, value.start, value.len))
}

// A message that is no Data indication: the answer to a pending request, or nothing.
fn answer(
    before: Client,
    header: Header,
    now: u64,
    datagram: &[u8],
    ids: &[u8],
    out: &mut [u8],
) -> Result<Answer, Refusal>
    requires { (now ≤ 9007199254740991) × (decoded datagram.now ≡ Some header) }
    ensures { Meets before (called (answered_by now datagram.now) (given_of now ids.now (length out.old)) (view before)) out.old (reply_of before result) out.new }
{
    match find_request(before.requests, header.id) {
        None => Ok(Answer::quiet(before)),
        Some(i) => {
            let class = class(header.typ);
            if !is_taken(class, before.credentials, datagram) {
                return Ok(Answer::quiet(before));
            }
            match class {
                Class::Success => succeed(before, header.id, i, now, datagram, ids, out),
                Class::Error => fail(before, header.id, i, now, datagram, ids, out),
                Class::Request | Class::Indication => Ok(Answer::quiet(before)),
            }
        }
    }
}

// Is a message of that class an answer, and one that the check lets through?
fn is_taken(class: Class, c: Credentials, datagram: &[u8]) -> bool
    ensures { result ≡ (is_answer class && passed (held c.has_key c.key) datagram.now class) }
{
    matches!(class, Class::Success | Class::Error) && passes(class, c, datagram)
}

// The check of a message: without a key there is none, and some errors are taken unchecked.
fn passes(class: Class, c: Credentials, datagram: &[u8]) -> bool
    ensures { result ≡ passed (held c.has_key c.key) datagram.now class }
{
    !c.has_key || class == Class::Error && is_exempt(datagram) || verify(datagram, &c.key)
}

// Is it an error 400, 401 or 438?
fn is_exempt(datagram: &[u8]) -> bool
    ensures { result ≡ exempt (error_code_of datagram.now) }
{
    matches!(error_code(datagram), Some(400 | 401 | 438))
}

// The client without the request at a place of its table.
fn without(client: Client, i: usize) -> Client
    ensures { result ≡ lacking client i }
{
    Client {
        requests: remove_request(client.requests, i),
        ..client
    }
}

// The success of the request under that id, which stands at i.
fn succeed(
    before: Client,
    id: [u8; 12],
    i: usize,
    now: u64,
    datagram: &[u8],
    ids: &[u8],
    out: &mut [u8],
) -> Result<Answer, Refusal>
    requires { (now ≤ 9007199254740991) × (position (under_id id) (txns_in before.requests) ≡ Some i) }
    ensures { Meets before (called (resolved now datagram.now id «SuccessOf») (given_of now ids.now (length out.old)) (view before)) out.old (reply_of before result) out.new }
{
    match Kind::from(before.requests.rows[i].asked) {
        Kind::Allocate => Ok(allocate(without(before, i), now, datagram)),
        Kind::Refresh(seconds) => Ok(refresh(without(before, i), seconds, now, datagram)),
        Kind::Permission(ip) => permit(before, id, ip, now, ids, out),
        Kind::ChannelBind(peer, number) => Ok(bind(without(before, i), peer, number, now)),
    }
}

// The error of the request under that id, which stands at i.
fn fail(
    before: Client,
    id: [u8; 12],
    i: usize,
    now: u64,
    datagram: &[u8],
    ids: &[u8],
    out: &mut [u8],
) -> Result<Answer, Refusal>
    requires { (now ≤ 9007199254740991) × (position (under_id id) (txns_in before.requests) ≡ Some i) }
    ensures { Meets before (called (resolved now datagram.now id «ErrorOf») (given_of now ids.now (length out.old)) (view before)) out.old (reply_of before result) out.new }
{
    let row = before.requests.rows[i];
    let code = error_code(datagram).unwrap_or(0);
    if is_retried(code, row.retried) {
        return retry(before, id, now, datagram, ids, out);
    }
    Ok(give_up(without(before, i), row.asked, code))
}

// Is a request with that error to be sent once more, with the realm and nonce that came?
fn is_retried(code: u16, retried: bool) -> bool
    ensures { result ≡ ((eqb code 401 || eqb code 438) && not retried) }
{
    matches!(code, 401 | 438) && !retried
}

// When what was granted now is to be refreshed: a minute before its end, and a minute from now at the earliest.
fn refresh_at(now: u64, seconds: u32) -> u64
    requires { now ≤ 9007199254740991 }
    ensures { result ≡ refresh_time now seconds }
{
    now + u64::from(seconds.max(120) - 60) * 1000
}

// An allocation's success.
fn allocate(client: Client, now: u64, datagram: &[u8]) -> Answer
    requires { now ≤ 9007199254740991 }
    ensures { Quiet client (on_success now Kind.Allocate datagram.now) result }
{
    let Some(relay) = xor_addr(datagram, ATTR_XOR_RELAYED_ADDRESS) else {
        let after = Client {
            done: true,
            ..client
        };
        return Answer::telling(after, Event::Failed(Reason::NoRelayedAddress));
    };
    let mapped = xor_addr(datagram, ATTR_XOR_MAPPED_ADDRESS);
    let seconds = lifetime(datagram).unwrap_or(600);
    let after = Client {
        relay: Place::from(relay),
        has_relay: true,
        refresh_at: refresh_at(now, seconds),
        has_refresh: true,
        done: true,
        ..client
    };
    Answer::telling(after, Event::Allocated(relay, mapped))
}

// A Refresh's success. One of 0 seconds gave the allocation up.
fn refresh(client: Client, seconds: u32, now: u64, datagram: &[u8]) -> Answer
    requires { now ≤ 9007199254740991 }
    ensures { Quiet client (on_success now (Kind.Refresh seconds) datagram.now) result }
{
    if seconds == 0 {
        return Answer::quiet(client);
    }
    let granted = lifetime(datagram).unwrap_or(seconds);
    Answer::quiet(Client {
        refresh_at: refresh_at(now, granted),
        has_refresh: true,
        ..client
    })
}

// A bind's success: the peer's channel is written where it stands.
fn bind(client: Client, peer: Address, number: u16, now: u64) -> Answer
    requires { now ≤ 9007199254740991 }
    ensures { Quiet client (update_chan peer (bound_at now number)) result }
{
    let Some(i) = find_channel(client.channels, peer) else {
        return Answer::quiet(client);
    };
    let own = bound(client.channels.rows[i], number, now);
    Answer::quiet(Client {
        channels: put_channel(client.channels, i, own),
        ..client
    })
}

// A channel bound, if its number is the one that was asked for.
fn bound(row: Channel, number: u16, now: u64) -> Channel
    requires { now ≤ 9007199254740991 }
    ensures { (chan_in result ≡ bound_at now number (chan_in row)) × (result.peer ≡ row.peer) }
{
    if row.number != number {
        return row;
    }
    Channel {
        bound: true,
        at: now + 540000,
        ..row
    }
}

// A request that failed: what `on_failure` does.
fn give_up(client: Client, asked: Asked, code: u16) -> Answer
    ensures { Quiet client (on_failure (kind_in asked) (Reason.Code code)) result }
{
    match Kind::from(asked) {
        Kind::Allocate => {
            let after = Client {
                done: true,
                ..client
            };
            Answer::telling(after, Event::Failed(Reason::Code(code)))
        }
        Kind::Refresh(_) => Answer::quiet(client),
        Kind::Permission(ip) => match find_permission(client.permissions, ip) {
            Some(i) => Answer::quiet(Client {
                permissions: remove_permission(client.permissions, i),
                ..client
            }),
            None => Answer::quiet(client),
        },
        Kind::ChannelBind(peer, _) => match find_channel(client.channels, peer) {
            Some(i) => Answer::quiet(Client {
                channels: remove_channel(client.channels, i),
                ..client
            }),
            None => Answer::quiet(client),
        },
    }
}
