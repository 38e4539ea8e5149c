// `start` and `poll` of turn.rs, and what `on_success` does for a permission: what is to be sent is planned first, then it is decided,
// and only then is anything written.
#![tactic(auto)]

ghost use Rattle.std.specs.Prelude.{◌≡◌, not, ◌≤◌, length, replicate};
ghost use Rattle.turn_state.specs.Sequence.{Start, Poll};
ghost use Rattle.turn_state.specs.Maps.{remove};
ghost use Rattle.turn_state.specs.Source.{is_due, next_deadline as «deadline_due», under_id};
ghost use Rattle.turn_state.specs.View.{view, told, reply_of, txns_in, TidyRequests, Allows};
ghost use Rattle.turn_poll.specs.Taking.{Took, TookAll};
ghost use Rattle.turn_poll.specs.Concluding.{Concludes, Grants, Permits};

use stun_address::Ip;
use turn_deadline::next_deadline;
use turn_frames::{asks_size, sends_size, write_asks, write_sends};
use turn_ids::{id_count, id_of, verdict};
use turn_plan::{Draft, LATEST, first_next, plan};
use turn_state::{
    Answer, Asked, Client, Event, Host, Kind, Permission, Permissions, Reason, Refusal, Request,
    Requests,
};
use turn_tables::{
    find_permission, find_request, push_permission, push_request, put_permission, put_request,
    remove_request,
};

const REQUEST_ROOM: usize = 64;

const PERMISSION_ROOM: usize = 32;

// The requests with those that were asked for so far, as long as ids are lent; and how many more there would be without an id.
#[derive(Clone, Copy)]
pub struct Taken {
    pub table: Requests,
    pub extra: usize,
}

// One more that is asked for, the k-th; refused where it meets a full table.
fn take_one(s: Taken, asked: Asked, ids: &[u8], k: usize, next: u64) -> Result<Taken, Refusal>
    requires { (s.table.len ≤ 64) × (s.extra ≤ k) × (k ≤ 65) }
    ensures { Took s asked ids.now k next result }
{
    let held = s.table.len + s.extra;
    if id_count(ids) <= k {
        if REQUEST_ROOM <= held {
            return Err(Refusal::Full);
        }
        return Ok(Taken {
            extra: s.extra + 1,
            ..s
        });
    }
    let id = id_of(ids, k);
    let row = Request {
        id,
        under: id,
        asked: Asked::from(Kind::from(asked)),
        tries: 1,
        next,
        retried: false,
    };
    match find_request(s.table, id) {
        Some(i) => Ok(Taken {
            table: put_request(s.table, i, row),
            ..s
        }),
        None => {
            if REQUEST_ROOM <= held {
                return Err(Refusal::Full);
            }
            Ok(Taken {
                table: push_request(s.table, row),
                ..s
            })
        }
    }
}

// All that is asked for. A length above the room is the room's.
fn take_all(table: Requests, asks: &[Asked], ids: &[u8], next: u64) -> Result<Requests, Refusal>
    requires { length asks.now ≤ 65 }
    ensures { TookAll table asks.now ids.now next result }
{
    let mut taken = Taken {
        table: Requests {
            len: table.len.min(REQUEST_ROOM),
            ..table
        },
        extra: 0,
    };
    for (k, asked) in asks.iter().enumerate() {
        taken = take_one(taken, *asked, ids, k, next)?;
    }
    Ok(taken.table)
}

// The event that a caller is told of, of so many timeouts.
fn timed_out(timeouts: usize) -> Option<Event>
    ensures { result ≡ told (replicate timeouts (Event.Failed Reason.Timeout)) }
{
    (timeouts != 0).then_some(Event::Failed(Reason::Timeout))
}

// What a draft comes to once its requests have ids: a refusal, or its packets and the client after it.
fn conclude(
    client: Client,
    draft: Draft,
    now: u64,
    ids: &[u8],
    out: &mut [u8],
) -> Result<Answer, Refusal>
    requires { (draft.sends.len ≤ 64) × (draft.asks.len ≤ 65) × (now ≤ 9007199254740991) }
    ensures { Concludes client draft now ids.now out.old (reply_of client result) out.new }
{
    let next = first_next(now, client.reliable);
    let asks = &draft.asks.rows[..draft.asks.len];
    let taken = take_all(draft.requests, asks, ids, next);
    let first = sends_size(client.credentials, draft.sends);
    let size = first + asks_size(client.credentials, draft.asks);
    let full = taken.is_err();
    verdict(client.requests, full, draft.asks.len, ids, size, out.len())?;
    let Ok(requests) = taken else {
        return Err(Refusal::Full);
    };
    let _ = write_sends(out, 0, client.credentials, draft.sends);
    let _ = write_asks(out, first, client.credentials, draft.asks, ids);
    Ok(Answer {
        client: Client {
            requests,
            permissions: draft.permissions,
            channels: draft.channels,
            refresh_at: draft.refresh.unwrap_or(0),
            has_refresh: draft.refresh.is_some(),
            done: draft.done,
            ..client
        },
        event: timed_out(draft.timeouts),
        events: draft.timeouts,
        packets: draft.sends.len + draft.asks.len,
        len: size,
    })
}

// Starts the allocation.
pub fn start(client: Client, now: u64, ids: &[u8], out: &mut [u8]) -> Result<Answer, Refusal>
    ensures { Allows client (Start now ids.now (length out.old)) out.old (reply_of client result) out.new }
{
    if LATEST < now {
        return Err(Refusal::Late);
    }
    let draft = Draft::asking(&client, Kind::Allocate);
    conclude(client, draft, now, ids, out)
}

// Repeats requests, and refreshes allocation, permissions and channels.
pub fn poll(client: Client, now: u64, ids: &[u8], out: &mut [u8]) -> Result<Answer, Refusal>
    ensures { Allows client (Poll now ids.now (length out.old)) out.old (reply_of client result) out.new }
{
    if LATEST < now {
        return Err(Refusal::Late);
    }
    if is_early(client, now) {
        return Ok(Answer::quiet(client));
    }
    let draft = plan(&client, now);
    conclude(client, draft, now, ids, out)
}

// Is nothing due yet? Then the client is handed back as it is.
fn is_early(client: Client, now: u64) -> bool
    ensures { result ≡ not (is_due now («deadline_due» (view client))) }
{
    match next_deadline(client) {
        Some(at) => now < at,
        None => true,
    }
}

// A permission is granted: the request of that id is gone, the permission stands, and every unbound channel of its IP is bound, in
// table order.
pub fn permit(
    client: Client,
    id: [u8; 12],
    ip: Ip,
    now: u64,
    ids: &[u8],
    out: &mut [u8],
) -> Result<Answer, Refusal>
    ensures { Permits client id ip now ids.now out.old (reply_of client result) out.new }
{
    if LATEST < now {
        return Err(Refusal::Late);
    }
    let granted = grant(client.permissions, ip, now)?;
    let draft = Draft::binding(&client, without(client.requests, id), granted, ip);
    conclude(client, draft, now, ids, out)
}

// The requests without that of the id.
#[tactic(auto, using(crate::proofs::Permitting::without_missing))]
fn without(t: Requests, id: [u8; 12]) -> Requests
    ensures { (txns_in result ≡ remove (under_id id) (txns_in t)) × (TidyRequests t → TidyRequests result) }
{
    match find_request(t, id) {
        Some(i) => remove_request(t, i),
        None => t,
    }
}

// The permissions with that of the IP, granted; refused where it is not there and the table is full.
#[tactic(auto, using(crate::proofs::Permitting::no_grant))]
fn grant(t: Permissions, ip: Ip, now: u64) -> Result<Permissions, Refusal>
    requires { now ≤ 9007199254740991 }
    ensures { Grants t ip now result }
{
    let row = Permission {
        host: Host::from(ip),
        granted: true,
        at: now + 240000,
    };
    match find_permission(t, ip) {
        Some(i) => Ok(put_permission(t, i, row)),
        None => {
            if PERMISSION_ROOM <= t.len {
                return Err(Refusal::Full);
            }
            Ok(push_permission(t, row))
        }
    }
}
