// When the client has to be polled next: `next_deadline` of turn.rs. One pass over the rows in use of each table.
#![tactic(auto)]

ghost use Rattle.std.specs.Prelude.{◌≡◌, map};
ghost use Rattle.turn_state.specs.Source.{consider, least, next_deadline as «deadline_due»};
ghost use Rattle.turn_state.specs.View.{view, txns_in, perms_in, chans_in};
ghost use Rattle.turn_deadline.specs.Times.{of_request, of_permission, of_channel};

use turn_state::{Channels, Client, Permissions, Requests};

pub fn next_deadline(client: Client) -> Option<u64>
    ensures { result ≡ «deadline_due» (view client) }
{
    let request = earliest_request(client.requests);
    if client.closing {
        return request;
    }
    let refresh = client.has_refresh.then_some(client.refresh_at);
    let permission = earliest_permission(client.permissions);
    let channel = earliest_channel(client.channels);
    earlier(channel, earlier(permission, earlier(refresh, request)))
}

// The earlier of two; never is later than any time.
pub fn earlier(a: Option<u64>, b: Option<u64>) -> Option<u64>
    ensures { result ≡ consider a b }
{
    match (a, b) {
        (Some(x), Some(y)) => Some(x.min(y)),
        _ => a.or(b),
    }
}

// When the first request is sent again.
pub fn earliest_request(t: Requests) -> Option<u64>
    ensures { result ≡ least (map of_request (txns_in t)) }
{
    t.rows[..t.len.min(64)].iter().map(|row| row.next).min()
}

// When the first granted permission is asked for again.
pub fn earliest_permission(t: Permissions) -> Option<u64>
    ensures { result ≡ least (map of_permission (perms_in t)) }
{
    t.rows[..t.len.min(32)]
        .iter()
        .filter_map(|row| row.granted.then_some(row.at))
        .min()
}

// When the first bound channel is bound again.
pub fn earliest_channel(t: Channels) -> Option<u64>
    ensures { result ≡ least (map of_channel (chans_in t)) }
{
    t.rows[..t.len.min(32)]
        .iter()
        .filter_map(|row| row.bound.then_some(row.at))
        .min()
}
