// A client from its opening, `new` of turn.rs, and the loss of its transport, `transport_failed`.
#![tactic(auto)]

ghost use Rattle.std.specs.Prelude.{◌≡◌, [], ◌≤◌, length};
ghost use Rattle.stun_text.specs.Lossy.{text_of};
ghost use Rattle.turn_state.specs.Number.{number_in, open_number};
ghost use Rattle.turn_state.specs.Sequence.{TransportFailed};
ghost use Rattle.turn_state.specs.View.{no_text as «blank_text», Allows, done};
ghost use Rattle.turn_open.specs.Fresh.{blank_requests, blank_permissions, blank_channels, fresh_client, unopened_client};
ghost use Rattle.turn_open.specs.Opening.{Opening, opened_of};

use stun_text::{Text, well_formed};
use turn_state::{
    Answer, Channels, Client, Credentials, Event, Permissions, Reason, Refusal, Requests,
};
use turn_tables::{no_channel, no_permission, no_request};

// Refused by 2 or 3, the caller goes on with the client that `unopened` gives.
pub fn open(username: &[u8], password: &[u8], reliable: bool) -> Result<Client, Refusal>
    ensures { Opening username.now password.now reliable (opened_of result) }
{
    admitted(username, password)?;
    Ok(fresh(copied(username), copied(password), reliable))
}

// The client after a refused opening: that of an empty username and password over UDP.
pub fn unopened() -> Client
    ensures { result ≡ unopened_client }
{
    fresh(no_text(), no_text(), false)
}

// The transport failed: nothing is pending any more, and unless an allocation was told of, its failure is.
pub fn lost(client: Client) -> Answer
    ensures { Allows client TransportFailed [] (done result) [] }
{
    let blank = no_requests();
    let mut next = client;
    next.requests = blank;
    next.closing = true;
    if client.done && client.has_relay {
        return Answer::quiet(next);
    }
    next.done = true;
    Answer::telling(next, Event::Failed(Reason::Lost))
}

// Are the texts of an opening short enough and well-formed?
fn admitted(username: &[u8], password: &[u8]) -> Result<(), Refusal>
    ensures { number_in result ≡ open_number username.now password.now }
{
    if 508 < username.len() || 256 < password.len() {
        return Err(Refusal::LongText);
    }
    if !well_formed(username) || !well_formed(password) {
        return Err(Refusal::IllFormed);
    }
    Ok(())
}

// A text with zeros after it.
fn copied(s: &[u8]) -> Text
    requires { length s.now ≤ 763 }
    ensures { result ≡ text_of s.now }
{
    let mut bytes = [0; 763];
    bytes[..s.len()].copy_from_slice(s);
    Text {
        bytes,
        len: s.len(),
    }
}

// The client that holds nothing but its name and password.
fn fresh(username: Text, password: Text, reliable: bool) -> Client
    ensures { result ≡ fresh_client username password reliable }
{
    Client {
        password,
        credentials: Credentials {
            username,
            realm: no_text(),
            nonce: no_text(),
            key: [0; 16],
            has_realm: false,
            has_nonce: false,
            has_key: false,
        },
        requests: no_requests(),
        permissions: no_permissions(),
        channels: no_channels(),
        relay: no_channel().peer,
        refresh_at: 0,
        next_num: 0x4000,
        has_relay: false,
        has_refresh: false,
        done: false,
        closing: false,
        reliable,
    }
}

// What holds nothing.
fn no_text() -> Text
    ensures { result ≡ «blank_text» }
{
    Text {
        bytes: [0u8; 763],
        len: 0,
    }
}

pub fn no_requests() -> Requests
    ensures { result ≡ blank_requests }
{
    Requests {
        rows: [no_request(); 64],
        len: 0,
    }
}

pub fn no_permissions() -> Permissions
    ensures { result ≡ blank_permissions }
{
    Permissions {
        rows: [no_permission(); 32],
        len: 0,
    }
}

pub fn no_channels() -> Channels
    ensures { result ≡ blank_channels }
{
    Channels {
        rows: [no_channel(); 32],
        len: 0,
    }
}
