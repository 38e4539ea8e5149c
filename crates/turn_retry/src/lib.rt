// The retry of turn.rs's `handle`: a request that was first answered by 401 or 438 goes out once more, under a new id and with the
// realm, key and nonce that the answer gives.
#![tactic(auto)]

ghost use Rattle.std.specs.Prelude.{◌≡◌, length};
ghost use Rattle.turn_state.specs.Number.{given_of, called};
ghost use Rattle.turn_state.specs.View.{view, kind_in, shows_under as «ShowsIn», reply_of, Meets};
ghost use Rattle.turn_retry.specs.Retry.{retried as «tried_again»};
ghost use Rattle.turn_retry.specs.Learning.{with_realm, with_nonce, row_again};

use stun_address::{Address, Ip};
use stun_check::long_term_key;
use stun_frame::names::{ATTR_NONCE, ATTR_REALM};
use stun_text::Text;
use stun_walk::get_str;
use turn_ids::{id_of, meets_full, verdict};
use turn_packet::{packet_size, write_packet};
use turn_plan::{first_next, insert_request};
use turn_state::{Answer, Asked, Client, Credentials, Kind, Refusal, Request};
use turn_tables::{find_request, remove_request};

// Nothing where no request has that id.
pub fn retry(
    client: Client,
    id: [u8; 12],
    now: u64,
    datagram: &[u8],
    ids: &[u8],
    out: &mut [u8],
) -> Result<Answer, Refusal>
    ensures { Meets client (called («tried_again» now datagram.now id) (given_of now ids.now (length out.old)) (view client)) out.old (reply_of client result) out.new }
{
    if 9007199254740991 < now {
        return Err(Refusal::Late);
    }
    let Some(i) = find_request(client.requests, id) else {
        return Ok(Answer::quiet(client));
    };
    let row = client.requests.rows[i];
    let less = remove_request(client.requests, i);
    let realm = get_str(datagram, ATTR_REALM).or(Err(Refusal::LongText))?;
    let nonce = get_str(datagram, ATTR_NONCE).or(Err(Refusal::LongText))?;
    let keyed = learn_realm(client.credentials, realm, client.password);
    let credentials = learn_nonce(keyed, nonce);
    let size = 3 + packet_size(credentials, row.asked);
    let full = meets_full(less, ids, 0);
    verdict(client.requests, full, 1, ids, size, out.len())?;
    let own = id_of(ids, 0);
    let _ = write_packet(out, 0, credentials, row.asked, own, row.under);
    let later = again(row, own, first_next(now, client.reliable));
    let mut after = client;
    after.credentials = credentials;
    after.requests = insert_request(less, later);
    Ok(Answer::sending(after, 1, size))
}

// A given realm, and the key of it.
fn learn_realm(c: Credentials, realm: Option<Text>, password: Text) -> Credentials
    ensures { result ≡ with_realm realm password c }
{
    match realm {
        None => c,
        Some(realm) => Credentials {
            realm,
            key: long_term_key(c.username.as_slice(), realm.as_slice(), password.as_slice()),
            has_realm: true,
            has_key: true,
            ..c
        },
    }
}

// A given nonce.
fn learn_nonce(c: Credentials, nonce: Option<Text>) -> Credentials
    ensures { result ≡ with_nonce nonce c }
{
    match nonce {
        None => c,
        Some(nonce) => Credentials {
            nonce,
            has_nonce: true,
            ..c
        },
    }
}

// Does a request of that kind show the id under which its peer is encoded?
fn shows_under(asked: Asked) -> bool
    ensures { result ≡ «ShowsIn» (kind_in asked) }
{
    matches!(
        Kind::from(asked),
        Kind::Permission(Ip::V6(_, _))
            | Kind::ChannelBind(
                Address {
                    ip: Ip::V6(_, _),
                    ..
                },
                _
            )
    )
}

// The row of a request that is tried again.
fn again(row: Request, id: [u8; 12], next: u64) -> Request
    ensures { result ≡ row_again row id next }
{
    Request {
        id,
        under: if shows_under(row.asked) {
            row.under
        } else {
            id
        },
        asked: row.asked,
        tries: 1,
        next,
        retried: true,
    }
}
