// The ids that a caller lends: twelve bytes each, in order; spare bytes are ignored. And the numbers 5 to 8 of a call that uses some:
// among them 7, a used id equals another used one, or one that is pending at entry.
#![tactic(auto)]

ghost use Rattle.std.specs.Prelude.{◌≡◌, map, ◌-◌, ◌≤◌, min};
ghost use Rattle.stun_check.specs.Source.{same};
ghost use Rattle.turn_state.specs.Maps.{contains};
ghost use Rattle.turn_state.specs.State.{ids_in};
ghost use Rattle.turn_state.specs.Number.{clash, number_in};
ghost use Rattle.turn_state.specs.View.{txns_in};
ghost use Rattle.turn_ids.specs.Ids.{lent_id, ids_from, request_full, verdict_of};

use turn_state::{Refusal, Requests};
use turn_tables::find_request;

// How many ids are lent.
pub fn id_count(ids: &[u8]) -> usize
    ensures { result ≡ ids_in ids.now }
{
    ids.len() / 12
}

// The id at k; twelve zeros where it was not lent.
pub fn id_of(ids: &[u8], k: usize) -> [u8; 12]
    ensures { result ≡ lent_id ids.now k }
{
    let mut id = [0; 12];
    if k < id_count(ids) {
        let at = 12 * k;
        id.copy_from_slice(&ids[at..at + 12]);
    }
    id
}

// Some request has that id.
#[tactic(auto, using(crate::proofs::Clashing::pending_is))]
fn is_pending(t: Requests, id: [u8; 12]) -> bool
    ensures { result ≡ contains (λ x. same x id) (map (λ x. x.msg.tid) (txns_in t)) }
{
    find_request(t, id).is_some()
}

// Some id of those from `from` up to n, which are lent, is that one.
fn among(ids: &[u8], id: [u8; 12], from: usize, n: usize) -> bool
    requires { n ≤ ids_in ids.now }
    ensures { result ≡ contains (λ x. same x id) (ids_from ids.now from (n - from)) }
{
    (from..n).any(|j| id_of(ids, j) == id)
}

// Of the first `used` ids, as far as they were lent, one is pending, or equals a later one.
pub fn clashes(t: Requests, ids: &[u8], used: usize) -> bool
    ensures { result ≡ clash (map (λ x. x.msg.tid) (txns_in t)) (ids_from ids.now 0 (min used (ids_in ids.now))) }
{
    let n = used.min(id_count(ids));
    for k in 0..n {
        let id = id_of(ids, k);
        if is_pending(t, id) || among(ids, id, k + 1, n) {
            return true;
        }
    }
    false
}

// 5, of a request: under the id at k, lent or not, it would meet a full table.
#[tactic(auto, using(crate::proofs::Verdicts::not_full))]
pub fn meets_full(t: Requests, ids: &[u8], k: usize) -> bool
    ensures { result ≡ request_full (txns_in t) ids.now k }
{
    if t.len < 64 {
        return false;
    }
    if id_count(ids) <= k {
        return true;
    }
    !is_pending(t, id_of(ids, k))
}

// 5 to 8, of a call that met a full table or not, uses the first `used` ids and writes `size` bytes.
pub fn verdict(
    pending: Requests,
    full: bool,
    used: usize,
    ids: &[u8],
    size: usize,
    room: usize,
) -> Result<(), Refusal>
    ensures { number_in result ≡ verdict_of full (map (λ x. x.msg.tid) (txns_in pending)) ids.now used size room }
{
    if full {
        return Err(Refusal::Full);
    }
    if id_count(ids) < used {
        return Err(Refusal::FewIds);
    }
    if clashes(pending, ids, used) {
        return Err(Refusal::TakenId);
    }
    if room < size {
        return Err(Refusal::SmallOutput);
    }
    Ok(())
}
