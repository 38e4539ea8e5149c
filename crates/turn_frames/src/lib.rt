// Requests written into the lent output one after the other, each framed: those that are sent again, and those that are to be asked for.
// A length above the room is read as the room.
#![tactic(auto)]

ghost use Rattle.std.specs.Prelude.{◌≡◌, Ok, Err, cond, ◌++◌, ◌+◌, ◌≤◌, length, take, leb};
ghost use Rattle.stun_frame.specs.declared.Unwritten.TheVariants.{NoRoom};
ghost use Rattle.stun_frame.specs.Source.{room_after};
ghost use Rattle.turn_state.specs.Number.{framed};
ghost use Rattle.turn_frames.specs.Frames.{sends_in, asks_in, sends_size as «sends_bytes», asks_size as «asks_bytes»};

use stun_frame::Unwritten;
use turn_ids::id_of;
use turn_packet::{packet_size, write_packet};
use turn_state::{Asks, Credentials, Requests};

const REQUEST_ROOM: usize = 64;

const ASK_ROOM: usize = 65;

// How many bytes they take.
pub fn sends_size(c: Credentials, t: Requests) -> usize
    ensures { (result ≡ «sends_bytes» c (take t.len t.rows)) × (result ≤ 200000) }
{
    t.rows[..t.len.min(REQUEST_ROOM)]
        .iter()
        .map(|row| 3 + packet_size(c, row.asked))
        .sum()
}

pub fn asks_size(c: Credentials, a: Asks) -> usize
    ensures { (result ≡ «asks_bytes» c (take a.len a.rows)) × (result ≤ 200000) }
{
    a.rows[..a.len.min(ASK_ROOM)]
        .iter()
        .map(|row| 3 + packet_size(c, *row))
        .sum()
}

// The requests that are sent again, from the place `at` on. The answer is the place after them; where they do not fit nothing is written.
pub fn write_sends(
    out: &mut [u8],
    at: usize,
    c: Credentials,
    t: Requests,
) -> Result<usize, Unwritten>
    ensures { (result ≡ cond (leb (at + «sends_bytes» c (take t.len t.rows)) (length out.old)) (Ok (at + «sends_bytes» c (take t.len t.rows))) (Err NoRoom))
        × (out.new ≡ room_after result (take at out.old ++ framed (sends_in c t)) out.old) }
{
    let size = sends_size(c, t);
    if out.len() < at || out.len() - at < size {
        return Err(Unwritten::NoRoom);
    }
    let n = t.len.min(REQUEST_ROOM);
    let mut place = at;
    for i in 0..n {
        let request = t.rows[i];
        place = write_packet(out, place, c, request.asked, request.id, request.under)?;
    }
    Ok(at + size)
}

// The requests that are asked for, the k-th under the k-th lent id.
pub fn write_asks(
    out: &mut [u8],
    at: usize,
    c: Credentials,
    a: Asks,
    ids: &[u8],
) -> Result<usize, Unwritten>
    ensures { (result ≡ cond (leb (at + «asks_bytes» c (take a.len a.rows)) (length out.old)) (Ok (at + «asks_bytes» c (take a.len a.rows))) (Err NoRoom))
        × (out.new ≡ room_after result (take at out.old ++ framed (asks_in c ids.now a)) out.old) }
{
    let need = asks_size(c, a);
    if out.len() < at || out.len() - at < need {
        return Err(Unwritten::NoRoom);
    }
    let n = a.len.min(ASK_ROOM);
    let mut place = at;
    for i in 0..n {
        let id = id_of(ids, i);
        place = write_packet(out, place, c, a.rows[i], id, id)?;
    }
    Ok(at + need)
}
