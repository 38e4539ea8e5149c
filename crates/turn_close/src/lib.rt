// `close` of turn.rs: the allocation is given up by a Refresh of 0, which is sent once and not kept.
#![tactic(auto)]

ghost use Rattle.std.specs.Prelude.{length};
ghost use Rattle.turn_state.specs.Sequence.{Close};
ghost use Rattle.turn_state.specs.View.{Allows, reply_of};

use turn_ids::{id_of, verdict};
use turn_open::no_requests;
use turn_packet::{packet_size, write_packet};
use turn_state::{Answer, Asked, Client, Kind, Refusal};

pub fn close(client: Client, ids: &[u8], out: &mut [u8]) -> Result<Answer, Refusal>
    ensures { Allows client (Close ids.now (length out.old)) out.old (reply_of client result) out.new }
{
    if !client.has_relay || client.closing {
        return Ok(Answer::quiet(client));
    }
    let asked = Asked::from(Kind::Refresh(0));
    let size = 3 + packet_size(client.credentials, asked);
    verdict(client.requests, false, 1, ids, size, out.len())?;
    let id = id_of(ids, 0);
    let _ = write_packet(out, 0, client.credentials, asked, id, id);
    let after = Client {
        requests: no_requests(),
        closing: true,
        ..client
    };
    Ok(Answer::sending(after, 1, size))
}
