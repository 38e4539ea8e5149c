// The data of `send` written into the lent output: tag 0x01, two-byte length, then a Send indication or a ChannelData message.
// RFC 8656 sections 11.1 (Send indication) and 12.4 (ChannelData).
#![tactic(auto)]

ghost use Rattle.std.specs.Prelude.{◌≡◌, Ok, Err, cond, [], ◌∷◌, ◌++◌, ◌+◌, ◌≤◌, length, take, drop, ltb, leb};
ghost use Rattle.stun_frame.specs.declared.Unwritten.TheVariants.{NoRoom, TooLong};
ghost use Rattle.stun_frame.specs.Source.{room_after, encode_channel_data};
ghost use Rattle.turn_state.specs.Number.{framed};
ghost use Rattle.turn_data.specs.Data.{indication_of, indication_size as «indication_bytes», frame_size};

use stun_address::{Address, Ip};
use stun_frame::Unwritten;
use stun_frame::names::{ATTR_DATA, ATTR_XOR_PEER_ADDRESS, SEND_INDICATION};
use stun_write::{push_attr, seal};

// How many bytes the indication with n bytes of data has; 0 where n is over 65,535.
pub fn indication_size(peer: Address, n: usize) -> usize
    ensures { (result ≡ cond (ltb 65535 n) 0 («indication_bytes» peer n)) × (result ≤ 20 + 24 + 4 + n + 3) }
{
    if 65535 < n {
        return 0;
    }
    let data = 4 + n + (4 - n % 4) % 4;
    match peer.ip {
        Ip::V4(_) => 20 + 12 + data,
        Ip::V6(_, _) => 20 + 24 + data,
    }
}

// The indication at the place `at`. The answer is the place after it; data over 2,048 bytes is refused, and where the packet does not
// fit nothing is written.
pub fn write_indication(
    out: &mut [u8],
    at: usize,
    peer: Address,
    id: [u8; 12],
    data: &[u8],
) -> Result<usize, Unwritten>
    ensures { (result ≡ cond (ltb 2048 (length «data».now)) (Err TooLong)
        (cond (leb (at + 3 + «indication_bytes» peer (length «data».now)) (length out.old)) (Ok (at + 3 + «indication_bytes» peer (length «data».now))) (Err NoRoom)))
        × (out.new ≡ room_after result (take at out.old ++ framed (indication_of peer id «data».now ∷ [])) out.old) }
{
    let n = data.len();
    if 2048 < n {
        return Err(Unwritten::TooLong);
    }
    let size = indication_size(peer, n);
    if out.len() < at {
        return Err(Unwritten::NoRoom);
    }
    let whole = 3 + size;
    if out.len() - at < whole {
        return Err(Unwritten::NoRoom);
    }
    let start = at + 3;
    indication(&mut out[start..], peer, id, data)?;
    out[at] = 1;
    out[at + 1] = (size / 256) as u8;
    out[at + 2] = (size % 256) as u8;
    Ok(start + size)
}

// The same for a ChannelData message on the channel `number`.
pub fn write_channel_data(
    out: &mut [u8],
    at: usize,
    number: u16,
    data: &[u8],
) -> Result<usize, Unwritten>
    ensures { (result ≡ cond (ltb 2048 (length «data».now)) (Err TooLong)
        (cond (leb (at + 3 + frame_size (length «data».now)) (length out.old)) (Ok (at + 3 + frame_size (length «data».now))) (Err NoRoom)))
        × (out.new ≡ room_after result (take at out.old ++ framed (encode_channel_data number «data».now ∷ [])) out.old) }
{
    let len = data.len();
    if 2048 < len {
        return Err(Unwritten::TooLong);
    }
    let total = 4 + len + (4 - len % 4) % 4;
    if out.len() < at {
        return Err(Unwritten::NoRoom);
    }
    let packet = 3 + total;
    if out.len() - at < packet {
        return Err(Unwritten::NoRoom);
    }
    let start = at + 3;
    stun_frame::encode_channel_data(number, data, &mut out[start..])?;
    out[at] = 1;
    out[at + 1] = (total / 256) as u8;
    out[at + 2] = (total % 256) as u8;
    Ok(start + total)
}

// The indication in front of the room. The answer is its size.
fn indication(out: &mut [u8], peer: Address, id: [u8; 12], data: &[u8]) -> Result<usize, Unwritten>
    requires { (length «data».now ≤ 2048) × («indication_bytes» peer (length «data».now) ≤ length out.old) }
    ensures { (result ≡ Ok («indication_bytes» peer (length «data».now))) × (out.new ≡ indication_of peer id «data».now ++ drop («indication_bytes» peer (length «data».now)) out.old) }
{
    let e = stun_address::encode_xor_addr(peer, &id);
    let value = &e.bytes[0..e.len];
    let a = push_attr(out, 20, ATTR_XOR_PEER_ADDRESS, value)?;
    let b = push_attr(out, a, ATTR_DATA, data)?;
    seal(out, b, SEND_INDICATION, id, b"", false, false)
}
