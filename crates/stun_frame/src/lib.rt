// Which of the two formats bytes are, ChannelData, and the frames of a stream: `class`, `is_stun`, `is_channel_data`,
// `encode_channel_data` and `decode_channel_data` of stun.rs, `stream_frame_len` of turn.rs. RFC 8489 sections 5 and 6,
// RFC 8656 sections 12.4 and 12.5.
#![tactic(auto)]

ghost use Rattle.std.specs.Prelude.{◌≡◌, ◌+◌, ◌≤◌, length};
ghost use Rattle.std.proofs.Math.Seq.{paste};
ghost use Rattle.stun_frame.specs.Source.{from_be, class, is_stun, is_channel_data, decode_channel_data, encode_channel_data, written, room_after, whole, stream_frame_len};

pub mod classes;
pub mod names;

use classes::Class;

// The number, and where the bytes of the data lie: `len` of them from `start` on.
#[derive(Clone, Copy, PartialEq, Eq)]
pub struct ChannelData {
    pub number: u16,
    pub start: usize,
    pub len: usize,
}

// Why nothing was written.
#[derive(Clone, Copy, PartialEq, Eq)]
pub enum Unwritten {
    // A length would not fit its field.
    TooLong,
    // The room that was lent is too short.
    NoRoom,
}

// Three outcomes that a caller treats in three ways, and none of them is an error: `usize::MAX`, by which the Rust says corrupt, is a case
// of its own.
#[derive(Clone, Copy, PartialEq, Eq)]
pub enum Frame {
    Incomplete,
    Whole(usize),
    Corrupt,
}

// The class of a message type.
#[tactic(auto, unfolding(crate::specs::Source::class))]
pub fn class(typ: u16) -> Class
    ensures { result ≡ class typ }
{
    match typ & 0x0110 {
        0x0000 => Class::Request,
        0x0010 => Class::Indication,
        0x0100 => Class::Success,
        _ => Class::Error,
    }
}

// 20 bytes or more, two zero bits first, the magic cookie.
#[tactic(auto, unfolding(crate::specs::Source::is_stun))]
pub fn is_stun(buf: &[u8]) -> bool
    ensures { result ≡ is_stun buf.now }
{
    buf.len() >= 20
        && buf[0] & 0xC0 == 0
        && buf[4] == 0x21
        && buf[5] == 0x12
        && buf[6] == 0xA4
        && buf[7] == 0x42
}

// 4 bytes or more, the first of them 0x40 to 0x7F.
#[tactic(auto, unfolding(crate::specs::Source::is_channel_data))]
pub fn is_channel_data(buf: &[u8]) -> bool
    ensures { result ≡ is_channel_data buf.now }
{
    buf.len() >= 4 && buf[0] >= 0x40 && buf[0] <= 0x7F
}

// The number, and where in `buf` the data lies.
#[tactic(auto, using(crate::proofs::Reading::channel_long), unfolding(crate::specs::Source::decode_channel_data))]
pub fn decode_channel_data(buf: &[u8]) -> Option<ChannelData>
    ensures { result ≡ decode_channel_data buf.now }
{
    if !is_channel_data(buf) {
        return None;
    }
    let number = u16::from_be_bytes([buf[0], buf[1]]);
    let len = usize::from(u16::from_be_bytes([buf[2], buf[3]]));
    if buf.len() < 4 + len {
        return None;
    }
    Some(ChannelData {
        number,
        start: 4,
        len,
    })
}

// Number, length, data and zeros to a multiple of four, at the front of `out`. The answer is how many bytes these are.
pub fn encode_channel_data(channel: u16, data: &[u8], out: &mut [u8]) -> Result<usize, Unwritten>
    ensures { (result ≡ written channel «data».now out.old)
        × (out.new ≡ room_after result (encode_channel_data channel «data».now) out.old) }
{
    let n = data.len();
    if 65535 < n {
        return Err(Unwritten::TooLong);
    }
    let end = 4 + n;
    let total = end + (4 - n % 4) % 4;
    if out.len() < total {
        return Err(Unwritten::NoRoom);
    }
    out[0..2].copy_from_slice(&channel.to_be_bytes());
    out[2..4].copy_from_slice(&(n as u16).to_be_bytes());
    out[4..end].copy_from_slice(data);
    out[end..total].fill(0);
    Ok(total)
}

// A frame of `total` bytes, where `have` have come.
fn whole_of(have: usize, total: usize) -> Frame
    ensures { result ≡ whole have total }
{
    if total <= have {
        return Frame::Whole(total);
    }
    Frame::Incomplete
}

// The length of the frame that a stream starts with.
#[tactic(auto, unfolding(crate::specs::Source::stream_frame_len))]
pub fn stream_frame_len(buf: &[u8]) -> Frame
    ensures { result ≡ stream_frame_len buf.now }
{
    if buf.len() < 4 {
        return Frame::Incomplete;
    }
    let len = usize::from(u16::from_be_bytes([buf[2], buf[3]]));
    match buf[0] >> 6 {
        0 => whole_of(buf.len(), 20 + len),
        1 => whole_of(buf.len(), 4 + ((len + 3) & !3)),
        _ => Frame::Corrupt,
    }
}
