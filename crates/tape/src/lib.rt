// The replay tape of document 01: what stands at the front of a window on it. A field is a tag, a two-byte big-endian length and a
// body of at most 4,096 bytes, so a window of 4,099 holds every field.
#![tactic(auto)]

ghost use Rattle.std.specs.Prelude.{◌≡◌, ◌+◌, ◌≤◌, ◌<◌, MatchOption, length, take, drop};
ghost use Rattle.tape.specs.Tape.{later as «later_of», stage_of, only, starts, transport, send, call, meaning};
ghost use Rattle.tape.specs.Window.{cut, next_of};

use stun_address::{Address, Ip};

// The tags of fields.
const USERNAME: u8 = 0x01;

const PASSWORD: u8 = 0x02;

const TRANSPORT: u8 = 0x03;

const START: u8 = 0x10;

const DATAGRAM: u8 = 0x11;

const SEND: u8 = 0x12;

const POLL: u8 = 0x13;

const LOST: u8 = 0x14;

const CLOSE: u8 = 0x15;

const IDS: u8 = 0x20;

// The most bytes of a body.
const LONGEST: usize = 4096;

// The two transports, and the families of addresses.
const UDP: u8 = 0;

const RELIABLE: u8 = 1;

const IPV4: u8 = 1;

const IPV6: u8 = 2;

// The next field of the opening, or a call where all three are behind.
#[derive(Clone, Copy, PartialEq, Eq)]
pub enum Stage {
    NeedsUsername,
    NeedsPassword,
    NeedsTransport,
    Opened,
}

impl Stage {
    // The stage behind the next field.
    pub fn later(self) -> Stage
        ensures { result ≡ «later_of» self }
    {
        match self {
            Stage::NeedsUsername => Stage::NeedsPassword,
            Stage::NeedsPassword => Stage::NeedsTransport,
            Stage::NeedsTransport | Stage::Opened => Stage::Opened,
        }
    }
}

// By how many fields of the opening are behind: username, password, transport. Any number from three on is the calls' stage.
impl From<u8> for Stage {
    ghost from_gives = { λ behind stage. stage ≡ stage_of behind };

    fn from(behind: u8) -> Stage {
        match behind {
            0 => Stage::NeedsUsername,
            1 => Stage::NeedsPassword,
            2 => Stage::NeedsTransport,
            _ => Stage::Opened,
        }
    }
}

// A field's meaning. Times are milliseconds, a transport is reliable or not.
#[derive(Clone, Copy)]
pub enum Piece {
    Username,
    Password,
    Transport(bool),
    Ids,
    Start(u64),
    Datagram(u64),
    Send(u64, Address),
    Poll(u64),
    Lost,
    Close,
}

// A whole field of `size` bytes, and what it carries: `len` bytes of the window from `start` on. More: the field is not whole
// yet. End: the tape ends here. An enum and no Result, which would be no plainer: a reader takes all four apart, and hands none
// on by `?`.
#[derive(Clone, Copy)]
pub enum Front {
    Field {
        piece: Piece,
        size: usize,
        start: usize,
        len: usize,
    },
    More,
    End,
    Bad,
}

// What a body means: a piece that takes its first bytes. The bytes after those are what the piece carries.
#[derive(Clone, Copy)]
struct Meant {
    piece: Piece,
    taken: usize,
}

// What stands at the front of the window, at a stage of the tape. Where `ended`, no more input comes.
#[tactic(auto, unfolding(crate::specs::Window::next_of))]
pub fn next(stage: Stage, window: &[u8], ended: bool) -> Front
    ensures { result ≡ next_of stage window.now ended }
{
    if window.is_empty() {
        return if ended { Front::End } else { Front::More };
    }
    let Some((head, rest)) = window.split_first_chunk::<3>() else {
        return unfinished(ended);
    };
    let [tag, high, low] = *head;
    let size = usize::from(u16::from_be_bytes([high, low]));
    if LONGEST < size {
        return Front::Bad;
    }
    if rest.len() < size {
        return unfinished(ended);
    }
    match whole(stage, tag, &rest[..size]) {
        Some(Meant { piece, taken }) => Front::Field {
            piece,
            size: 3 + size,
            start: 3 + taken,
            len: size - taken,
        },
        None => Front::Bad,
    }
}

fn unfinished(ended: bool) -> Front
    ensures { result ≡ cut ended }
{
    if ended { Front::Bad } else { Front::More }
}

#[tactic(auto, unfolding(crate::specs::Tape::meaning))]
fn whole(stage: Stage, tag: u8, body: &[u8]) -> Option<Meant>
    ensures { result ≡ meaning stage tag body.now }
{
    let n = body.len();
    match (stage, tag) {
        (Stage::NeedsUsername, USERNAME) => started(Piece::Username, 0, n),
        (Stage::NeedsPassword, PASSWORD) => started(Piece::Password, 0, n),
        (Stage::NeedsTransport, TRANSPORT) => transported(body),
        (Stage::Opened, _) => called(tag, body),
        _ => None,
    }
}

// A body of `n` bytes that is a piece of `k` bytes and nothing more.
fn alone(piece: Piece, k: usize, n: usize) -> Option<Meant>
    ensures { result ≡ only n k piece }
{
    (n == k).then_some(Meant { piece, taken: k })
}

// A body of `n` bytes that starts with a piece of `k` bytes.
fn started(piece: Piece, k: usize, n: usize) -> Option<Meant>
    ensures { result ≡ starts n k piece }
{
    (k <= n).then_some(Meant { piece, taken: k })
}

fn transported(body: &[u8]) -> Option<Meant>
    ensures { result ≡ transport body.now }
{
    match body {
        [UDP] => alone(Piece::Transport(false), 1, 1),
        [RELIABLE] => alone(Piece::Transport(true), 1, 1),
        _ => None,
    }
}

#[tactic(auto, unfolding(crate::specs::Tape::call, crate::specs::Tape::timed))]
fn called(tag: u8, body: &[u8]) -> Option<Meant>
    ensures { result ≡ call tag body.now }
{
    let n = body.len();
    match tag {
        IDS => return started(Piece::Ids, 0, n),
        LOST => return alone(Piece::Lost, 0, n),
        CLOSE => return alone(Piece::Close, 0, n),
        _ => {}
    }
    let time = u64::from_be_bytes(bytes_at(body, 0)?);
    match tag {
        START => alone(Piece::Start(time), 8, n),
        DATAGRAM => started(Piece::Datagram(time), 8, n),
        SEND => sent(time, body),
        POLL => alone(Piece::Poll(time), 8, n),
        _ => None,
    }
}

#[tactic(auto, unfolding(crate::specs::Tape::send))]
fn sent(time: u64, body: &[u8]) -> Option<Meant>
    ensures { result ≡ send time body.now }
{
    let n = body.len();
    let [family, high, low] = bytes_at::<3>(body, 8)?;
    let port = u16::from_be_bytes([high, low]);
    match family {
        IPV4 => {
            let ip = Ip::V4(u32::from_be_bytes(bytes_at(body, 11)?));
            started(Piece::Send(time, Address { ip, port }), 15, n)
        }
        IPV6 => {
            let high = u64::from_be_bytes(bytes_at(body, 11)?);
            let low = u64::from_be_bytes(bytes_at(body, 19)?);
            let ip = Ip::V6(high, low);
            started(Piece::Send(time, Address { ip, port }), 27, n)
        }
        _ => None,
    }
}

// The `N` bytes at a place of a body that has them.
fn bytes_at<const N: usize>(body: &[u8], at: usize) -> Option<[u8; N]>
    ensures { MatchOption result (length body.now < at + N) (λ bytes. (at + N ≤ length body.now) × (bytes ≡ take N (drop at body.now))) }
{
    Some(*body.get(at..)?.first_chunk::<N>()?)
}
