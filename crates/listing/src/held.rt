// A line as bytes in fixed room. A line always fits, so that who prints it writes bytes that are known, and nothing fails before
// the write.
ghost use Rattle.std.specs.Prelude.{◌≡◌, [], ◌∷◌, ◌++◌, ◌+◌, ◌≤◌, length, take};
ghost use Rattle.listing.specs.Listing.{decimal as «decimal_of», name, due, blank, newline, text};
ghost use Rattle.listing.specs.Held.{held as «held_of», Holds, Adds, Shows};

use crate::{Call, Line};

// The first `len` bytes; the room after them is zero.
#[repr(C)]
#[derive(Clone, Copy)]
pub struct Held {
    pub bytes: [u8; 160],
    pub len: usize,
}

// The digits of a number and the byte after them, from `from` on.
#[repr(C)]
#[derive(Clone, Copy)]
struct Digits {
    bytes: [u8; 21],
    from: usize,
}

impl Held {
    // The text's bytes. A length above the room reads as the room.
    pub fn as_slice(&self) -> &[u8]
        ensures { result.now ≡ take self.now.len self.now.bytes }
    {
        let len = self.len.min(160);
        &self.bytes[..len]
    }
}

impl Line {
    // What the line prints.
    pub fn held(&self) -> Held
        ensures { Holds (text self.now) result }
    {
        match *self {
            Line::First => put(empty(), b"turn-replay 1\n"),
            Line::Called {
                number,
                call,
                refusal,
                events,
                packets,
                bytes,
                deadline,
            } => {
                let a = put_number(empty(), number, b' ');
                let b = put_name(a, call);
                let c = put_number(b, u64::from(refusal), b' ');
                let d = put_number(c, events as u64, b' ');
                let e = put_number(d, packets as u64, b' ');
                let f = put_number(e, bytes as u64, b' ');
                put_deadline(f, deadline)
            }
            Line::Bad(place) => {
                let a = put(empty(), b"bad ");
                put_number(a, place, b'\n')
            }
            Line::Refused(number) => {
                let a = put(empty(), b"0 open ");
                let b = put_number(a, u64::from(number), b' ');
                put(b, b"0 0 0 -\n")
            }
        }
    }
}

fn empty() -> Held
    ensures { (result ≡ «held_of» []) × (result.len ≡ 0) }
{
    Held {
        bytes: [0; 160],
        len: 0,
    }
}

// Adds the name of a call and a blank.
fn put_name(line: Held, call: Call) -> Held
    requires { line.len + 6 ≤ 160 }
    ensures { Adds (name call ++ (blank ∷ [])) line result × (result.len ≤ line.len + 6) }
{
    match call {
        Call::Start => put(line, b"start "),
        Call::Data => put(line, b"data "),
        Call::Send => put(line, b"send "),
        Call::Poll => put(line, b"poll "),
        Call::Lost => put(line, b"lost "),
        Call::Close => put(line, b"close "),
    }
}

// Adds a deadline and a newline.
fn put_deadline(line: Held, deadline: Option<u64>) -> Held
    requires { line.len + 21 ≤ 160 }
    ensures { Adds (due deadline ++ (newline ∷ [])) line result × (result.len ≤ 160) }
{
    match deadline {
        Some(time) => put_number(line, time, b'\n'),
        None => put(line, b"-\n"),
    }
}

// Adds the digits of a number and one byte more.
fn put_number(line: Held, n: u64, after: u8) -> Held
    requires { line.len + 21 ≤ 160 }
    ensures { Adds («decimal_of» n ++ (after ∷ [])) line result × (result.len ≤ line.len + 21) }
{
    let digits = decimal(n, after);
    put(line, &digits.bytes[digits.from..])
}

// Adds bytes to a line.
fn put(line: Held, part: &[u8]) -> Held
    requires { line.len + length part.now ≤ 160 }
    ensures { Adds part.now line result }
{
    let mut bytes = line.bytes;
    let len = line.len + part.len();
    bytes[line.len..len].copy_from_slice(part);
    Held { bytes, len }
}

// The digits of a number, from the last one to the first, before the byte that is to stand after them.
fn decimal(n: u64, after: u8) -> Digits
    ensures { Shows n after result }
{
    let mut bytes = [0; 21];
    bytes[20] = after;
    let mut from = 20;
    let mut rest = n;
    while 9 < rest {
        from -= 1;
        bytes[from] = digit(rest % 10);
        rest /= 10;
    }
    from -= 1;
    bytes[from] = digit(rest);
    Digits { bytes, from }
}

fn digit(d: u64) -> u8
    requires { d ≤ 9 }
    ensures { result ≡ 48 + d }
{
    b'0' + d as u8
}
