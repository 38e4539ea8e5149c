// What `stun_text` makes of texts, for comparison with another implementation: every text of two
// bytes (a checksum for each first byte), the examples of the Unicode Standard, section 3.9, the
// ends of each range of Table 3-7, and lengths around the room's.
#![tactic(auto)]

ghost use Rattle.std.specs.Prelude.{◌≤◌, ◌<◌, length};

use std::io;
use stun_text::{Text, TooLong};

// What is shown of a text that does not fit.
const NOTHING: Text = Text {
    bytes: [0; 763],
    len: 0,
};

fn main(rt: HostRuntime) -> io::Result<()> {
    pairs(&rt)?;
    show(&rt, &[0xC0, 0xAF, 0xE0, 0x80, 0xBF, 0xF0, 0x81, 0x82, 0x41])?;
    show(&rt, &[0xED, 0xA0, 0x80, 0xED, 0xBF, 0xBF, 0xED, 0xAF, 0x41])?;
    show(&rt, &[0xF4, 0x91, 0x92, 0x93, 0xFF, 0x41, 0x80, 0xBF, 0x42])?;
    show(&rt, &[0xE1, 0x80, 0xE2, 0xF0, 0x91, 0x92, 0xF1, 0xBF, 0x41])?;
    rows(&rt)?;
    lengths(&rt)
}

// The first and the last sequence of each row.
fn rows(rt: &impl Print) -> io::Result<()> {
    around(rt, &[0x00])?;
    around(rt, &[0x7F])?;
    around(rt, &[0xC2, 0x80])?;
    around(rt, &[0xDF, 0xBF])?;
    around(rt, &[0xE0, 0xA0, 0x80])?;
    around(rt, &[0xE0, 0xBF, 0xBF])?;
    around(rt, &[0xE1, 0x80, 0x80])?;
    around(rt, &[0xEC, 0xBF, 0xBF])?;
    around(rt, &[0xED, 0x80, 0x80])?;
    around(rt, &[0xED, 0x9F, 0xBF])?;
    around(rt, &[0xEE, 0x80, 0x80])?;
    around(rt, &[0xEF, 0xBF, 0xBF])?;
    around(rt, &[0xF0, 0x90, 0x80, 0x80])?;
    around(rt, &[0xF0, 0xBF, 0xBF, 0xBF])?;
    around(rt, &[0xF1, 0x80, 0x80, 0x80])?;
    around(rt, &[0xF3, 0xBF, 0xBF, 0xBF])?;
    around(rt, &[0xF4, 0x80, 0x80, 0x80])?;
    around(rt, &[0xF4, 0x8F, 0xBF, 0xBF])
}

// n bytes, of which the last is another: what fits the room of 763, and what does not.
fn lengths(rt: &impl Print) -> io::Result<()> {
    long(rt, 0x41, 1, 0x41)?;
    long(rt, 0x41, 762, 0x41)?;
    long(rt, 0x41, 763, 0x41)?;
    long(rt, 0x41, 764, 0x41)?;
    long(rt, 0x41, 761, 0xC3)?;
    long(rt, 0x41, 762, 0xC3)?;
    long(rt, 0x41, 763, 0xC3)?;
    long(rt, 0xC3, 254, 0xC3)?;
    long(rt, 0xC3, 255, 0xC3)?;
    long(rt, 0xC3, 254, 0x80)?;
    long(rt, 0xC3, 255, 0x80)?;
    long(rt, 0xC3, 255, 0x41)?;
    long(rt, 0xC3, 256, 0x41)?;
    long(rt, 0xC3, 256, 0x80)?;
    long(rt, 0xC3, 257, 0x80)?;
    long(rt, 0xFF, 800, 0xFF)
}

// A line for each first byte: the checksum, over the second bytes in order, of whether the text is
// well-formed, how long its replacement is, and the replacement.
fn pairs(rt: &impl Print) -> io::Result<()> {
    for a in 0..=255u8 {
        byte(rt, a)?;
        space(rt)?;
        print!(rt; "{:08x}", seconds(a))?;
        end(rt)?;
    }
    Ok(())
}

fn seconds(a: u8) -> u32 {
    let mut sum = 1;
    for b in 0..=255u8 {
        sum = checked(sum, &[a, b]);
    }
    sum
}

fn checked(sum: u32, s: &[u8]) -> u32 {
    let first = added(sum, u8::from(stun_text::well_formed(s)));
    match stun_text::lossy(s) {
        Ok(text) => added_all(added(first, (text.len % 256) as u8), text.as_slice()),
        Err(TooLong) => added(first, 0),
    }
}

fn added_all(sum: u32, bytes: &[u8]) -> u32 {
    let mut all = sum;
    for b in bytes {
        all = added(all, *b);
    }
    all
}

// Adler-32 (RFC 1950, section 8.2) with one byte more.
fn added(sum: u32, b: u8) -> u32 {
    let low = (sum % 65536 + b as u32) % 65521;
    let high = (sum / 65536 + low) % 65521;
    high * 65536 + low
}

// The text's beginnings, and the text with one byte one less and one more, at each place.
fn around(rt: &impl Print, t: &[u8]) -> io::Result<()>
    requires { length t.now ≤ 4 }
{
    for n in 1..t.len() + 1 {
        show(rt, &t[0..n])?;
    }
    for p in 0..t.len() {
        changed(rt, t, p, 255)?;
        changed(rt, t, p, 1)?;
    }
    Ok(())
}

fn changed(rt: &impl Print, t: &[u8], p: usize, by: u32) -> io::Result<()>
    requires t_bound { length t.now ≤ 4 }
    requires p_lt_t { p < length t.now }
    requires by_bound { by < 256 }
{
    let mut room = [0; 4];
    let u = &mut room[0..t.len()];
    u.copy_from_slice(t);
    u[p] = moved(t[p], by);
    show(rt, u)
}

fn moved(b: u8, by: u32) -> u8
    requires { by < 256 }
{
    ((b as u32 + by) % 256) as u8
}

// The text, whether it is well-formed, and what it is replaced by.
fn show(rt: &impl Print, s: &[u8]) -> io::Result<()> {
    bytes(rt, s)?;
    space(rt)?;
    byte(rt, u8::from(stun_text::well_formed(s)))?;
    space(rt)?;
    if let Ok(text) = stun_text::lossy(s) {
        bytes(rt, text.as_slice())?;
    }
    end(rt)
}

// Whether the text is well-formed, whether its replacement fits, how long that is, and the checksum
// of the whole room.
fn long(rt: &impl Print, b: u8, n: usize, last: u8) -> io::Result<()>
    requires le_n { 1 ≤ n }
    requires n_bound { n ≤ 800 }
{
    let mut a = [b; 800];
    a[n - 1] = last;
    let s = &a[0..n];
    byte(rt, u8::from(stun_text::well_formed(s)))?;
    space(rt)?;
    let (fits, text) = match stun_text::lossy(s) {
        Ok(text) => (true, text),
        Err(TooLong) => (false, NOTHING),
    };
    byte(rt, u8::from(fits))?;
    space(rt)?;
    print!(rt; "{}", text.len)?;
    space(rt)?;
    print!(rt; "{:08x}", added_all(1, &text.bytes))?;
    end(rt)
}

fn bytes(rt: &impl Print, s: &[u8]) -> io::Result<()> {
    for b in s {
        byte(rt, *b)?;
    }
    Ok(())
}

fn byte(rt: &impl Print, b: u8) -> io::Result<()> {
    print!(rt; "{b:02x}")
}

fn space(rt: &impl Print) -> io::Result<()> {
    print!(rt; " ")
}

fn end(rt: &impl Print) -> io::Result<()> {
    print!(rt; "\n")
}
