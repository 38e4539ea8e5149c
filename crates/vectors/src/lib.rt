// What the programs that print digests share: the bytes that they digest, where they cut them, and
// the lines that they print.
#![tactic(auto)]

ghost use Rattle.std.specs.Prelude.{◌≡◌, length};

use std::convert::AsSlice;
use std::env::Env;
use std::{fmt, io};

// The byte of index i is (start + step * i) mod 256.
pub fn fill(out: &mut [u8], start: u8, step: u8) {
    let mut b = start;
    for place in out {
        *place = b;
        b = b.wrapping_add(step);
    }
}

// The i-th argument, as bytes at the front of the room; none where it is not given, or longer.
pub fn argument<'a>(rt: &impl Env, i: usize, room: &'a mut [u8]) -> &'a [u8] {
    let n = rt.arg(i, room).unwrap_or(0);
    &room[..n]
}

// The number that the digits among the bytes write, the first fifteen of it.
pub fn number(text: &[u8]) -> u64 {
    text.iter().fold(0, |n: u64, c| match c {
        b'0'..=b'9' if n < 100_000_000_000_000 => n * 10 + u64::from(*c - b'0'),
        _ => n,
    })
}

// The message whose first n bytes the programs digest.
pub fn message() -> [u8; 260]
    ensures { 260 ≡ length result }
{
    let mut m = [0; 260];
    fill(&mut m, 3, 7);
    m
}

// The bytes that the keys of HMAC are the first of.
pub fn key() -> [u8; 131]
    ensures { 131 ≡ length result }
{
    let mut k = [0; 131];
    fill(&mut k, 5, 11);
    k
}

// Where the second part begins: about the end of a block of 64 bytes, and about byte 56 of a block,
// where the message's length goes.
static CUTS: [usize; 19] = [
    1, 55, 56, 57, 63, 64, 65, 119, 120, 121, 127, 128, 129, 191, 192, 193, 255, 256, 257,
];

// Each byte as two hexadecimal digits.
#[derive(Clone, Copy)]
struct Hex<'a>(&'a [u8]);

impl fmt::Display for Hex<'_> {
    fn fmt<W: fmt::Write>(&self, f: &mut fmt::Formatter<W>) -> fmt::Result {
        for b in self.0 {
            write!(f, "{b:02x}")?;
        }
        Ok(())
    }
}

// NAME HEX. The name is bytes, as the programs write it: other crates' programs call this too.
pub fn print_named(rt: &impl Print, name: &[u8], digest: &[u8]) -> io::Result<()> {
    rt.write_all(name)?;
    println!(rt; " {}", Hex(digest))
}

// N HEX, for a message of n bytes in one part.
pub fn print_whole(rt: &impl Print, n: usize, digest: &[u8]) -> io::Result<()> {
    println!(rt; "{n} {}", Hex(digest))
}

// N C HEX for the message in two parts, the first of c bytes, at each cut; and N 1 64 129 HEX for it
// in four parts, cut at these three. `digest` takes the parts.
pub fn print_parts<D: AsSlice<u8> + Drop, F: Fn(&[&[u8]]) -> D>(
    rt: &impl Print,
    m: &[u8],
    digest: &F,
) -> io::Result<()>
    requires { F.IsAlwaysCallable digest.now }
{
    let n = m.len();
    for &c in &CUTS {
        if c <= n {
            let d = digest(&[&m[..c], &m[c..]]);
            println!(rt; "{n} {c} {}", Hex(d.as_slice()))?;
        }
    }
    if n >= 130 {
        let d = digest(&[&m[..1], &m[1..64], &m[64..129], &m[129..]]);
        println!(rt; "{n} 1 64 129 {}", Hex(d.as_slice()))?;
    }
    Ok(())
}

// The lines of messages of each length from 0 to 260, in one part, in two and in four.
pub fn print_messages<D: AsSlice<u8> + Drop, W: Fn(&[u8]) -> D, F: Fn(&[&[u8]]) -> D>(
    rt: &impl Print,
    whole: W,
    parts: F,
) -> io::Result<()>
    requires whole { W.IsAlwaysCallable whole }
    requires parts { F.IsAlwaysCallable parts }
{
    let m = message();
    for n in 0..=m.len() {
        print_whole(rt, n, whole(&m[..n]).as_slice())?;
        print_parts(rt, &m[..n], &parts)?;
    }
    Ok(())
}
