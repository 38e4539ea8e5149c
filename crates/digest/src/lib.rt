// What the digests share: the circular shift, a block that fills up, the padded end of a message,
// numbers as bytes. RFC 3174 sections 3 and 4, RFC 1321 sections 2 and 3. Nothing here knows which
// digest calls it.
#![tactic(auto)]

mod hasher;

ghost use Rattle.std.specs.Prelude.{◌≡◌, [], ◌∷◌, ◌++◌, ◌*◌, ◌/◌, ◌%◌, ◌^◌, min, take};
ghost use mathlib.Core.List.{flat_map};
ghost use Rattle.digest.specs.Word.{rotl};
ghost use Rattle.digest.specs.Bytes.{bytes, ordered, low_first};
ghost use Rattle.digest.specs.Running.{filled};

pub use hasher::{Compression, Hasher};

// S^n(x), the circular left shift, with n taken modulo 32.
#[tactic(auto, using(crate::proofs::Word::rotated))]
pub fn rotate_left(x: u32, n: u32) -> u32
    ensures { result ≡ rotl (n % 32) x }
{
    x.rotate_left(n)
}

// The first `at` bytes of `before`, then `part`, as far as a block has room, then zeros.
#[tactic(auto, using(crate::proofs::Fill::laid_by))]
pub fn laid(before: [u8; 64], at: usize, part: &[u8]) -> [u8; 64]
    ensures { result ≡ filled 64 (take at before ++ part.now) }
{
    let from = at.min(64);
    let n = part.len().min(64 - from);
    let mut out = [0u8; 64];
    out[..from].copy_from_slice(&before[..from]);
    out[from..from + n].copy_from_slice(&part[..n]);
    out
}

// The number of four bytes, low byte first.
pub fn joined(a: u8, b: u8, c: u8, d: u8) -> u32
    ensures { result ≡ low_first (a ∷ b ∷ c ∷ d ∷ []) }
{
    u32::from_le_bytes([a, b, c, d])
}

// A u32 in four bytes, high byte first where `big`.
pub fn word_bytes(x: u32, big: bool) -> [u8; 4]
    ensures { result ≡ bytes (ordered big) 4 x }
{
    if big {
        x.to_be_bytes()
    } else {
        x.to_le_bytes()
    }
}

// The length of a message of `count` bytes, in bits modulo 2^64, as its padding ends with it. Beside
// `word_bytes` since the library has these methods for each width apart.
pub fn length_bytes(count: u64, big: bool) -> [u8; 8]
    ensures { result ≡ bytes (ordered big) 8 (8 * count % 2 ^ 64) }
{
    let bits = count.wrapping_mul(8);
    if big {
        bits.to_be_bytes()
    } else {
        bits.to_le_bytes()
    }
}

// A last block: the first 56 bytes of `block`, and the length.
#[tactic(auto, using(crate::proofs::Fill::put_length))]
pub fn last_block(block: [u8; 64], count: u64, big: bool) -> [u8; 64]
    ensures { result ≡ take 56 block ++ bytes (ordered big) 8 (8 * count % 2 ^ 64) }
{
    let mut out = block;
    out[56..].copy_from_slice(&length_bytes(count, big));
    out
}

// Words as bytes, each with its high byte first where `big`: as many of them as LEN bytes have room
// for, each whole, then zeros.
pub fn spelled<const N: usize, const LEN: usize>(words: [u32; N], big: bool) -> [u8; LEN]
    ensures { result ≡ filled LEN (flat_map (bytes (ordered big) 4) (take (LEN / 4) words.entry)) }
{
    let words = &words[..];
    let mut out = [0; LEN];
    let places = &mut out[..];
    for i in 0..N.min(LEN / 4) {
        places[4 * i..4 * i + 4].copy_from_slice(&word_bytes(words[i], big));
    }
    out
}
