// SHA-1 (RFC 3174), over a message that may come in parts: `Sha1::new`, then `update` with each part,
// then `finish`; `digest` for a message in one part. Blocks and the padding of section 4 are in the
// crate that the digests share; here is the step of section 6.1.
#![tactic(auto)]

ghost use Rattle.std.specs.Prelude.{◌≡◌, refl, ◌+◌, ◌*◌, ◌<◌, ◌≤◌, length, take, drop};
ghost use Rattle.digest.specs.Bytes.{number, big};
ghost use Rattle.digest.specs.Digest.{digest as digest_of};
ghost use Rattle.sha1_digest.specs.Rfc3174.{sha1, State, state, f as f_of, K as K_of, step as step_of, round as round_of, schedule as schedule_of, rounds as rounds_of, sums as sums_of};

use digest::{Compression, Hasher};

// A message that comes in parts.
pub type Sha1 = Hasher<Rfc3174, [u32; 5]>;

// SHA-1 as a digest of the family.
#[derive(Clone, Copy)]
pub struct Rfc3174;

impl Compression<[u32; 5]> for Rfc3174 {
    type Output = [u8; 20];

    ghost parameters = { sha1 };

    ghost words = { λ h. h };

    ghost bytes = { λ m. m };

    ghost blocks_of_64 = { refl };

    fn is_big() -> bool {
        true
    }

    fn start() -> [u32; 5] {
        [0x67452301, 0xefcdab89, 0x98badcfe, 0x10325476, 0xc3d2e1f0]
    }

    fn step(h: [u32; 5], block: &[u8; 64]) -> [u32; 5] {
        step(h, block)
    }

    fn result(h: [u32; 5]) -> [u8; 20] {
        digest::spelled(h, true)
    }
}

// The digest of a message in one part.
pub fn digest(m: &[u8]) -> [u8; 20]
    ensures { result ≡ digest_of sha1 m.now }
{
    Sha1::digest(m)
}

// Section 6.1: the words after one more block.
#[tactic(auto, unfolding(crate::specs::Rfc3174::step))]
fn step(h: [u32; 5], m: &[u8]) -> [u32; 5]
    requires { length m.now ≡ 64 }
    ensures { result ≡ step_of h m.now }
{
    let w = schedule(m);
    sums(h, rounds(h, &w))
}

// Section 6.1 e.
fn sums(h: [u32; 5], s: [u32; 5]) -> [u32; 5]
    ensures { result ≡ sums_of h (state s) }
{
    [
        h[0].wrapping_add(s[0]),
        h[1].wrapping_add(s[1]),
        h[2].wrapping_add(s[2]),
        h[3].wrapping_add(s[3]),
        h[4].wrapping_add(s[4]),
    ]
}

// Section 6.1 d, all eighty rounds, twenty by twenty, so that with T it is known when it is compiled
// which f and K are meant.
fn rounds(s: [u32; 5], w: &[u32; 80]) -> [u32; 5]
    ensures { state result ≡ rounds_of w.now 80 (state s) }
{
    let s = twenty::<0>(s, w);
    let s = twenty::<20>(s, w);
    let s = twenty::<40>(s, w);
    twenty::<60>(s, w)
}

// The rounds T to T + 19. `next`, since a call's result is not laid in an array that it was passed.
#[tactic(auto, using(crate::proofs::Turn::one_more))]
fn twenty<const T: usize>(s: [u32; 5], w: &[u32; 80]) -> [u32; 5]
    requires { T + 20 ≤ 80 }
    ensures { (h : State) → state s ≡ rounds_of w.now T h → state result ≡ rounds_of w.now (T + 20) h }
{
    let mut s = s;
    for t in T..T + 20 {
        let next = round(s, w, t);
        s = next;
    }
    s
}

// Section 6.1 a and b: the words W(0), .., W(79).
fn schedule(m: &[u8]) -> [u32; 80]
    requires { length m.now ≡ 64 }
    ensures { result ≡ schedule_of m.now }
{
    let mut w = [0u32; 80];
    for t in 0..16 {
        w[t] = word(m, 4 * t);
    }
    for t in 16..80 {
        w[t] = (w[t - 3] ^ w[t - 8] ^ w[t - 14] ^ w[t - 16]).rotate_left(1);
    }
    w
}

fn word(m: &[u8], at: usize) -> u32
    requires { at + 4 ≤ length m.now }
    ensures { result ≡ number big (take 4 (drop at m.now)) }
{
    digest::joined(m[at + 3], m[at + 2], m[at + 1], m[at])
}

// Section 6.1 d, the round t: TEMP = S^5(A) + f(t;B,C,D) + E + W(t) + K(t).
#[tactic(auto, unfolding(crate::specs::Rfc3174::round))]
fn round(s: [u32; 5], w: &[u32; 80], t: usize) -> [u32; 5]
    requires { t < 80 }
    ensures { state result ≡ round_of w.now t (state s) }
{
    let [a, b, c, d, e] = s;
    let temp = a
        .rotate_left(5)
        .wrapping_add(f(t, b, c, d))
        .wrapping_add(e)
        .wrapping_add(w[t])
        .wrapping_add(k(t));
    [temp, a, b.rotate_left(30), c, d]
}

// f(t;B,C,D) of section 5: choose and majority in one operation less than the RFC writes them with.
#[tactic(auto, unfolding(crate::specs::Rfc3174::f))]
fn f(t: usize, b: u32, c: u32, d: u32) -> u32
    ensures { result ≡ f_of t b c d }
{
    if t < 20 {
        return d ^ (b & (c ^ d));
    }
    if t < 40 {
        return b ^ c ^ d;
    }
    if t < 60 {
        return (b & c) | (d & (b | c));
    }
    b ^ c ^ d
}

// K(t) of section 5.
#[tactic(auto, unfolding(crate::specs::Rfc3174::K))]
fn k(t: usize) -> u32
    ensures { result ≡ K_of t }
{
    if t < 20 {
        return 0x5a827999;
    }
    if t < 40 {
        return 0x6ed9eba1;
    }
    if t < 60 {
        return 0x8f1bbcdc;
    }
    0xca62c1d6
}
