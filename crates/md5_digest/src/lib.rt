// MD5, RFC 1321: of a whole message (`digest`), or of one that comes in parts (`Md5`). Sections 3.1,
// 3.2 and 3.5, the padding and the output, are in the crate that the digests share; here is the step
// of section 3.4.
#![tactic(auto)]

ghost use Rattle.std.specs.Prelude.{◌≡◌, refl, ◌+◌, ◌*◌, ◌/◌, ◌%◌, ◌<◌, ◌≤◌, length, take, drop, slice_index};
ghost use Rattle.digest.specs.Bytes.{little, number};
ghost use Rattle.digest.specs.Digest.{digest as digest_of};
ghost use Rattle.md5_digest.specs.Rfc1321.{State, state, rounds, turn as turn_of, turns, words, step as step_of, md5};

use digest::{Compression, Hasher};

// A message that comes in parts.
pub type Md5 = Hasher<Rfc1321, [u32; 4]>;

// MD5 as a digest of the family.
#[derive(Clone, Copy)]
pub struct Rfc1321;

impl Compression<[u32; 4]> for Rfc1321 {
    type Output = [u8; 16];

    ghost parameters = { md5 };

    ghost words = { λ h. h };

    ghost bytes = { λ m. m };

    ghost blocks_of_64 = { refl };

    fn is_big() -> bool {
        false
    }

    fn start() -> [u32; 4] {
        [0x67452301, 0xefcdab89, 0x98badcfe, 0x10325476]
    }

    fn step(h: [u32; 4], block: &[u8; 64]) -> [u32; 4] {
        step(h, block)
    }

    fn result(h: [u32; 4]) -> [u8; 16] {
        digest::spelled(h, false)
    }
}

// T, section 3.4.
static TABLE: [u32; 64] = [
    0xd76aa478, 0xe8c7b756, 0x242070db, 0xc1bdceee, 0xf57c0faf, 0x4787c62a, 0xa8304613, 0xfd469501,
    0x698098d8, 0x8b44f7af, 0xffff5bb1, 0x895cd7be, 0x6b901122, 0xfd987193, 0xa679438e, 0x49b40821,
    0xf61e2562, 0xc040b340, 0x265e5a51, 0xe9b6c7aa, 0xd62f105d, 0x02441453, 0xd8a1e681, 0xe7d3fbc8,
    0x21e1cde6, 0xc33707d6, 0xf4d50d87, 0x455a14ed, 0xa9e3e905, 0xfcefa3f8, 0x676f02d9, 0x8d2a4c8a,
    0xfffa3942, 0x8771f681, 0x6d9d6122, 0xfde5380c, 0xa4beea44, 0x4bdecfa9, 0xf6bb4b60, 0xbebfbc70,
    0x289b7ec6, 0xeaa127fa, 0xd4ef3085, 0x04881d05, 0xd9d4d039, 0xe6db99e5, 0x1fa27cf8, 0xc4ac5665,
    0xf4292244, 0x432aff97, 0xab9423a7, 0xfc93a039, 0x655b59c3, 0x8f0ccc92, 0xffeff47d, 0x85845dd1,
    0x6fa87e4f, 0xfe2ce6e0, 0xa3014314, 0x4e0811a1, 0xf7537e82, 0xbd3af235, 0x2ad7d2bb, 0xeb86d391,
];

// The shifts of the four rounds, section 3.4.
static SHIFTS: [[u32; 4]; 4] = [
    [7, 12, 17, 22],
    [5, 9, 14, 20],
    [4, 11, 16, 23],
    [6, 10, 15, 21],
];

// The function of round n, F, G, H or I. F and G have fewer operations than section 3.4 writes.
fn mix(n: usize, x: u32, y: u32, z: u32) -> u32
    requires { n < 4 }
    ensures { result ≡ (rounds n).function x y z }
{
    if n == 0 {
        return z ^ (x & (y ^ z));
    }
    if n == 1 {
        return y ^ (z & (x ^ y));
    }
    if n == 2 {
        return x ^ y ^ z;
    }
    y ^ (x | !z)
}

// Which word operation i takes, in round n.
fn place(n: usize, i: usize) -> usize
    requires { (n < 4) × (i < 64) }
    ensures { (result ≡ (rounds n).word i) × (result < 16) }
{
    if n == 0 {
        return i % 16;
    }
    if n == 1 {
        return (5 * i + 1) % 16;
    }
    if n == 2 {
        return (3 * i + 5) % 16;
    }
    7 * i % 16
}

// The shift of operation i, in round n.
fn shift(n: usize, i: usize) -> u32
    requires { n < 4 }
    ensures { (result ≡ slice_index (rounds n).shifts (i % 4)) × (result < 32) }
{
    SHIFTS[n][i % 4]
}

// Operation i, in round n, which leaves the registers in the order in which the next one takes them.
fn turn(n: usize, i: usize, s: [u32; 4], x: &[u32; 16]) -> [u32; 4]
    requires { (i / 16 ≡ n) × (n < 4) }
    ensures { state result ≡ turn_of x.now i (state s) }
{
    let [a, b, c, d] = s;
    let sum = a
        .wrapping_add(mix(n, b, c, d))
        .wrapping_add(x[place(n, i)])
        .wrapping_add(TABLE[i]);
    [
        d,
        b.wrapping_add(digest::rotate_left(sum, shift(n, i))),
        b,
        c,
    ]
}

// Round N: sixteen operations. With N it is known when it is compiled which function is meant. `next`,
// since a call's result is not laid in an array that it was passed.
#[tactic(auto, using(crate::proofs::Turns::one_more))]
fn round<const N: usize>(s: [u32; 4], x: &[u32; 16]) -> [u32; 4]
    requires { N < 4 }
    ensures { (h : State) → state s ≡ turns x.now (16 * N) h → state result ≡ turns x.now (16 * N + 16) h }
{
    let mut s = s;
    for i in 16 * N..16 * N + 16 {
        let next = turn(N, i, s, x);
        s = next;
    }
    s
}

// A word of the block, low byte first.
fn word(m: &[u8], at: usize) -> u32
    requires { at + 4 ≤ length m.now }
    ensures { result ≡ number little (take 4 (drop at m.now)) }
{
    digest::joined(m[at], m[at + 1], m[at + 2], m[at + 3])
}

// The sixteen words of a block.
fn block_words(m: &[u8]) -> [u32; 16]
    requires { length m.now ≡ 64 }
    ensures { result ≡ words 16 m.now }
{
    let mut x = [0u32; 16];
    for i in 0..16 {
        x[i] = word(m, 4 * i);
    }
    x
}

// The sixty-four operations, round by round.
fn rounds(h: [u32; 4], x: &[u32; 16]) -> [u32; 4]
    ensures { state result ≡ turns x.now 64 (state h) }
{
    let s = round::<0>(h, x);
    let s = round::<1>(s, x);
    let s = round::<2>(s, x);
    round::<3>(s, x)
}

// The state after one more block.
fn step(h: [u32; 4], m: &[u8]) -> [u32; 4]
    requires { length m.now ≡ 64 }
    ensures { result ≡ step_of h m.now }
{
    let x = block_words(m);
    let s = rounds(h, &x);
    [
        s[0].wrapping_add(h[0]),
        s[1].wrapping_add(h[1]),
        s[2].wrapping_add(h[2]),
        s[3].wrapping_add(h[3]),
    ]
}

// The digest of a whole message.
pub fn digest(m: &[u8]) -> [u8; 16]
    ensures { result ≡ digest_of md5 m.now }
{
    Md5::digest(m)
}
