// Digests, for counting what they cost: `digest_bench KERNEL UNITS` does so many units of work, and
// then one more, whose digest it prints. Each unit changes the message of the next.
#![tactic(auto)]

use std::convert::AsSlice;
use std::io;

// The units of the kernel of that name, each with the last one's first byte at the start of its
// message of 65,536 bytes.
fn run<D: AsSlice<u8> + Drop, F: Fn(&[u8]) -> D>(
    rt: &impl Print,
    name: &[u8],
    units: u64,
    digest: F,
) -> io::Result<()>
    requires { F.IsAlwaysCallable digest }
{
    let mut m = [0; 65536];
    vectors::fill(&mut m, 3, 7);
    for _ in 0..units {
        let d = digest(&m);
        m[0] = d.as_slice().first().map_or(0, |b| *b);
    }
    vectors::print_named(rt, name, digest(&m).as_slice())
}

// An HMAC-SHA-1 of 100 bytes of the message under a key of 16.
fn hmac100(m: &[u8]) -> [u8; 20] {
    let (key, text) = m.split_at(m.len().min(16));
    hmac::digest(key, &text[..text.len().min(100)])
}

// The kernel of that name; nothing for any other name, as `none`.
fn run_named(rt: &impl Print, name: &[u8], units: u64) -> io::Result<()> {
    match name {
        b"sha1" => run(rt, b"sha1", units, sha1_digest::digest),
        b"md5" => run(rt, b"md5", units, md5_digest::digest),
        b"crc32" => run(rt, b"crc32", units, |m| crc32::digest(m).to_be_bytes()),
        b"hmac100" => run(rt, b"hmac100", units, hmac100),
        _ => Ok(()),
    }
}

// The kernel that the first argument names, or each of them for `all`, with as many units as the
// second says.
fn main(rt: HostRuntime) -> io::Result<()> {
    let mut first = [0; 4096];
    let mut second = [0; 4096];
    let name = vectors::argument(&rt, 1, &mut first);
    let units = vectors::number(vectors::argument(&rt, 2, &mut second));
    match name {
        b"all" => {
            run_named(&rt, b"sha1", units)?;
            run_named(&rt, b"md5", units)?;
            run_named(&rt, b"crc32", units)?;
            run_named(&rt, b"hmac100", units)
        }
        _ => run_named(&rt, name, units),
    }
}
