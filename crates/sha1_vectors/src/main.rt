// Prints the SHA-1 digests of published examples, of messages of each length from 0 to 260 in one
// part, and of the same in two parts and in four. The file `stdout` has what tools/make-vectors makes.
#![tactic(auto)]

use sha1_digest::Sha1;
use std::io;

// The digest of a message in parts.
fn in_parts(parts: &[&[u8]]) -> [u8; 20] {
    parts
        .iter()
        .fold(Sha1::new(), |s, part| s.update(part))
        .finish()
}

// The digest of as many parts as `times`, all the same.
fn repeated(part: &[u8], times: usize) -> [u8; 20] {
    (0..times).fold(Sha1::new(), |s, _| s.update(part)).finish()
}

fn print_example(rt: &impl Print, name: &[u8], m: &[u8]) -> io::Result<()> {
    vectors::print_named(rt, name, &sha1_digest::digest(m))
}

// RFC 3174 section 7.3, of which the first three are FIPS 180-1's too.
fn print_examples(rt: &impl Print) -> io::Result<()> {
    print_example(rt, b"rfc3174-1", b"abc")?;
    print_example(
        rt,
        b"rfc3174-2",
        b"abcdbcdecdefdefgefghfghighijhijkijkljklmklmnlmnomnopnopq",
    )?;
    vectors::print_named(rt, b"rfc3174-3", &repeated(&[b'a'; 1000], 1000))?;
    vectors::print_named(rt, b"rfc3174-4", &repeated(b"01234567", 80))
}

fn main(rt: HostRuntime) -> io::Result<()> {
    print_examples(&rt)?;
    vectors::print_messages(&rt, sha1_digest::digest, in_parts)
}
