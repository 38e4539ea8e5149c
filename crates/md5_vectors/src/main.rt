// Prints the MD5 digests of published examples, of messages of each length from 0 to 260 in one
// part, and of the same in two parts and in four. The file `stdout` has what tools/make-vectors makes.
#![tactic(auto)]

use md5_digest::Md5;
use std::io;

// The digest of a message in parts.
fn in_parts(parts: &[&[u8]]) -> [u8; 16] {
    parts
        .iter()
        .fold(Md5::new(), |s, part| s.update(part))
        .finish()
}

fn print_example(rt: &impl Print, name: &[u8], m: &[u8]) -> io::Result<()> {
    vectors::print_named(rt, name, &md5_digest::digest(m))
}

// RFC 1321 appendix A.5.
fn print_examples(rt: &impl Print) -> io::Result<()> {
    print_example(rt, b"rfc1321-1", b"")?;
    print_example(rt, b"rfc1321-2", b"a")?;
    print_example(rt, b"rfc1321-3", b"abc")?;
    print_example(rt, b"rfc1321-4", b"message digest")?;
    print_example(rt, b"rfc1321-5", b"abcdefghijklmnopqrstuvwxyz")?;
    print_example(
        rt,
        b"rfc1321-6",
        b"ABCDEFGHIJKLMNOPQRSTUVWXYZabcdefghijklmnopqrstuvwxyz0123456789",
    )?;
    print_example(
        rt,
        b"rfc1321-7",
        b"12345678901234567890123456789012345678901234567890123456789012345678901234567890",
    )
}

fn main(rt: HostRuntime) -> io::Result<()> {
    print_examples(&rt)?;
    vectors::print_messages(&rt, md5_digest::digest, in_parts)
}
