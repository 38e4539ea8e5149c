// Prints the HMAC-SHA-1 of published examples; then under keys of five lengths that of messages of
// each length from 0 to 260 in one part, and under one of the keys of the same in two parts and in
// four. The file `stdout` has what tools/make-vectors makes.
#![tactic(auto)]

ghost use Rattle.std.specs.Prelude.{◌≤◌};

use hmac::HmacSha1;
use std::io;

// The code of a text in parts.
fn in_parts(key: &[u8], parts: &[&[u8]]) -> [u8; 20] {
    parts
        .iter()
        .fold(HmacSha1::new(key), |s, part| s.update(part))
        .finish()
}

fn print_example(rt: &impl Print, name: &[u8], key: &[u8], m: &[u8]) -> io::Result<()> {
    vectors::print_named(rt, name, &hmac::digest(key, m))
}

// The bytes 1, 2, .., 25.
fn counted() -> [u8; 25] {
    let mut key = [0; 25];
    vectors::fill(&mut key, 1, 1);
    key
}

// RFC 2202 section 3.
fn print_examples(rt: &impl Print) -> io::Result<()> {
    print_example(rt, b"rfc2202-1", &[0x0b; 20], b"Hi There")?;
    print_example(rt, b"rfc2202-2", b"Jefe", b"what do ya want for nothing?")?;
    print_example(rt, b"rfc2202-3", &[0xaa; 20], &[0xdd; 50])?;
    print_example(rt, b"rfc2202-4", &counted(), &[0xcd; 50])?;
    print_example(rt, b"rfc2202-5", &[0x0c; 20], b"Test With Truncation")?;
    print_example(
        rt,
        b"rfc2202-6",
        &[0xaa; 80],
        b"Test Using Larger Than Block-Size Key - Hash Key First",
    )?;
    print_example(
        rt,
        b"rfc2202-7",
        &[0xaa; 80],
        b"Test Using Larger Than Block-Size Key and Larger Than One Block-Size Data",
    )
}

// The lines of the messages of each length from 0 to 260, under the first k bytes of the key.
fn print_messages(rt: &impl Print, k: usize) -> io::Result<()>
    requires { k ≤ 131 }
{
    let key = vectors::key();
    let key = &key[..k];
    let m = vectors::message();
    println!(rt; "key {k}")?;
    for n in 0..=m.len() {
        let m = &m[..n];
        vectors::print_whole(rt, n, &hmac::digest(key, m))?;
        if k == 20 {
            vectors::print_parts(rt, m, &|parts: &[&[u8]]| in_parts(key, parts))?;
        }
    }
    Ok(())
}

fn main(rt: HostRuntime) -> io::Result<()> {
    print_examples(&rt)?;
    for k in [0, 20, 64, 65, 131] {
        print_messages(&rt, k)?;
    }
    Ok(())
}
