// Prints the CRC-32 of a published example, of messages of each length from 0 to 260 in one part,
// and of the same in two parts and in four. The file `stdout` has what tools/make-vectors makes.
#![tactic(auto)]

use std::io;

// The CRC-32 of a message, as it is printed.
fn whole(m: &[u8]) -> [u8; 4] {
    crc32::digest(m).to_be_bytes()
}

// The same of a message in parts.
fn in_parts(parts: &[&[u8]]) -> [u8; 4] {
    let c = parts
        .iter()
        .fold(crc32::start(), |c, part| crc32::update(c, part));
    crc32::finish(c).to_be_bytes()
}

fn main(rt: HostRuntime) -> io::Result<()> {
    vectors::print_named(&rt, b"check", &whole(b"123456789"))?;
    vectors::print_messages(&rt, whole, in_parts)
}
