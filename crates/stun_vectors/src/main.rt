// Prints what the codec reads in the four test messages of RFC 5769: type and id, where attributes
// lie, the address, the texts, whether the digest and the checksum hold. Then, for each byte of
// each, whether the message with that byte changed is readable and its digest holds. The file
// `stdout` has what tools/make-vectors makes.
#![tactic(auto)]

mod messages;

use std::io;
use stun_address::{Address, Ip};
use stun_frame::classes::Class;

const ATTRIBUTES: [u16; 11] = [
    0x0006, 0x0008, 0x0009, 0x0014, 0x0015, 0x0020, 0x0024, 0x8022, 0x8028, 0x8029, 0x802A,
];

fn print(rt: &impl Print, s: &[u8]) -> io::Result<()> {
    rt.write_all(s)
}

fn print_number(rt: &impl Print, n: usize) -> io::Result<()> {
    print!(rt; "{n}")
}

fn print_type(rt: &impl Print, t: u16) -> io::Result<()> {
    print!(rt; "{t:04x}")
}

fn print_bit(rt: &impl Print, b: bool) -> io::Result<()> {
    if b {
        print(rt, b" 1")?;
    } else {
        print(rt, b" 0")?;
    }
    Ok(())
}

fn print_class(rt: &impl Print, typ: u16) -> io::Result<()> {
    match stun_frame::class(typ) {
        Class::Request => print(rt, b"class request\n")?,
        Class::Indication => print(rt, b"class indication\n")?,
        Class::Success => print(rt, b"class success\n")?,
        Class::Error => print(rt, b"class error\n")?,
    }
    Ok(())
}

fn print_header(rt: &impl Print, m: &[u8]) -> io::Result<()> {
    match stun_walk::decode(m) {
        None => print(rt, b"-\n"),
        Some(header) => {
            print_class(rt, header.typ)?;
            print(rt, b"type ")?;
            print_type(rt, header.typ)?;
            print(rt, b"\n")?;
            vectors::print_named(rt, b"id", &header.id)
        }
    }
}

// TYPE START LENGTH of the first attribute of a type, or TYPE -.
fn print_place(rt: &impl Print, m: &[u8], t: u16) -> io::Result<()> {
    print_type(rt, t)?;
    match stun_walk::get(m, t) {
        None => print(rt, b" -")?,
        Some(v) => {
            print(rt, b" ")?;
            print_number(rt, v.start)?;
            print(rt, b" ")?;
            print_number(rt, v.len)?;
        }
    }
    print(rt, b"\n")
}

fn print_places(rt: &impl Print, m: &[u8]) -> io::Result<()> {
    for t in ATTRIBUTES {
        print_place(rt, m, t)?;
    }
    Ok(())
}

// FAMILY ADDRESS PORT
fn print_address(rt: &impl Print, a: Address) -> io::Result<()> {
    let ip = a.ip;
    match ip {
        Ip::V4(x) => {
            print(rt, b"1 ")?;
            print!(rt; "{x:08x}")?;
        }
        Ip::V6(high, low) => {
            print(rt, b"2 ")?;
            print!(rt; "{high:016x}")?;
            print!(rt; "{low:016x}")?;
        }
    }
    print(rt, b" ")?;
    print_number(rt, a.port as usize)
}

fn print_mapped(rt: &impl Print, m: &[u8]) -> io::Result<()> {
    print(rt, b"mapped ")?;
    match stun_walk::xor_addr(m, 0x0020) {
        None => print(rt, b"-")?,
        Some(a) => print_address(rt, a)?,
    }
    print(rt, b"\n")
}

// text TYPE HEX of the first attribute of a type, or text TYPE -.
fn print_text(rt: &impl Print, m: &[u8], t: u16) -> io::Result<()> {
    print(rt, b"text ")?;
    print_type(rt, t)?;
    match stun_walk::get_str(m, t) {
        Ok(None) => print(rt, b" -\n"),
        Ok(Some(text)) => vectors::print_named(rt, b"", text.as_slice()),
        Err(_) => print(rt, b" too long\n"),
    }
}

// Is the value at `start` the CRC-32 of what stands before its attribute, XOR 0x5354554E?
fn fingerprint(m: &[u8], start: usize) -> bool {
    let n = m.len();
    if start < 4 {
        return false;
    }
    if n < start {
        return false;
    }
    if n - start < 4 {
        return false;
    }
    let value = digest::joined(m[start + 3], m[start + 2], m[start + 1], m[start]);
    value == crc32::digest(&m[0..start - 4]) ^ 0x5354554E
}

fn print_fingerprint(rt: &impl Print, m: &[u8]) -> io::Result<()> {
    print(rt, b"fingerprint")?;
    match stun_walk::get(m, 0x8028) {
        None => print(rt, b" -")?,
        Some(v) => print_bit(rt, fingerprint(m, v.start))?,
    }
    print(rt, b"\n")
}

fn print_read(rt: &impl Print, m: &[u8], key: &[u8]) -> io::Result<()> {
    print_header(rt, m)?;
    print_places(rt, m)?;
    print_mapped(rt, m)?;
    print_text(rt, m, 0x0006)?;
    print_text(rt, m, 0x0014)?;
    print_text(rt, m, 0x0015)?;
    print_text(rt, m, 0x8022)?;
    print(rt, b"integrity")?;
    print_bit(rt, stun_check::verify(m, key))?;
    print(rt, b"\n")?;
    print_fingerprint(rt, m)
}

// I READABLE INTEGRITY, for a message whose byte i is changed.
fn print_changed(rt: &impl Print, m: &[u8], key: &[u8], i: usize) -> io::Result<()> {
    print_number(rt, i)?;
    print_bit(rt, stun_walk::decode(m).is_some())?;
    print_bit(rt, stun_check::verify(m, key))?;
    print(rt, b"\n")
}

fn print_changes(rt: &impl Print, m: &mut [u8], key: &[u8]) -> io::Result<()> {
    let n = m.len();
    for i in 0..n {
        m[i] = m[i] ^ 1;
        print_changed(rt, m, key, i)?;
        m[i] = m[i] ^ 1;
    }
    Ok(())
}

fn print_message(rt: &impl Print, name: &[u8], m: &mut [u8], key: &[u8]) -> io::Result<()> {
    print(rt, name)?;
    print(rt, b"\n")?;
    print_read(rt, m, key)?;
    print_changes(rt, m, key)
}

fn main(rt: HostRuntime) -> io::Result<()> {
    let password = messages::PASSWORD;
    let mut request = messages::REQUEST;
    print_message(&rt, b"rfc5769-2.1", &mut request, &password)?;
    let mut ipv4 = messages::IPV4;
    print_message(&rt, b"rfc5769-2.2", &mut ipv4, &password)?;
    let mut ipv6 = messages::IPV6;
    print_message(&rt, b"rfc5769-2.3", &mut ipv6, &password)?;
    let mut long_term = messages::LONG_TERM;
    let key = stun_check::long_term_key(&messages::USERNAME, b"example.org", b"TheMatrIX");
    print_message(&rt, b"rfc5769-2.4", &mut long_term, &key)
}
