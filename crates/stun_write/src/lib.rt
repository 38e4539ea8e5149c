// Messages written into lent room: `push_attr` and `Message::encode` of stun.rs. RFC 8489 sections 5 (header), 14 (attributes),
// 14.5 (MESSAGE-INTEGRITY) and 14.7 (FINGERPRINT).
#![tactic(auto)]

ghost use Rattle.std.specs.Prelude.{◌≡◌, ◌++◌, ◌+◌, ◌-◌, ◌≤◌, ◌<◌, length, take, drop};
ghost use Rattle.stun_frame.specs.Source.{room_after};
ghost use Rattle.stun_write.specs.Source.{push_attr as «attr_bytes», attr_size, header, set_length as «length-set», key_of, with_integrity, with_fingerprint, integrity_size, fingerprint_size, encoded, sealed_size, fitted, fitted_attr};

use stun_frame::Unwritten;
use stun_frame::names::{ATTR_FINGERPRINT, ATTR_MESSAGE_INTEGRITY};

// An attribute at the place `at`: type, length, value, zeros to a multiple of four. The answer is the place after it.
pub fn push_attr(out: &mut [u8], at: usize, typ: u16, value: &[u8]) -> Result<usize, Unwritten>
    ensures { (result ≡ fitted_attr value.now (at + attr_size (length value.now)) (length out.old))
        × (out.new ≡ room_after result (take at out.old ++ «attr_bytes» typ value.now) out.old) }
{
    let n = value.len();
    if 65535 < n {
        return Err(Unwritten::TooLong);
    }
    let size = 4 + n + (4 - n % 4) % 4;
    if 65555 < at {
        return Err(Unwritten::TooLong);
    }
    if 65555 < at + size {
        return Err(Unwritten::TooLong);
    }
    if out.len() < at + size {
        return Err(Unwritten::NoRoom);
    }
    attr(out, at, typ, value);
    Ok(at + size)
}

// Header, integrity and FINGERPRINT around the attributes that stand in out[20..end]. The answer is the message's size.
pub fn seal(
    out: &mut [u8],
    end: usize,
    typ: u16,
    id: [u8; 12],
    key: &[u8],
    signed: bool,
    fingerprint: bool,
) -> Result<usize, Unwritten>
    ensures { (result ≡ fitted (sealed_size (end - 20) signed fingerprint) (length out.old))
        × (out.new ≡ room_after result (encoded typ id (take (end - 20) (drop 20 out.old)) (key_of signed key.now) fingerprint) out.old) }
{
    let at = end.max(20);
    let more = added(signed, fingerprint);
    if 65555 - more < at {
        return Err(Unwritten::TooLong);
    }
    if out.len() < at + more {
        return Err(Unwritten::NoRoom);
    }
    begin(out, typ, id);
    let a = sign(out, at, key, signed);
    let b = mark(out, a, fingerprint);
    set_length(out, b - 20);
    Ok(b)
}

// The same for attributes that lie elsewhere.
pub fn encode(
    out: &mut [u8],
    typ: u16,
    id: [u8; 12],
    body: &[u8],
    key: &[u8],
    signed: bool,
    fingerprint: bool,
) -> Result<usize, Unwritten>
    ensures { (result ≡ fitted (sealed_size (length body.now) signed fingerprint) (length out.old))
        × (out.new ≡ room_after result (encoded typ id body.now (key_of signed key.now) fingerprint) out.old) }
{
    let n = body.len();
    let more = added(signed, fingerprint);
    if 65535 - more < n {
        return Err(Unwritten::TooLong);
    }
    if out.len() < 20 + n + more {
        return Err(Unwritten::NoRoom);
    }
    out[20..20 + n].copy_from_slice(body);
    seal(out, 20 + n, typ, id, key, signed, fingerprint)
}

// The bytes that integrity and FINGERPRINT add.
fn added(signed: bool, fingerprint: bool) -> usize
    ensures { (result ≡ integrity_size signed + fingerprint_size fingerprint) × (result ≤ 32) }
{
    24 * usize::from(signed) + 8 * usize::from(fingerprint)
}

// The length field.
fn set_length(out: &mut [u8], n: usize)
    requires { (n < 65536) × (4 ≤ length out.old) }
    ensures { out.new ≡ «length-set» n out.old }
{
    out[2..4].copy_from_slice(&(n as u16).to_be_bytes());
}

// The header, with a length of 0.
fn begin(out: &mut [u8], typ: u16, id: [u8; 12])
    requires { 20 ≤ length out.old }
    ensures { out.new ≡ header typ 0 id ++ drop 20 out.old }
{
    out[0..2].copy_from_slice(&typ.to_be_bytes());
    out[2..8].copy_from_slice(&[0, 0, 0x21, 0x12, 0xA4, 0x42]);
    out[8..20].copy_from_slice(&id);
}

// An attribute, where there is room for it. ChannelData is laid out alike, but `encode_channel_data` tests the room again and
// answers, and that answer would have to be thrown away here.
fn attr(out: &mut [u8], at: usize, typ: u16, value: &[u8])
    requires { (length value.now ≤ 65535) × (at + attr_size (length value.now) ≤ length out.old) }
    ensures { out.new ≡ take at out.old ++ «attr_bytes» typ value.now ++ drop (at + attr_size (length value.now)) out.old }
{
    let n = value.len();
    let end = at + 4 + n;
    out[at..at + 2].copy_from_slice(&typ.to_be_bytes());
    out[at + 2..at + 4].copy_from_slice(&(n as u16).to_be_bytes());
    out[at + 4..end].copy_from_slice(value);
    out[end..end + (4 - n % 4) % 4].fill(0);
}

// MESSAGE-INTEGRITY behind the message in out[0..at], where it is asked for: the length field counts it, then the code is taken.
fn sign(out: &mut [u8], at: usize, key: &[u8], signed: bool) -> usize
    requires { (20 ≤ at) × (at + integrity_size signed ≤ 65555) × (at + integrity_size signed ≤ length out.old) }
    ensures { (result ≡ at + integrity_size signed) × (out.new ≡ with_integrity (key_of signed key.now) (take at out.old) ++ drop (at + integrity_size signed) out.old) }
{
    if signed {
        set_length(out, at - 20 + 24);
        let mac = hmac::digest(key, &out[0..at]);
        attr(out, at, ATTR_MESSAGE_INTEGRITY, &mac);
        return at + 24;
    }
    at
}

// FINGERPRINT behind the message in out[0..at], where it is asked for.
fn mark(out: &mut [u8], at: usize, fingerprint: bool) -> usize
    requires { (20 ≤ at) × (at + fingerprint_size fingerprint ≤ 65555) × (at + fingerprint_size fingerprint ≤ length out.old) }
    ensures { (result ≡ at + fingerprint_size fingerprint) × (out.new ≡ with_fingerprint fingerprint (take at out.old) ++ drop (at + fingerprint_size fingerprint) out.old) }
{
    if fingerprint {
        set_length(out, at - 20 + 8);
        let crc = digest::word_bytes(crc32::digest(&out[0..at]) ^ 0x5354_554E, true);
        attr(out, at, ATTR_FINGERPRINT, &crc);
        return at + 8;
    }
    at
}
