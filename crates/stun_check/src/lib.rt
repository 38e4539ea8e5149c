// The check of MESSAGE-INTEGRITY (`Message::verify` of stun.rs; RFC 8489 section 14.5), and the key
// of the long-term credential (`long_term_key`; section 9.2.2).
#![tactic(auto)]

ghost use Rattle.std.specs.Prelude.{◌≡◌, length};
ghost use Rattle.stun_check.specs.Source.{verified, long_term, same as «same_of», Placed};

use hmac::HmacSha1;
use md5_digest::Md5;

const MESSAGE_INTEGRITY: u16 = 0x0008;

// Does the message's first MESSAGE-INTEGRITY hold under this key? Header and rest are digested as
// they lie, and all 20 bytes are compared, whatever the first says.
pub fn verify(buf: &[u8], key: &[u8]) -> bool
    ensures { result ≡ verified buf.now key.now }
{
    match integrity(buf) {
        None => false,
        Some(p) => {
            if buf.len() - p < 24 {
                return false;
            }
            let n = ((p + 4) % 65536) as u16;
            let [high, low] = n.to_be_bytes();
            let head = [buf[0], buf[1], high, low];
            let mac = HmacSha1::new(key).update(&head).update(&buf[4..p]).finish();
            same(&mac, &buf[p + 4..p + 24])
        }
    }
}

// The key of username, realm and password, digested as they lie.
pub fn long_term_key(username: &[u8], realm: &[u8], password: &[u8]) -> [u8; 16]
    ensures { result ≡ long_term username.now realm.now password.now }
{
    let colon = [0x3a];
    let a = Md5::new().update(username).update(&colon);
    let b = a.update(realm).update(&colon);
    b.update(password).finish()
}

// The place of the first MESSAGE-INTEGRITY. The walk stops at the length field's end or the
// buffer's, and passes over values that run too far. A turn takes an attribute of any length, so the
// loop is no `for`.
fn integrity(buf: &[u8]) -> Option<usize>
    ensures { Placed buf.now result }
{
    if buf.len() < 24 {
        return None;
    }
    let stop = buf
        .len()
        .min(20 + usize::from(u16::from_be_bytes([buf[2], buf[3]])));
    let mut p = 20;
    while p + 4 <= stop {
        if u16::from_be_bytes([buf[p], buf[p + 1]]) == MESSAGE_INTEGRITY {
            return Some(p);
        }
        let len = usize::from(u16::from_be_bytes([buf[p + 2], buf[p + 3]]));
        p = p + 4 + len.div_ceil(4) * 4;
    }
    None
}

// Are the 20 bytes the same? The time does not depend on where they differ.
fn same(mac: &[u8], part: &[u8]) -> bool
    requires { (length mac.now ≡ 20) × (length part.now ≡ 20) }
    ensures { result ≡ «same_of» mac.now part.now }
{
    let mut differ = 0;
    for (a, b) in mac.iter().zip(part) {
        differ |= *a ^ *b;
    }
    differ == 0
}
