// Reading a message: `Message::decode`, `get`, `error_code`, `lifetime`, `xor_addr` and `get_str` of
// stun.rs (RFC 8489 sections 5 and 14). One pass over the message for each.
#![tactic(auto)]

ghost use Rattle.std.specs.Prelude.{◌≡◌, cond, ◌≤◌, length, take, drop};
ghost use Rattle.std.specs.Option.{option_or};
ghost use Rattle.stun_walk.specs.Source.{decoded, get_of, error_code_of, lifetime_of, xor_addr_of, get_str_of};
ghost use Rattle.stun_walk.specs.Scan.{scanned};

use stun_address::Address;
use stun_frame::names::{ATTR_ERROR_CODE, ATTR_LIFETIME};
use stun_text::{Text, TooLong};

// Where the value of an attribute lies: `len` bytes from `start` on.
#[derive(Clone, Copy, PartialEq, Eq)]
pub struct Value {
    pub start: usize,
    pub len: usize,
}

// Type and id of a readable message.
#[derive(Clone, Copy, PartialEq, Eq)]
pub struct Header {
    pub typ: u16,
    pub id: [u8; 12],
}

// The first attribute of a type, in a message that is readable.
#[tactic(auto, using(crate::proofs::First::scanned_none, crate::proofs::First::scanned_some))]
pub fn get(buf: &[u8], t: u16) -> Option<Value>
    ensures { result ≡ get_of buf.now t }
{
    scan(buf, t)?
}

// Type and id, where the message is readable.
#[tactic(auto, using(crate::proofs::First::scanned_none, crate::proofs::First::scanned_some, crate::proofs::First::readable_long), unfolding(crate::specs::Source::decoded))]
pub fn decode(buf: &[u8]) -> Option<Header>
    ensures { result ≡ decoded buf.now }
{
    scan(buf, 0)?;
    Some(Header {
        typ: u16::from_be_bytes([buf[0], buf[1]]),
        id: id_of(buf),
    })
}

// The code of the first ERROR-CODE: class and number, whatever they are.
#[tactic(auto, using(crate::proofs::First::get_inside), unfolding(crate::specs::Source::error_code_of))]
pub fn error_code(buf: &[u8]) -> Option<u16>
    ensures { result ≡ error_code_of buf.now }
{
    let v = get(buf, ATTR_ERROR_CODE)?;
    if v.len < 4 {
        return None;
    }
    let class = buf[v.start + 2] % 8;
    Some(u16::from(class) * 100 + u16::from(buf[v.start + 3]))
}

// The first LIFETIME's first four bytes.
#[tactic(auto, using(crate::proofs::First::get_inside), unfolding(crate::specs::Source::lifetime_of))]
pub fn lifetime(buf: &[u8]) -> Option<u32>
    ensures { result ≡ lifetime_of buf.now }
{
    let v = get(buf, ATTR_LIFETIME)?;
    if v.len < 4 {
        return None;
    }
    let at = v.start;
    Some(u32::from_be_bytes([buf[at], buf[at + 1], buf[at + 2], buf[at + 3]]))
}

// The address in the first attribute of a type.
#[tactic(auto, using(crate::proofs::First::get_inside), unfolding(crate::specs::Source::xor_addr_of))]
pub fn xor_addr(buf: &[u8], t: u16) -> Option<Address>
    ensures { result ≡ xor_addr_of buf.now t }
{
    let v = get(buf, t)?;
    let id = id_of(buf);
    stun_address::decode_xor_addr(&buf[v.start..v.start + v.len], &id)
}

// The text of the first attribute of a type, each ill-formed part replaced.
#[tactic(auto, using(crate::proofs::First::get_inside, crate::proofs::Values::err_is), unfolding(crate::specs::Source::get_str_of))]
pub fn get_str(buf: &[u8], t: u16) -> Result<Option<Text>, TooLong>
    ensures { result ≡ get_str_of buf.now t }
{
    match get(buf, t) {
        None => Ok(None),
        Some(v) => {
            let text = stun_text::lossy(&buf[v.start..v.start + v.len])?;
            Ok(Some(text))
        }
    }
}

// The transaction id.
fn id_of(buf: &[u8]) -> [u8; 12]
    requires { 20 ≤ length buf.now }
    ensures { result ≡ take 12 (drop 8 buf.now) }
{
    let mut id = [0; 12];
    id.copy_from_slice(&buf[8..20]);
    id
}

// The first attribute of a type, of a message that is readable. A value may pass the length field's end, and not the buffer's. A turn takes an
// attribute of any length, so the loop is no `for`.
#[tactic(auto, using(crate::proofs::Walk::past_here, crate::proofs::Walk::past_end, crate::proofs::Walk::stun_long, crate::proofs::Walk::not_stun, crate::proofs::Walk::cut_short, crate::proofs::Walk::left_start))]
fn scan(buf: &[u8], t: u16) -> Option<Option<Value>>
    ensures { result ≡ scanned buf.now t }
{
    if !stun_frame::is_stun(buf) {
        return None;
    }
    let end = 20 + usize::from(u16::from_be_bytes([buf[2], buf[3]]));
    if buf.len() < end {
        return None;
    }
    let mut hit = None;
    let mut p = 20;
    while p + 4 <= end {
        let len = usize::from(u16::from_be_bytes([buf[p + 2], buf[p + 3]]));
        if buf.len() - (p + 4) < len {
            return None;
        }
        let typ = u16::from_be_bytes([buf[p], buf[p + 1]]);
        hit = keep(hit, typ == t, Value { start: p + 4, len });
        p = p + 4 + len.div_ceil(4) * 4;
    }
    Some(hit)
}

// What was hit before, or else this one, where its type is asked for.
fn keep(hit: Option<Value>, asked: bool, here: Value) -> Option<Value>
    ensures { result ≡ option_or hit (cond asked (Some here) None) }
{
    if asked {
        return hit.or(Some(here));
    }
    hit
}
