// XOR addresses: `encode_xor_addr` and `decode_xor_addr` of stun.rs. RFC 8489 section 14.2, and 14.1 for the family. An IPv4
// address is a number of 32 bits, an IPv6 address two of 64 bits, the high one first.
#![tactic(auto)]

ghost use Rattle.std.specs.Prelude.{◌≡◌, ◌++◌};
ghost use Rattle.stun_address.specs.Source.{to_be, key, encoded, decode_xor_addr};

#[derive(Clone, Copy, PartialEq, Eq)]
pub enum Ip {
    V4(u32),
    V6(u64, u64),
}

#[derive(Clone, Copy, PartialEq, Eq)]
pub struct Address {
    pub ip: Ip,
    pub port: u16,
}

// The value of an attribute: the first `len` bytes, and zeros after them. `Text` of stun_text has the shape too: it stands in the client, and
// what C holds may have no parameter.
#[derive(Clone, Copy)]
pub struct Encoded {
    pub bytes: [u8; 20],
    pub len: usize,
}

// The key of an IPv6 address, as the two numbers that its 16 bytes write.
#[derive(Clone, Copy)]
struct Mask {
    high: u64,
    low: u64,
}

fn masks(id: [u8; 12]) -> Mask
    ensures { to_be 8 result.high ++ to_be 8 result.low ≡ key id }
{
    Mask {
        high: u64::from_be_bytes([0x21, 0x12, 0xA4, 0x42, id[0], id[1], id[2], id[3]]),
        low: u64::from_be_bytes([id[4], id[5], id[6], id[7], id[8], id[9], id[10], id[11]]),
    }
}

// The value of an XOR address attribute, in a message of the transaction `id`.
pub fn encode_xor_addr(addr: Address, id: &[u8; 12]) -> Encoded
    ensures { result ≡ encoded addr id.now }
{
    let mut bytes = [0; 20];
    bytes[2..4].copy_from_slice(&(addr.port ^ 0x2112).to_be_bytes());
    match addr.ip {
        Ip::V4(x) => {
            bytes[1] = 1;
            bytes[4..8].copy_from_slice(&(x ^ 0x2112A442).to_be_bytes());
            Encoded { bytes, len: 8 }
        }
        Ip::V6(high, low) => {
            let m = masks(*id);
            bytes[1] = 2;
            bytes[4..12].copy_from_slice(&(high ^ m.high).to_be_bytes());
            bytes[12..20].copy_from_slice(&(low ^ m.low).to_be_bytes());
            Encoded { bytes, len: 20 }
        }
    }
}

// The address that such a value holds.
#[tactic(auto, using(crate::proofs::Reading::decode_short, crate::proofs::Reading::decode_cut, crate::proofs::Reading::decode_family))]
pub fn decode_xor_addr(v: &[u8], id: &[u8; 12]) -> Option<Address>
    ensures { result ≡ decode_xor_addr v.now id.now }
{
    if v.len() < 8 {
        return None;
    }
    let port = u16::from_be_bytes([v[2], v[3]]) ^ 0x2112;
    let family = v[1];
    if family == 1 {
        let x = u32::from_be_bytes([v[4], v[5], v[6], v[7]]);
        return Some(Address {
            ip: Ip::V4(x ^ 0x2112A442),
            port,
        });
    }
    if family == 2 && v.len() >= 20 {
        let m = masks(*id);
        let high = u64::from_be_bytes([v[4], v[5], v[6], v[7], v[8], v[9], v[10], v[11]]);
        let low = u64::from_be_bytes([v[12], v[13], v[14], v[15], v[16], v[17], v[18], v[19]]);
        return Some(Address {
            ip: Ip::V6(high ^ m.high, low ^ m.low),
            port,
        });
    }
    None
}
