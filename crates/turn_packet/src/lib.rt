// One request of the client written into the lent output: tag 0x01, two-byte length, then the message as turn.rs's `encode` gives it.
// RFC 8656 sections 7.1 (Allocate), 8.1 (Refresh), 10.1 (CreatePermission), 12.1 (ChannelBind); RFC 8489 section 9.2.3 (credentials).
#![tactic(auto)]

ghost use Rattle.std.specs.Prelude.{◌≡◌, Ok, Err, cond, [], ◌∷◌, ◌++◌, ◌+◌, ◌≤◌, min, length, take, drop, leb};
ghost use Rattle.stun_frame.specs.declared.Unwritten.TheVariants.{NoRoom};
ghost use Rattle.stun_frame.specs.Source.{room_after};
ghost use Rattle.stun_address.specs.Source.{encode_xor_addr};
ghost use Rattle.stun_write.specs.Source.{push_attr, attr_size, attributes};
ghost use Rattle.turn_state.specs.Number.{framed};
ghost use Rattle.turn_state.specs.View.{type_of as «type_in», attrs_of, text_in};
ghost use Rattle.turn_packet.specs.Source.{packet_of, packet_size as «packet_bytes», text_size as «text_bytes», address_size as «address_bytes», own_size as «own_bytes», auth_size as «auth_bytes», auth_of};

use stun_address::{Address, Ip};
use stun_frame::Unwritten;
use stun_frame::names::{
    ALLOCATE_REQUEST, ATTR_CHANNEL_NUMBER, ATTR_LIFETIME, ATTR_NONCE, ATTR_REALM,
    ATTR_REQUESTED_TRANSPORT, ATTR_SOFTWARE, ATTR_USERNAME, ATTR_XOR_PEER_ADDRESS,
    CHANNEL_BIND_REQUEST, CREATE_PERMISSION_REQUEST, REFRESH_REQUEST,
};
use stun_text::Text;
use turn_state::{Asked, Credentials, Kind};

// How many bytes the message has.
pub fn packet_size(c: Credentials, a: Asked) -> usize
    ensures { (result ≡ «packet_bytes» c a) × (result ≤ 3000) }
{
    let bare = 20 + own_size(Kind::from(a)) + auth_size(c) + 8;
    if c.has_key { bare + 24 } else { bare }
}

// The packet at the place `at`. The answer is the place after it; where it does not fit nothing is written.
pub fn write_packet(
    out: &mut [u8],
    at: usize,
    c: Credentials,
    a: Asked,
    id: [u8; 12],
    under: [u8; 12],
) -> Result<usize, Unwritten>
    ensures { (result ≡ cond (leb (at + 3 + «packet_bytes» c a) (length out.old)) (Ok (at + 3 + «packet_bytes» c a)) (Err NoRoom))
        × (out.new ≡ room_after result (take at out.old ++ framed (packet_of c a id under ∷ [])) out.old) }
{
    let size = packet_size(c, a);
    if out.len() < at {
        return Err(Unwritten::NoRoom);
    }
    if out.len() - at < 3 + size {
        return Err(Unwritten::NoRoom);
    }
    let start = at + 3;
    let size = message(&mut out[start..], c, a, id, under)?;
    out[at] = 1;
    out[at + 1] = (size / 256) as u8;
    out[at + 2] = (size % 256) as u8;
    Ok(start + size)
}

// The message in front of the room.
fn message(
    out: &mut [u8],
    c: Credentials,
    a: Asked,
    id: [u8; 12],
    under: [u8; 12],
) -> Result<usize, Unwritten>
    requires { «packet_bytes» c a ≤ length out.old }
    ensures { (result ≡ Ok («packet_bytes» c a)) × (out.new ≡ packet_of c a id under ++ drop («packet_bytes» c a) out.old) }
{
    let kind = Kind::from(a);
    let b = own(out, kind, under);
    let e = auth(out, b, c);
    stun_write::seal(out, e, type_of(kind), id, &c.key, c.has_key, true)
}

fn type_of(kind: Kind) -> u16
    ensures { result ≡ «type_in» kind }
{
    match kind {
        Kind::Allocate => ALLOCATE_REQUEST,
        Kind::Refresh(_) => REFRESH_REQUEST,
        Kind::Permission(_) => CREATE_PERMISSION_REQUEST,
        Kind::ChannelBind(_, _) => CHANNEL_BIND_REQUEST,
    }
}

// The attributes of a kind, behind the header's place.
fn own(out: &mut [u8], kind: Kind, under: [u8; 12]) -> usize
    requires { 20 + «own_bytes» kind ≤ length out.old }
    ensures { (result ≡ 20 + «own_bytes» kind) × (out.new ≡ take 20 out.old ++ attributes (attrs_of kind under) ++ drop (20 + «own_bytes» kind) out.old) }
{
    match kind {
        Kind::Allocate => {
            let transport = [17, 0, 0, 0];
            let b = attr(out, 20, ATTR_REQUESTED_TRANSPORT, &transport);
            attr(out, b, ATTR_SOFTWARE, b"tauri-plugin-webrtc")
        }
        Kind::Refresh(lifetime) => { attr(out, 20, ATTR_LIFETIME, &lifetime.to_be_bytes()) }
        Kind::Permission(ip) => { peer(out, 20, Address { ip, port: 0 }, under) }
        Kind::ChannelBind(to, number) => {
            let value = [(number / 256) as u8, (number % 256) as u8, 0, 0];
            let b = attr(out, 20, ATTR_CHANNEL_NUMBER, &value);
            peer(out, b, to, under)
        }
    }
}

// XOR-PEER-ADDRESS.
fn peer(out: &mut [u8], at: usize, to: Address, under: [u8; 12]) -> usize
    requires { (at ≤ 3000) × (at + «address_bytes» to.ip ≤ length out.old) }
    ensures { (result ≡ at + «address_bytes» to.ip) × (out.new ≡ take at out.old ++ push_attr 0x0012 (encode_xor_addr to under) ++ drop (at + «address_bytes» to.ip) out.old) }
{
    let e = stun_address::encode_xor_addr(to, &under);
    let bytes = e.bytes;
    let n = e.len;
    attr(out, at, ATTR_XOR_PEER_ADDRESS, &bytes[0..n])
}

// USERNAME, REALM and NONCE, where both realm and nonce are held.
fn auth(out: &mut [u8], at: usize, c: Credentials) -> usize
    requires { (at ≤ 100) × (at + «auth_bytes» c ≤ length out.old) }
    ensures { (result ≡ at + «auth_bytes» c) × (out.new ≡ take at out.old ++ attributes (auth_of c) ++ drop (at + «auth_bytes» c) out.old) }
{
    let with_realm = c.has_realm;
    let with_nonce = c.has_nonce;
    if with_realm {
        if with_nonce {
            let username = c.username;
            let realm = c.realm;
            let nonce = c.nonce;
            let a = text(out, at, ATTR_USERNAME, username);
            let b = text(out, a, ATTR_REALM, realm);
            return text(out, b, ATTR_NONCE, nonce);
        }
        return at;
    }
    at
}

// A text as an attribute.
fn text(out: &mut [u8], at: usize, typ: u16, t: Text) -> usize
    requires { (at ≤ 3000) × (at + «text_bytes» t ≤ length out.old) }
    ensures { (result ≡ at + «text_bytes» t) × (out.new ≡ take at out.old ++ push_attr typ (text_in t) ++ drop (at + «text_bytes» t) out.old) }
{
    attr(out, at, typ, t.as_slice())
}

// An attribute, where there is room for it. The answer is the place after it.
fn attr(out: &mut [u8], at: usize, typ: u16, value: &[u8]) -> usize
    requires { (at ≤ 3000) × (length value.now ≤ 763) × (at + attr_size (length value.now) ≤ length out.old) }
    ensures { (result ≡ at + attr_size (length value.now)) × (out.new ≡ take at out.old ++ push_attr typ value.now ++ drop (at + attr_size (length value.now)) out.old) }
{
    stun_write::push_attr(out, at, typ, value).unwrap()
}

// How many bytes a text has as an attribute, an address, the attributes of a kind, and the credentials.
fn text_size(t: Text) -> usize
    ensures { (result ≡ «text_bytes» t) × (result ≤ 768) }
{
    let n = t.as_slice().len();
    4 + n + (4 - n % 4) % 4
}

fn address_size(ip: Ip) -> usize
    ensures { (result ≡ «address_bytes» ip) × (result ≤ 24) }
{
    match ip {
        Ip::V4(_) => 12,
        Ip::V6(_, _) => 24,
    }
}

fn own_size(kind: Kind) -> usize
    ensures { (result ≡ «own_bytes» kind) × (result ≤ 32) }
{
    match kind {
        Kind::Allocate => 8 + 24,
        Kind::Refresh(_) => 8,
        Kind::Permission(ip) => address_size(ip),
        Kind::ChannelBind(to, _) => { 8 + address_size(to.ip) }
    }
}

fn auth_size(c: Credentials) -> usize
    ensures { (result ≡ «auth_bytes» c) × (result ≤ 2304) }
{
    if c.has_realm {
        if c.has_nonce {
            let username = c.username;
            let realm = c.realm;
            let nonce = c.nonce;
            return text_size(username) + text_size(realm) + text_size(nonce);
        }
        return 0;
    }
    0
}
