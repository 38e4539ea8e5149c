// The numbers of message types and attributes, as stun.rs names them (RFC 8489 sections 14 and 18, RFC 8656 sections 17 and 18).
pub const BINDING_REQUEST: u16 = 0x0001;

pub const BINDING_SUCCESS: u16 = 0x0101;

pub const ALLOCATE_REQUEST: u16 = 0x0003;

pub const REFRESH_REQUEST: u16 = 0x0004;

pub const SEND_INDICATION: u16 = 0x0016;

pub const DATA_INDICATION: u16 = 0x0017;

pub const CREATE_PERMISSION_REQUEST: u16 = 0x0008;

pub const CHANNEL_BIND_REQUEST: u16 = 0x0009;

pub const ATTR_USERNAME: u16 = 0x0006;

pub const ATTR_MESSAGE_INTEGRITY: u16 = 0x0008;

pub const ATTR_ERROR_CODE: u16 = 0x0009;

pub const ATTR_CHANNEL_NUMBER: u16 = 0x000C;

pub const ATTR_LIFETIME: u16 = 0x000D;

pub const ATTR_XOR_PEER_ADDRESS: u16 = 0x0012;

pub const ATTR_DATA: u16 = 0x0013;

pub const ATTR_REALM: u16 = 0x0014;

pub const ATTR_NONCE: u16 = 0x0015;

pub const ATTR_XOR_RELAYED_ADDRESS: u16 = 0x0016;

pub const ATTR_REQUESTED_TRANSPORT: u16 = 0x0019;

pub const ATTR_XOR_MAPPED_ADDRESS: u16 = 0x0020;

pub const ATTR_SOFTWARE: u16 = 0x8022;

pub const ATTR_FINGERPRINT: u16 = 0x8028;
