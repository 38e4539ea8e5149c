// The four classes of a STUN message (RFC 8489 section 5, `Class` of stun.rs). They stand apart from the function `class`: a
// module has no two items whose names differ in case alone.

#[derive(Clone, Copy, PartialEq, Eq)]
pub enum Class {
    Request,
    Indication,
    Success,
    Error,
}
