// Text as a STUN message carries it, UTF-8 (the Unicode Standard, section 3.9): whether it is
// well-formed, and the text with U+FFFD for each maximal ill-formed subpart.
#![tactic(auto)]

ghost use Rattle.std.specs.Prelude.{◌≡◌, ◌<◌, length, take, drop};
ghost use Rattle.stun_text.specs.Utf8.{agree, well_formed};
ghost use Rattle.stun_text.specs.Lossy.{lossy_of};
ghost use Rattle.stun_text.specs.Following.{following, followed, cut, Leads};

// The first `len` bytes; the room after them is zero. There is no heap, and the client that C holds has four of these.
#[repr(C)]
#[derive(Clone, Copy)]
pub struct Text {
    pub bytes: [u8; 763],
    pub len: usize,
}

impl Text {
    // The bytes of the text. A length above the room reads as the room.
    pub fn as_slice(&self) -> &[u8]
        ensures { result.now ≡ take self.now.len self.now.bytes }
    {
        let len = self.len.min(763);
        &self.bytes[0..len]
    }
}

// The replaced text is longer than the room.
#[derive(Clone, Copy, PartialEq, Eq)]
pub struct TooLong;

// What a first byte asks of the bytes after it: how many there are, and the range of the second
// byte, from and to.
#[derive(Clone, Copy)]
struct Row(usize, u8, u8);

// The text with U+FFFD for each maximal ill-formed subpart. Each turn takes a part of one to four bytes, so the loop is no `for`.
#[tactic(auto, using(crate::proofs::Room::mark_next, crate::proofs::Room::over, crate::proofs::Cut::sequence_bounds, crate::proofs::Cut::subpart_bounds))]
pub fn lossy(s: &[u8]) -> Result<Text, TooLong>
    ensures { result ≡ lossy_of s.now }
{
    let mut bytes = [0u8; 763];
    let mut len = 0;
    let mut i = 0;
    while i < s.len() {
        match part_at(s, i) {
            Ok(n) => {
                if 763 - len < n {
                    return Err(TooLong);
                }
                bytes[len..len + n].copy_from_slice(&s[i..i + n]);
                len += n;
                i += n;
            }
            Err(n) => {
                if 763 - len < 3 {
                    return Err(TooLong);
                }
                bytes[len..len + 3].copy_from_slice(&[0xEF, 0xBF, 0xBD]);
                len += 3;
                i += n;
            }
        }
    }
    Ok(Text { bytes, len })
}

// Is the text well-formed? As in `lossy`, a turn takes one to four bytes: no `for`.
#[tactic(auto, using(crate::proofs::Cut::sequence_bounds))]
pub fn well_formed(s: &[u8]) -> bool
    ensures { result ≡ well_formed s.now }
{
    let mut i = 0;
    while i < s.len() {
        match part_at(s, i) {
            Ok(n) => i += n,
            Err(_) => return false,
        }
    }
    true
}

// How many bytes the part has that the text has at i: a well-formed sequence, or else a maximal subpart.
fn part_at(s: &[u8], i: usize) -> Result<usize, usize>
    requires { i < length s.now }
    ensures { result ≡ cut (drop i s.now) }
{
    follow(&s[i + 1..s.len()], row_of(s[i]))
}

// The part that a first byte makes with as many of the bytes after it as are in their ranges: of all that its row asks for a sequence, of fewer
// a subpart.
fn follow(rest: &[u8], row: Row) -> Result<usize, usize>
    ensures { result ≡ followed row.0 (agree (following row.0 row.1 row.2) rest.now) }
{
    let mut low = row.1;
    let mut high = row.2;
    for k in 0..row.0 {
        if rest.len() <= k {
            return Err(k + 1);
        }
        if rest[k] < low || high < rest[k] {
            return Err(k + 1);
        }
        low = 0x80;
        high = 0xBF;
    }
    Ok(row.0 + 1)
}

// The row of Table 3-7 that a byte begins. One that begins none asks for a byte of an empty range.
#[tactic(auto, using(crate::proofs::Table::begins_gap))]
fn row_of(b: u8) -> Row
    ensures { Leads b result.0 result.1 result.2 }
{
    if b <= 0x7F {
        return Row(0, 0x80, 0xBF);
    }
    if b < 0xC2 {
        return Row(1, 1, 0);
    }
    if b <= 0xDF {
        return Row(1, 0x80, 0xBF);
    }
    if b == 0xE0 {
        return Row(2, 0xA0, 0xBF);
    }
    if b == 0xED {
        return Row(2, 0x80, 0x9F);
    }
    if b <= 0xEF {
        return Row(2, 0x80, 0xBF);
    }
    if b == 0xF0 {
        return Row(3, 0x90, 0xBF);
    }
    if b <= 0xF3 {
        return Row(3, 0x80, 0xBF);
    }
    if b == 0xF4 {
        return Row(3, 0x80, 0x8F);
    }
    Row(1, 1, 0)
}
