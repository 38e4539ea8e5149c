// HMAC-SHA1 (RFC 2104) for a key of any length, over a text that may come in parts: `new` with the
// key, then `update` with each part, then `finish`; `digest` for a text in one part.
#![tactic(auto)]

ghost use Rattle.std.specs.Prelude.{◌≡◌, map};
ghost use Rattle.std.specs.Int.Bits.{bit_xor};
ghost use Rattle.digest.specs.Hmac.{hmac, keyed, keyed_fed, keyed_finished, key_block};
ghost use Rattle.sha1_digest.specs.Rfc3174.{sha1};
ghost use Rattle.hmac.specs.{keyed_view};

use sha1_digest::Sha1;

// The inner digest, which takes the text, and the outer one; each has taken its masked key.
#[derive(Clone, Copy)]
pub struct HmacSha1 {
    pub inner: Sha1,
    pub outer: Sha1,
}

impl HmacSha1 {
    pub fn new(key: &[u8]) -> Self
        ensures { keyed_view result ≡ keyed sha1 key.now }
    {
        let block = key_block(key);
        let ipad = masked(block, 0x36);
        let opad = masked(block, 0x5c);
        Self {
            inner: Sha1::new().update(&ipad),
            outer: Sha1::new().update(&opad),
        }
    }

    // One more part of the text.
    pub fn update(self, part: &[u8]) -> Self
        ensures { keyed_view result ≡ keyed_fed sha1 (keyed_view self) part.now }
    {
        Self {
            inner: self.inner.update(part),
            outer: self.outer,
        }
    }

    // The code of all that came.
    pub fn finish(self) -> [u8; 20]
        ensures { result ≡ keyed_finished sha1 (keyed_view self) }
    {
        let text = self.inner.finish();
        self.outer.update(&text).finish()
    }
}

// The code of a text in one part.
pub fn digest(key: &[u8], text: &[u8]) -> [u8; 20]
    ensures { result ≡ hmac sha1 key.now text.now }
{
    HmacSha1::new(key).update(text).finish()
}

// The key with zeros up to a block, digested first where it is longer.
#[tactic(auto, unfolding(digest::specs::Hmac::key_block))]
fn key_block(key: &[u8]) -> [u8; 64]
    ensures { result ≡ key_block sha1 key.now }
{
    if 64 < key.len() {
        let short = sha1_digest::digest(key);
        return digest::laid([0; 64], 0, &short);
    }
    digest::laid([0; 64], 0, key)
}

// Each byte of a block XOR b.
fn masked(block: [u8; 64], b: u8) -> [u8; 64]
    ensures { result ≡ map (λ x. bit_xor x b) block }
{
    let mut out = block;
    for x in &mut out {
        *x ^= b;
    }
    out
}
