// SHA-256 (FIPS 180-4) of a message that is there as a whole: the 32 bytes of its digest.
#![tactic(auto)]

ghost use Rattle.std.specs.Prelude.{◌≡◌, ◌+◌, ◌-◌, ◌*◌, ◌%◌, ◌++◌, length, replicate};
ghost use Rattle.sha256.specs.Sha256.{big_endian, padding, initial, digest_of, sha256};

use crate::block::{State, block_at};

mod block;

// The digest of a message of any length. The length's field holds the lowest 64 bits of the length in bits, which is the standard's for each
// message that the standard admits: those below 2^61 bytes.
pub fn sha256(message: &[u8], digest: &mut [u8; 32])
    ensures { digest.new ≡ sha256 message.now }
{
    let blocks = message.len() / 64;
    let mut s = start();
    for i in 0..blocks {
        s = block_at(s, message, 64 * i);
    }
    let rest = &message[64 * blocks..];
    let tail = tail_of(rest, message.len() as u64);
    let one = block_at(s, &tail, 0);
    if rest.len() < 56 {
        *digest = digest_of(one);
    } else {
        let two = block_at(one, &tail, 64);
        *digest = digest_of(two);
    }
}

fn start() -> State
    ensures { result ≡ initial }
{
    State {
        a: 0x6a09_e667,
        b: 0xbb67_ae85,
        c: 0x3c6e_f372,
        d: 0xa54f_f53a,
        e: 0x510e_527f,
        f: 0x9b05_688c,
        g: 0x1f83_d9ab,
        h: 0x5be0_cd19,
    }
}

// What is left after the whole blocks, padded to one block or two, and zeros.
fn tail_of(rest: &[u8], n: u64) -> [u8; 128]
    requires { length rest.now ≡ n % 64 }
    ensures { result ≡ rest.now ++ padding n ++ replicate (128 - (length rest.now + length (padding n))) 0 }
{
    let used = rest.len();
    let at = if used < 56 { 56 } else { 120 };
    let mut tail = [0u8; 128];
    tail[..used].copy_from_slice(rest);
    tail[used] = 128;
    tail[at..at + 8].copy_from_slice(&length_field(n));
    tail
}

// The length in bits of a message of n bytes, as a block ends with it.
fn length_field(n: u64) -> [u8; 8]
    ensures { result ≡ big_endian 8 (8 * n) }
{
    (n << 3).to_be_bytes()
}

fn digest_of(s: State) -> [u8; 32]
    ensures { result ≡ digest_of s }
{
    let mut out = [0u8; 32];
    out[..4].copy_from_slice(&s.a.to_be_bytes());
    out[4..8].copy_from_slice(&s.b.to_be_bytes());
    out[8..12].copy_from_slice(&s.c.to_be_bytes());
    out[12..16].copy_from_slice(&s.d.to_be_bytes());
    out[16..20].copy_from_slice(&s.e.to_be_bytes());
    out[20..24].copy_from_slice(&s.f.to_be_bytes());
    out[24..28].copy_from_slice(&s.g.to_be_bytes());
    out[28..].copy_from_slice(&s.h.to_be_bytes());
    out
}
