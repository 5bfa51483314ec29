// One block of SHA-256 (FIPS 180-4, 6.2.2): the next hash value, from a hash value and the 64 bytes of a block.
ghost use Rattle.std.specs.Prelude.{◌≡◌, ◌+◌, ◌≤◌, length};
ghost use Rattle.sha256.specs.Block.{◌⊞◌, ch, maj, Σ₀, Σ₁, σ₀, σ₁, word_at, words, turn, turns, added, compress};

// A hash value, and the eight working variables.
#[derive(Clone, Copy)]
pub struct State {
    pub a: u32,
    pub b: u32,
    pub c: u32,
    pub d: u32,
    pub e: u32,
    pub f: u32,
    pub g: u32,
    pub h: u32,
}

const K: [u32; 64] = [
    0x428a_2f98,
    0x7137_4491,
    0xb5c0_fbcf,
    0xe9b5_dba5,
    0x3956_c25b,
    0x59f1_11f1,
    0x923f_82a4,
    0xab1c_5ed5,
    0xd807_aa98,
    0x1283_5b01,
    0x2431_85be,
    0x550c_7dc3,
    0x72be_5d74,
    0x80de_b1fe,
    0x9bdc_06a7,
    0xc19b_f174,
    0xe49b_69c1,
    0xefbe_4786,
    0x0fc1_9dc6,
    0x240c_a1cc,
    0x2de9_2c6f,
    0x4a74_84aa,
    0x5cb0_a9dc,
    0x76f9_88da,
    0x983e_5152,
    0xa831_c66d,
    0xb003_27c8,
    0xbf59_7fc7,
    0xc6e0_0bf3,
    0xd5a7_9147,
    0x06ca_6351,
    0x1429_2967,
    0x27b7_0a85,
    0x2e1b_2138,
    0x4d2c_6dfc,
    0x5338_0d13,
    0x650a_7354,
    0x766a_0abb,
    0x81c2_c92e,
    0x9272_2c85,
    0xa2bf_e8a1,
    0xa81a_664b,
    0xc24b_8b70,
    0xc76c_51a3,
    0xd192_e819,
    0xd699_0624,
    0xf40e_3585,
    0x106a_a070,
    0x19a4_c116,
    0x1e37_6c08,
    0x2748_774c,
    0x34b0_bcb5,
    0x391c_0cb3,
    0x4ed8_aa4a,
    0x5b9c_ca4f,
    0x682e_6ff3,
    0x748f_82ee,
    0x78a5_636f,
    0x84c8_7814,
    0x8cc7_0208,
    0x90be_fffa,
    0xa450_6ceb,
    0xbef9_a3f7,
    0xc671_78f2,
];

// The hash value after one block more, whose bytes start at an index.
pub fn block_at(p: State, bytes: &[u8], at: usize) -> State
    requires { at + 64 ≤ length bytes.now }
    ensures { result ≡ compress p (words bytes.now at 16) }
{
    let mut w = [0u32; 64];
    for t in 0..16 {
        w[t] = word_at(bytes, at + 4 * t);
    }
    for i in 0..48 {
        w[16 + i] = next_word(w[i], w[i + 1], w[i + 9], w[i + 14]);
    }
    let s = turned(p, &w);
    sum_of(s, p)
}

// A big-endian word.
fn word_at(bytes: &[u8], at: usize) -> u32
    requires { at + 4 ≤ length bytes.now }
    ensures { result ≡ word_at bytes.now at }
{
    u32::from_be_bytes([bytes[at], bytes[at + 1], bytes[at + 2], bytes[at + 3]])
}

fn next_word(w16: u32, w15: u32, w7: u32, w2: u32) -> u32
    ensures { result ≡ σ₁ w2 ⊞ w7 ⊞ σ₀ w15 ⊞ w16 }
{
    small_1(w2)
        .wrapping_add(w7)
        .wrapping_add(small_0(w15))
        .wrapping_add(w16)
}

// The 64 turns.
fn turned(p: State, w: &[u32; 64]) -> State
    ensures { result ≡ turns p w.now 64 }
{
    let mut s = p;
    for t in 0..64 {
        s = turn(s, K[t], w[t]);
    }
    s
}

fn turn(s: State, k: u32, w: u32) -> State
    ensures { result ≡ turn s k w }
{
    let t1 = s
        .h
        .wrapping_add(big_1(s.e))
        .wrapping_add(choice(s.e, s.f, s.g))
        .wrapping_add(k)
        .wrapping_add(w);
    let t2 = big_0(s.a).wrapping_add(majority(s.a, s.b, s.c));
    State {
        a: t1.wrapping_add(t2),
        b: s.a,
        c: s.b,
        d: s.c,
        e: s.d.wrapping_add(t1),
        f: s.e,
        g: s.f,
        h: s.g,
    }
}

fn sum_of(s: State, p: State) -> State
    ensures { result ≡ added s p }
{
    State {
        a: s.a.wrapping_add(p.a),
        b: s.b.wrapping_add(p.b),
        c: s.c.wrapping_add(p.c),
        d: s.d.wrapping_add(p.d),
        e: s.e.wrapping_add(p.e),
        f: s.f.wrapping_add(p.f),
        g: s.g.wrapping_add(p.g),
        h: s.h.wrapping_add(p.h),
    }
}

fn choice(x: u32, y: u32, z: u32) -> u32
    ensures { result ≡ ch x y z }
{
    (x & y) ^ (!x & z)
}

fn majority(x: u32, y: u32, z: u32) -> u32
    ensures { result ≡ maj x y z }
{
    (x & y) ^ (x & z) ^ (y & z)
}

fn big_0(x: u32) -> u32
    ensures { result ≡ Σ₀ x }
{
    x.rotate_right(2) ^ x.rotate_right(13) ^ x.rotate_right(22)
}

fn big_1(x: u32) -> u32
    ensures { result ≡ Σ₁ x }
{
    x.rotate_right(6) ^ x.rotate_right(11) ^ x.rotate_right(25)
}

fn small_0(x: u32) -> u32
    ensures { result ≡ σ₀ x }
{
    x.rotate_right(7) ^ x.rotate_right(18) ^ (x >> 3)
}

fn small_1(x: u32) -> u32
    ensures { result ≡ σ₁ x }
{
    x.rotate_right(17) ^ x.rotate_right(19) ^ (x >> 10)
}
