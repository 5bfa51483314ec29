// Bits of registers: tests a bit of a number, and clears bits of a number.
#![tactic(auto)]

ghost use Rattle.std.specs.Prelude.{◌≡◌, ◌<◌};
ghost use Rattle.bits.specs.Bits.{has, clear_unless};

// Whether bit `k` of `x` is set.
pub fn has_bit(x: u32, k: u32) -> bool
    requires { k < 32 }
    ensures { result ≡ has k x }
{
    (x >> k) & 1 == 1
}

// The same of a 64-bit mask. Kept as a twin: with one function over 64 bits each caller that has a register would widen it first.
pub fn has_bit64(x: u64, k: u32) -> bool
    requires { k < 64 }
    ensures { result ≡ has k x }
{
    (x >> k) & 1 == 1
}

// `x` where it is to be kept, else `x` with the bits of `m` cleared.
pub fn clear_unless(keep: bool, m: u32, x: u32) -> u32
    ensures { result ≡ clear_unless keep m x }
{
    if keep { x } else { x & !m }
}
