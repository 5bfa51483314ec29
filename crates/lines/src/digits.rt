// Numbers in ASCII: stores a number's digits into lent bytes, and reads the number that digits stand for.
ghost use Rattle.std.specs.Prelude.{◌≡◌, ◌+◌, ◌≤◌, ◌<◌, length, drop};
ghost use Rattle.std.proofs.lemmas.List.Edits.{sets};
ghost use Rattle.lines.specs.Digits.{capital, digits, width, decimal, more};
ghost use Rattle.lines.specs.Field.{field_from, after};

// A field's number, and the index after the byte that ends it.
#[derive(Clone, Copy)]
pub struct Field {
    pub value: u32,
    pub next: usize,
}

// A decimal without leading zeros.
pub fn put_decimal(out: &mut [u8], at: usize, n: u32) -> usize
    requires { at + length (decimal n) ≤ length out.old }
    ensures { (result ≡ at + length (decimal n)) × (out.new ≡ sets out.old at (decimal n)) }
{
    let count = width_of(n);
    put_digits(out, at, count, 10, n);
    at + count
}

// The lowest digits of a number in a base, the last one first.
pub fn put_digits(out: &mut [u8], at: usize, count: usize, base: u32, n: u32)
    requires { (at + count ≤ length out.old) × (1 < base) × (base ≤ 16) }
    ensures { out.new ≡ sets out.old at (digits base count n) }
{
    let mut rest = n;
    for left in (0..count).rev() {
        out[at + left] = capital(rest % base);
        rest /= base;
    }
}

// A digit in ASCII.
fn capital(d: u32) -> u8
    requires { d < 16 }
    ensures { result ≡ capital d }
{
    if d < 10 { 48 + d as u8 } else { 55 + d as u8 }
}

// How many decimal digits a number has.
fn width_of(n: u32) -> usize
    ensures { (result ≡ width n) × (result ≤ 10) }
{
    1 + usize::from(n >= 10)
        + usize::from(n >= 100)
        + usize::from(n >= 1000)
        + usize::from(n >= 10000)
        + usize::from(n >= 100000)
        + usize::from(n >= 1000000)
        + usize::from(n >= 10000000)
        + usize::from(n >= 100000000)
        + usize::from(n >= 1000000000)
}

// The number in a base whose digits start at an index, cut to 32 bits, up to a byte below '0'.
pub fn field_at(line: &[u8], from: usize, base: u64) -> Field
    requires { base ≤ 16 }
    ensures value_value { result.value ≡ field_from base 0 (drop from line.now) }
    ensures line_value { drop result.next line.now ≡ after (drop from line.now) }
{
    let mut n: u32 = 0;
    for i in from..line.len() {
        let b = line[i];
        if b < b'0' {
            return Field {
                value: n,
                next: i + 1,
            };
        }
        n = more(n, base, b);
    }
    Field {
        value: n,
        next: line.len(),
    }
}

// One digit more.
fn more(n: u32, base: u64, b: u8) -> u32
    requires { base ≤ 16 }
    ensures { result ≡ more base n b }
{
    ((n as u64 * base + (b % 16 + b / 64 * 9) as u64) % 4294967296) as u32
}
