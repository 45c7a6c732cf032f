// The folded multiply of the Rust's util/mix: the 128-bit product of two 64-bit numbers as two words, made of
// four products of 32-bit halves. The low word and the high word are two functions of the factors, each with
// its own products: that is the form which the compiler turns into one hardware multiply.
ghost use Rattle.std.specs.Prelude.{◌≡◌, ◌*◌, ◌^◌, ◌<◌, ◌≤◌};
ghost use Rattle.secrets.specs.Mix.{low, high, mum, mix};

// The two words of a product.
#[derive(Clone, Copy, Debug, PartialEq, Eq)]
pub struct Mum {
    pub low: u64,
    pub high: u64,
}

// Both words of a * b. Protected: the low word XOR a, the high word XOR b.
pub fn rapid_mum(a: u64, b: u64, protected: bool) -> Mum
    ensures { result ≡ mum protected a b }
{
    let l = low_word(a, b);
    let h = high_word(a, b);
    if protected {
        Mum {
            low: l ^ a,
            high: h ^ b,
        }
    } else {
        Mum { low: l, high: h }
    }
}

// The two words of rapid_mum, XORed together.
pub fn rapid_mix(a: u64, b: u64, protected: bool) -> u64
    ensures { result ≡ mix protected a b }
{
    let m = rapid_mum(a, b, protected);
    m.low ^ m.high
}

// The low word: a sum that drops its carry on purpose.
fn low_word(a: u64, b: u64) -> u64
    ensures { result ≡ low a b }
{
    let ll = times(a % 0x1_0000_0000, b % 0x1_0000_0000);
    let lh = times(a % 0x1_0000_0000, b >> 32);
    let hl = times(a >> 32, b % 0x1_0000_0000);
    let cross = (hl << 32).wrapping_add(lh << 32);
    ll.wrapping_add(cross)
}

// The high word. The cross products' sum may pass 2^64; comparing it with one of them yields its carry, which
// counts 2^32 there.
fn high_word(a: u64, b: u64) -> u64
    ensures { result ≡ high a b }
{
    let ll = times(a % 0x1_0000_0000, b % 0x1_0000_0000);
    let lh = times(a % 0x1_0000_0000, b >> 32);
    let hl = times(a >> 32, b % 0x1_0000_0000);
    let hh = times(a >> 32, b >> 32);
    let cross = hl.wrapping_add(lh);
    let carry = if cross < hl { 0x1_0000_0000 } else { 0 };
    hh + carry + (cross >> 32) + (((ll >> 32) + cross % 0x1_0000_0000) >> 32)
}

// The product of two 32-bit halves, which fits 64 bits with room for a half more.
fn times(x: u64, y: u64) -> u64
    requires { (x < 2 ^ 32) × (y < 2 ^ 32) }
    ensures { (result ≡ x * y) × (result ≤ 0xffff_fffe_0000_0001) }
{
    x * y
}
