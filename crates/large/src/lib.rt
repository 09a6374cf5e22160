// Numbers of two words. Squares of c and t pass 64 bits: where they are compared, it is with these, and their meaning
// is said once. The shapes below are those of which the compiler makes one multiplication for each product. No u128:
// the theorems and the wrong programs of this crate are about these words and columns (`whole-product`, `carry_lost`,
// ..).
#![tactic(auto)]

ghost use Rattle.std.specs.Prelude.{◌≡◌, ◌+◌, ◌*◌, ◌^◌, ◌<◌, ◌≤◌, nat_lt};
ghost use mir.Val.{bool_byte};
ghost use Rattle.large.specs.Value.{value_of, roomy};

// high * 2^64 + low.
#[derive(Drop)]
struct Large {
    high: u64,
    low: u64,
}

// 2^32.
const HALF: u64 = 4294967296;

// The product of two words, column by column.
fn product(x: u64, y: u64) -> Large
    ensures { value_of result ≡ x * y }
{
    let x0 = x % HALF;
    let x1 = x / HALF;
    let y0 = y % HALF;
    let y1 = y / HALF;
    let cross = x0 * y1;
    let least = x0 * y0;
    let middle = x1 * y0 + least / HALF + cross % HALF;
    Large {
        high: x1 * y1 + middle / HALF + cross / HALF,
        low: middle % HALF * HALF + least % HALF,
    }
}

// 1 where a is below b, and else 0.
fn carried(a: u64, b: u64) -> u64
    ensures { result ≡ bool_byte (nat_lt a b) }
{
    (a < b) as u64
}

// The sum of two that are below 2^127. The low words wrap exactly where their sum is below either of them.
fn plus(a: Large, b: Large) -> Large
    requires { (a.high < 2 ^ 63) × (b.high < 2 ^ 63) }
    ensures { value_of result ≡ value_of a + value_of b }
{
    let low = std::num::wrapping_add_u64(a.low, b.low);
    let carry = carried(low, a.low);
    Large {
        high: a.high + b.high + carry,
        low,
    }
}

// Whether a is below b: where its low word is, the high ones may be the same.
fn less(a: Large, b: Large) -> bool
    requires { b.high < 2 ^ 63 }
    ensures { result ≡ nat_lt (value_of a) (value_of b) }
{
    a.high < b.high + carried(a.low, b.low)
}

// Whether g^2 + h^2 is above reach*v: every squared comparison is this one. Both sides have g + h more, so that no
// number is multiplied by itself, of which the compiler would make three multiplications.
pub fn farther(g: u64, h: u64, reach: u64, v: u64) -> bool
    requires { (g ≤ roomy) × (h ≤ roomy) × (reach ≤ roomy) × (v ≤ roomy) }
    ensures { result ≡ nat_lt (reach * v) (g * g + h * h) }
{
    let low = g + h;
    let left = plus(product(reach, v), Large { high: 0, low });
    let right = plus(product(g, g + 1), product(h, h + 1));
    less(left, right)
}
