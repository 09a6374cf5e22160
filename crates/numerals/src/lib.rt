// How one field is read as a number: optional minus, 1 to 10 digits, no leading zero, no "-0". `within` holds for every
// list of bytes; the functions below it say their results by the definitions of `specs/`.
#![tactic(auto)]

ghost use Rattle.std.specs.Prelude.{◌≡◌, true, ◌<◌, pos};
ghost use Rattle.std.specs.Bool.{then_some};
ghost use Rattle.numerals.specs.Numerals.{value_from, good_digits, numeral, in_range, only_if};

// A number has at most so many digits.
const MOST_DIGITS: usize = 10;

fn good_digits(f: &[u8]) -> bool
    ensures { result ≡ good_digits f.now }
{
    match f {
        [] | [b'0', _, ..] => false,
        _ => f.len() <= MOST_DIGITS && f.iter().all(u8::is_ascii_digit),
    }
}

// The number that good digits write.
#[tactic(auto, using(crate::proofs::Digits::digits))]
fn value(f: &[u8]) -> u64
    requires { good_digits f.now ≡ true }
    ensures { (result ≡ value_from 0 f.now) × (result < 10000000000) }
{
    let mut number: u64 = 0;
    for &digit in f {
        number = 10 * number + u64::from(digit - b'0');
    }
    number
}

// The number that a field writes, or nothing if its bytes are no good digits.
fn magnitude(f: &[u8]) -> Option<i64>
    ensures { result ≡ then_some (good_digits f.now) (pos (value_from 0 f.now)) }
{
    good_digits(f).then(|| value(f) as i64)
}

#[tactic(auto, using(crate::proofs::Digits::numerals))]
fn numeral(f: &[u8]) -> Option<i64>
    ensures { result ≡ numeral f.now }
{
    match f {
        [b'-', b'0', ..] => None,
        [b'-', digits @ ..] => Some(-magnitude(digits)?),
        digits => magnitude(digits),
    }
}

// A number from lo to hi.
pub fn within(f: &[u8], lo: i64, hi: i64) -> Option<i64>
    ensures { result ≡ only_if (in_range lo hi) (numeral f.now) }
{
    let z = numeral(f)?;
    (lo..=hi).contains(&z).then_some(z)
}
