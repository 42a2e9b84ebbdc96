// Numbers with decimals: range, multiples of a step, the cut down, and the five digits of data.
// A number is counted in units of its last decimal.
#![tactic(auto)]

ghost use Rattle.std.specs.Prelude.{◌≡◌, true, ◌%◌, ◌≤◌, pos, nat_abs};
ghost use Rattle.std.specs.Int.Signed.{le_z};
ghost use Rattle.number.specs.Number.{in_range, is_multiple, is_small, cut, raised, lowered};
ghost use Rattle.number.specs.Data.{is_digit, as_decimal, fits, fits_numeral, code_of, five_digits, spell_data, spell_numeral, decode, read_next, read_data};
ghost use Rattle.number.specs.Inner.{characters};

// A number in units of its last decimal, and how many decimals it has.
#[derive(Clone, Copy, Debug, Default, PartialEq, Eq)]
pub struct Decimal {
    pub number: i32,
    pub decimals: u8,
}

// A number as a message has it: the sign of zero, which a number has not, stands beside it. A field of its own, since the claims on both
// zeros (`demands/specs/Zeros`) compare numbers that differ in it alone.
#[derive(Clone, Copy, Debug, PartialEq, Eq)]
pub struct Numeral {
    pub number: i32,
    pub decimals: u8,
    pub minus_zero: bool,
}

// Data as far as it has been read: fewer than five digits, all five, or something that is no data.
#[derive(Clone, Copy, Debug, PartialEq, Eq)]
pub enum Data {
    Partial { count: u8, value: u32 },
    Number(Numeral),
    Invalid,
}

// The least i32 has a magnitude too.
pub fn magnitude(x: i32) -> u32
    ensures { result ≡ nat_abs x }
{
    x.unsigned_abs()
}

// From the least to the greatest, both included.
#[tactic(auto, unfolding(crate::specs::Number::in_range))]
pub fn in_range(least: i32, x: i32, greatest: i32) -> bool
    ensures { result ≡ in_range least x greatest }
{
    (least..=greatest).contains(&x)
}

// A step below 1 has no multiples. Most steps are 1, of which every number is a multiple: that saves the division.
#[tactic(auto, using(crate::proofs::Arms::dividing))]
pub fn is_multiple(x: i32, step: i32) -> bool
    ensures { result ≡ is_multiple x step }
{
    step == 1 || (1 <= step && x % step == 0)
}

// Four digits and a sign.
fn is_small(x: i32) -> bool
    ensures { result ≡ is_small x }
{
    in_range(-9999, x, 9999)
}

// The nearest multiple of the step that is not above x. A number beyond four digits, or a step that no row can have, is left as it is.
#[tactic(auto, using(crate::proofs::Arms::cutting), unfolding(crate::specs::Number::cut))]
pub fn cut(x: i32, step: i32) -> i32
    ensures { result ≡ cut x step }
{
    if is_small(x) && in_range(1, step, 9999) {
        x - x.rem_euclid(step)
    } else {
        x
    }
}

// One step up; what is beyond four digits is left as it is.
#[tactic(auto, using(crate::proofs::Arms::sums), unfolding(crate::specs::Number::raised))]
pub fn raised(x: i32, step: i32) -> i32
    ensures { result ≡ raised x step }
{
    if is_small(x) && is_small(step) {
        x + step
    } else {
        x
    }
}

// One step down; what is beyond four digits is left as it is. It differs from `raised` in the operator alone: a function that takes the operator
// is no plainer than these two, and both have laws of their own.
#[tactic(auto, using(crate::proofs::Arms::differences), unfolding(crate::specs::Number::lowered))]
pub fn lowered(x: i32, step: i32) -> i32
    ensures { result ≡ lowered x step }
{
    if is_small(x) && is_small(step) {
        x - step
    } else {
        x
    }
}

#[tactic(auto, unfolding(crate::specs::Data::is_digit))]
pub fn is_digit(c: u8) -> bool
    ensures { result ≡ is_digit c }
{
    c.is_ascii_digit()
}

// What five digits can say.
#[tactic(auto, unfolding(crate::specs::Data::fits))]
pub fn fits(x: Decimal) -> bool
    ensures { result ≡ fits x }
{
    magnitude(x.number) <= 9999 && x.decimals <= 3
}

// The number of both zeros is the same.
impl From<Numeral> for Decimal {
    ghost from_gives = { λ x y. y ≡ as_decimal x };

    fn from(x: Numeral) -> Decimal {
        Decimal {
            number: x.number,
            decimals: x.decimals,
        }
    }
}

// What five digits can say of a number as a message has it: only zero is minus zero.
#[tactic(auto, unfolding(crate::specs::Data::fits_numeral, crate::specs::Data::fits))]
pub fn fits_numeral(x: Numeral) -> bool
    ensures { result ≡ fits_numeral x }
{
    fits(x.into()) && (!x.minus_zero || x.number == 0)
}

// The decimals, and 5 more below zero.
#[tactic(auto, using(crate::proofs::Arms::coding))]
pub fn code(x: Decimal) -> u32
    ensures { result ≡ code_of x.number x.decimals }
{
    if x.number < 0 {
        u32::from(x.decimals) + 5
    } else {
        u32::from(x.decimals)
    }
}

// The characters of four digits in one number, the first in its lowest byte. A product and a shift give the whole quotient: of four
// digits by 100, and of two digits by 10, which is taken in both halves of a number at once.
#[tactic(auto, using(crate::proofs::Pairs::pairing))]
fn characters(m: u32) -> u32
    requires { m ≤ 9999 }
    ensures { result ≡ characters m }
{
    let upper = (m * 5243) >> 19;
    // The upper pair of digits in the lower half, and the lower pair, m - 100 * upper, in the upper half.
    let pairs = m * 65536 - upper * 6553599;
    let tens = ((pairs * 103) >> 10) & 0x000f_000f;
    // Of each pair the tens in one byte and the units, pair - 10 * tens, in the next, and 48 more in each.
    pairs * 256 - tens * 2559 + 0x3030_3030
}

// Four digits of a number and the digit of a code.
#[tactic(auto, using(crate::proofs::Pairs::le_bytes_are), unfolding(crate::specs::Data::five_digits, crate::specs::Data::digit))]
fn five_digits(m: u32, k: u32) -> [u8; 5]
    requires { (m ≤ 9999) × (k ≤ 9) }
    ensures { result ≡ five_digits m k }
{
    let [a, b, c, d] = characters(m).to_le_bytes();
    [a, b, c, d, b'0' + k as u8]
}

// The last four digits of a number. Where there are no more, nothing has to be divided.
fn last_four(m: u32) -> u32
    ensures { result ≡ m % 10000 }
{
    if m <= 9999 { m } else { m % 10000 }
}

// Four digits of the number and the code. Only more decimals than any message has make a code of two digits.
#[tactic(auto, using(crate::proofs::Digits::written), unfolding(crate::specs::Data::spell_data))]
pub fn write_data(x: Decimal) -> [u8; 5]
    ensures { result ≡ spell_data x }
{
    let m = magnitude(x.number);
    let k = code(x);
    if x.decimals <= 3 {
        five_digits(last_four(m), k)
    } else {
        five_digits(m % 10000, k % 10)
    }
}

// A number as a message has it. Minus zero has the code of a number below zero.
#[tactic(auto, using(crate::proofs::Digits::other_code), unfolding(crate::specs::Data::spell_numeral, crate::specs::Data::spell_data, crate::specs::Data::digit))]
pub fn write_numeral(x: Numeral) -> [u8; 5]
    ensures { result ≡ spell_numeral x }
{
    let mut digits = write_data(x.into());
    if x.minus_zero {
        let k = u32::from(x.decimals) + 5;
        digits[4] = b'0' + (k % 10) as u8;
    }
    digits
}

// A number of four digits with the digit of its code.
#[tactic(auto, using(crate::proofs::Arms::decoding))]
fn decoded(m: u32, k: u8) -> Data
    requires { m ≤ 9999 }
    ensures { result ≡ decode m k }
{
    match k {
        0..=3 => Data::Number(Numeral {
            number: m as i32,
            decimals: k,
            minus_zero: false,
        }),
        5..=8 => Data::Number(Numeral {
            number: -(m as i32),
            decimals: k - 5,
            minus_zero: m == 0,
        }),
        _ => Data::Invalid,
    }
}

// One character more: a digit of the number, or the code behind four digits. Nothing follows five digits, or what is no data.
#[tactic(auto, using(crate::proofs::Digits::digit_ends), unfolding(crate::specs::Data::read_next, crate::specs::Data::digit_of))]
pub fn read_next(read: Data, c: u8) -> Data
    ensures { result ≡ read_next read c }
{
    let Data::Partial { count, value } = read else {
        return Data::Invalid;
    };
    if !is_digit(c) || value > 9999 {
        return Data::Invalid;
    }
    let digit = c - b'0';
    if count < 4 {
        Data::Partial {
            count: count + 1,
            value: value * 10 + u32::from(digit),
        }
    } else {
        decoded(value, digit)
    }
}

// All characters of the data.
#[tactic(auto, using(crate::proofs::Reading::folded), unfolding(crate::specs::Data::read_data))]
pub fn read_data(s: [u8; 5]) -> Data
    ensures { result ≡ read_data s }
{
    s.iter()
        .copied()
        .fold(Data::Partial { count: 0, value: 0 }, read_next)
}
