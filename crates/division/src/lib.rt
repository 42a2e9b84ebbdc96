// The digit writer as it was before request 3, five digits by division: kept to be measured beside the one in `number`, and used for nothing else.
#![tactic(auto)]

ghost use Rattle.std.specs.Prelude.{◌≡◌, ◌%◌};
ghost use Rattle.number.specs.Data.{digit, spell_data};

use number::Decimal;

// The character of the last digit of n.
#[tactic(auto, unfolding(number::specs::Data::digit))]
fn last_digit(n: u32) -> u8
    ensures { result ≡ digit (n % 10) }
{
    b'0' + (n % 10) as u8
}

// Four digits of the number and the code.
#[tactic(auto, using(number::proofs::Signed::same), unfolding(number::specs::Data::spell_data, number::specs::Data::five_digits))]
pub fn write_data(x: Decimal) -> [u8; 5]
    ensures { result ≡ spell_data x }
{
    let m = number::magnitude(x.number);
    [
        last_digit(m / 10 / 10 / 10),
        last_digit(m / 10 / 10),
        last_digit(m / 10),
        last_digit(m),
        last_digit(number::code(x)),
    ]
}
