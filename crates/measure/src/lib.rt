// The digit writer in use and the one that it replaced, as C functions, for the benchmark alone: neither refuses anything. The benchmark calls both names,
// so these two stay two.
#![tactic(auto)]

ghost use Rattle.std.specs.Prelude.{◌≡◌};
ghost use Rattle.number.specs.Data.{with_decimals, spell_data};

use number::Decimal;

// The writer in use.
#[tactic(auto, using(number::proofs::Signed::same))]
#[unsafe(no_mangle)]
pub extern "C" fn kav_digits(number: i32, decimals: u8, out: &mut [u8; 5])
    ensures { out.new ≡ spell_data (with_decimals number decimals) }
{
    *out = number::write_data(Decimal { number, decimals });
}

// The writer that it replaced, by division.
#[tactic(auto, using(number::proofs::Signed::same))]
#[unsafe(no_mangle)]
pub extern "C" fn kav_digits_by_division(number: i32, decimals: u8, out: &mut [u8; 5])
    ensures { out.new ≡ spell_data (with_decimals number decimals) }
{
    *out = division::write_data(Decimal { number, decimals });
}
