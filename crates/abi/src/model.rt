// The call that gives a real instrument: its sheet, its values at first, and what a card of it is set to.
ghost use Rattle.std.specs.Prelude.{◌≡◌};
ghost use Rattle.abi.specs.Models.{model_setup, model_given, model_into, kav_model};

use models::Instrument;
use refusal::Refusal;

// Letter, count of the scan's identifiers, and five of them.
fn setup_numbers<const ROWS: usize>(instrument: &Instrument<ROWS>) -> [i32; 7]
    ensures { result ≡ model_setup instrument.now }
{
    let [a, b, c, d, e] = instrument.scan();
    [instrument.letter(), instrument.count(), a, b, c, d, e].map(i32::from)
}

// An instrument's sheet, its values and its setup, each to the front of its slice: the count of the first.
#[tactic(auto, using(crate::proofs::Given::fit, crate::proofs::Given::too_long, crate::proofs::Laws::wide_ok))]
fn give<const ROWS: usize>(
    instrument: &Instrument<ROWS>,
    sheet: &mut [i32],
    values: &mut [i32],
    setup: &mut [i32],
) -> i64
    ensures { model_given result sheet.new values.new setup.new ≡ model_into sheet.old values.old setup.old instrument.now }
{
    let lines = instrument.sheet();
    let rows = lines.as_flattened();
    let initial = &instrument.values();
    let set = &setup_numbers(instrument);
    if rows.len() > sheet.len() || initial.len() > values.len() || set.len() > setup.len() {
        return crate::minus_number(Refusal::RoomTooShort);
    }
    crate::copy(rows, sheet);
    crate::copy(initial, values);
    crate::copy(set, setup);
    crate::count_result(rows.len())
}

// One instrument by its number: the count of its sheet's numbers, with these, its values and its setup at the front of the slices.
#[tactic(auto, using(crate::proofs::Laws::wide_ok), unfolding(crate::specs::Models::kav_model, models::specs::Model::of_model))]
#[unsafe(no_mangle)]
pub extern "C" fn kav_model(
    model: u32,
    sheet: &mut [i32],
    values: &mut [i32],
    setup: &mut [i32],
) -> i64
    ensures { model_given result sheet.new values.new setup.new ≡ kav_model model sheet.old values.old setup.old }
{
    match model {
        1 => give(&models::dcp100_controller(), sheet, values, setup),
        2 => give(&models::dcp100_programmer(), sheet, values, setup),
        3 => give(&models::udi1500(), sheet, values, setup),
        _ => 0,
    }
}
