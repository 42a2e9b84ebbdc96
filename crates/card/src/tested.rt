// The sheets of a call that passed its tests.
ghost use Rattle.std.specs.Prelude.{◌≡◌, true};
ghost use Rattle.sheet.specs.Sheet.{sound_sheet};

use sheet::Sheets;

// Two sheets that are sound: `card::check` has tested them.
#[derive(Clone, Copy)]
pub struct Tested<'a> {
    pub sheets: Sheets<'a>,
    pub ghost bench_sound: { sound_sheet sheets.bench.now ≡ true },
    pub ghost maker_sound: { sound_sheet sheets.maker.now ≡ true },
}
