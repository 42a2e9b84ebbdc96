// The cards of the cases: the sheets, the values at the start, the letter, the scan and the revision of each.
use crate::pair::together;
use crate::player::both;
use crate::reader::{address_of, field};
use act::Setup;
use models::Instrument;
use sheet::Sheets;

// Document 01, "Bench cases". A row: identifier, access, decimals, step, least, greatest.
const BENCH: [i32; 24] = [
    74, 2, 1, 5, -100, 100, // `J`
    77, 1, 1, 1, -1999, 9999, // `M`
    90, 3, 0, 1, 15, 18, // `Z`
    109, 2, 1, 5, 0, 1000, // `m`
];

// A row for each count of decimals.
const TABLE: [i32; 24] = [
    97, 2, 0, 1, -9999, 9999, // `a`
    98, 2, 1, 1, -9999, 9999, // `b`
    99, 2, 2, 1, -9999, 9999, // `c`
    100, 2, 3, 1, -9999, 9999, // `d`
];

// Identifiers for scans: none, five and four of the bench rows, and the four rows for Table 5-1.
const NO_SCAN: [u8; 5] = [0, 0, 0, 0, 0];

const FIVE: [u8; 5] = [b'M', b'm', b'J', b'J', b'M'];

const FOUR: [u8; 5] = [b'J', b'm', b'M', b'J', 0];

const DECIMALS: [u8; 5] = [b'a', b'b', b'c', b'd', 0];

// A small letter is the second revision of the card with the capital.
fn revision_of(letter: u8) -> u8 {
    if letter.is_ascii_lowercase() { 2 } else { 1 }
}

// `J` has 0.
fn bench_values() -> [i32; 128] {
    let mut values = [0; 128];
    values[77] = 231;
    values[90] = 15;
    values[109] = 20;
    values
}

// Two sheets, or one: the other has no rows.
fn of_bench(bench: &[i32]) -> Sheets<'_> {
    Sheets { bench, maker: &[] }
}

fn of_maker(maker: &[i32]) -> Sheets<'_> {
    Sheets { bench: &[], maker }
}

// A card of a real instrument, with its sheet and its values.
fn on_instrument<const ROWS: usize>(
    instrument: &Instrument<ROWS>,
    address: u8,
    revision: u8,
    line: &[u8],
) -> Result<(), usize> {
    let setup = Setup {
        letter: instrument.letter(),
        address,
        count: instrument.count(),
        scan: instrument.scan(),
        revision,
    };
    let rows = instrument.sheet();
    both(
        setup,
        &of_maker(rows.as_flattened()),
        instrument.values(),
        line,
    )
}

// A case, by its card, whose letter, address and revision stand in the line.
pub(crate) fn play(line: &[u8]) -> Result<(), usize> {
    let (_, line) = field(line);
    let (card, line) = field(line);
    let Some(kind) = card.first() else {
        return Err(0);
    };
    let address = address_of(card);
    let revision = revision_of(*kind);
    let set = |letter, count, scan| Setup {
        letter,
        address,
        count,
        scan,
        revision,
    };
    let at_seven = |letter, count, scan| Setup {
        letter,
        address: 7,
        count,
        scan,
        revision,
    };
    match kind.to_ascii_uppercase() {
        b'B' => both(
            set(b'L', 0, NO_SCAN),
            &of_bench(&BENCH),
            bench_values(),
            line,
        ),
        b'E' => both(set(b'L', 5, FIVE), &of_bench(&BENCH), bench_values(), line),
        b'F' => both(set(b'R', 4, FOUR), &of_bench(&BENCH), bench_values(), line),
        b'M' => {
            let setups = [
                at_seven(b'L', 0, NO_SCAN),
                at_seven(b'R', 4, FOUR),
                set(b'L', 5, FIVE),
            ];
            together(setups, &of_bench(&BENCH), bench_values(), line)
        }
        b'C' => on_instrument(&models::dcp100_controller(), address, revision, line),
        b'D' => on_instrument(&models::dcp100_one_output(), address, revision, line),
        b'P' => on_instrument(&models::dcp100_programmer(), address, revision, line),
        b'U' => on_instrument(&models::udi1500(), address, revision, line),
        b'T' => both(set(b'L', 4, DECIMALS), &of_maker(&TABLE), [0; 128], line),
        _ => Err(0),
    }
}
