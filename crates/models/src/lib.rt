// Three real instruments: the letter of a card, the sheet, the values at first by character code, and the identifiers of the scan.
// A table has a line for each row: identifier, access, decimals, step, least, greatest, initial value. specs/ has the same lines, with
// their places in the manuals.
#![tactic(auto)]

ghost use Rattle.std.specs.Prelude.{◌≡◌, true, ◌≤◌, length, take};
ghost use Rattle.std.specs.List.{flat_map};
ghost use Rattle.models.specs.Table.{sheet_of, are_codes, values_of};
ghost use Rattle.models.specs.Scans.{dcp100_one_output_scan, padded};
ghost use Rattle.models.specs.Model.{Model, controller, programmer, indicator, one_output};

use std::marker::Model;

// DCP 100 controller, letter `L`.
const DCP100_CONTROLLER: [[i32; 7]; 28] = [
    [65, 2, 1, 1, 0, 1000, 1000], // `A` Setpoint High Limit
    [66, 2, 0, 1, 0, 100, 100], // `B` Output 1 Power Limit
    [67, 2, 1, 1, 0, 1000, 1000], // `C` Alarm 1 Value
    [68, 2, 2, 1, 0, 9959, 115], // `D` Rate
    [69, 2, 1, 1, 0, 1000, 0], // `E` Alarm 2 Value
    [70, 2, 1, 1, 1, 100, 5], // `F` ON/OFF Differential Value
    [71, 2, 1, 1, -1999, 9999, 1000], // `G` Scale Range Maximum
    [72, 2, 1, 1, -1999, 9999, 0], // `H` Scale Range Minimum
    [73, 2, 2, 1, 1, 9959, 500], // `I` Reset Value or Loop Alarm Time
    [74, 2, 0, 1, -100, 100, 25], // `J` Manual Reset
    [75, 2, 0, 1, -20, 20, 0], // `K` Overlap/Deadband Value
    [76, 1, 0, 1, 0, 511, 0], // `L` Controller Status
    [77, 1, 1, 1, 0, 1000, 0], // `M` Process Variable Value
    [78, 2, 1, 5, 5, 5120, 320], // `N` Output 1 Cycle Time
    [79, 2, 1, 5, 5, 5120, 320], // `O` Output 2 Cycle Time
    [80, 2, 1, 1, 0, 9999, 100], // `P` Proportional Band 1 Value
    [81, 2, 0, 1, 0, 3, 1], // `Q` Scale Range Decimal Point Position
    [83, 2, 1, 1, 0, 1000, 0], // `S` Setpoint Value
    [84, 2, 1, 1, 0, 1000, 0], // `T` Setpoint Low Limit
    [85, 2, 1, 1, 0, 9999, 100], // `U` Proportional Band 2 Value
    [86, 1, 1, 1, -1000, 1000, 0], // `V` Deviation Value
    [87, 1, 0, 1, -100, 100, 0], // `W` Output Power
    [90, 3, 0, 1, 1, 14, 1], // `Z` Setpoint Programmer Commands
    [91, 2, 1, 1, -1999, 9999, 1000], // `[` Recorder Output Scale Maximum
    [92, 2, 1, 1, -1999, 9999, 0], // `\` Recorder Output Scale Minimum
    [94, 2, 1, 1, 1, 9999, 1], // `^` Setpoint Ramp Rate
    [109, 2, 1, 5, 0, 1000, 20], // `m` Input Filter Time Constant Value
    [118, 2, 1, 1, -1000, 1000, 0], // `v` Process Variable Offset Value
];

// DCP 100 programmer, letter `R`.
const DCP100_PROGRAMMER: [[i32; 7]; 22] = [
    [65, 2, 0, 1, 1, 16, 1], // `A` Segment Number
    [66, 2, 1, 1, 0, 1000, 0], // `B` Final Setpoint Value
    [67, 2, 2, 1, 0, 9959, 0], // `C` Segment Time/Ramp Rate
    [71, 2, 0, 1, 0, 9999, 0], // `G` Number of Cycles Programmed
    [72, 1, 0, 1, 0, 9999, 0], // `H` Number of Cycles Completed
    [73, 1, 0, 1, 1, 16, 1], // `I` Current Segment Number
    [74, 1, 2, 1, 0, 9959, 0], // `J` Segment Time Remaining
    [75, 3, 0, 1, 1, 28, 1], // `K` Programmer Commands
    [76, 1, 0, 1, 0, 9999, 0], // `L` Programmer Status 1
    [77, 1, 1, 1, 0, 1000, 0], // `M` Current Setpoint Value
    [80, 1, 0, 1, 1, 8, 1], // `P` Current Program Number
    [81, 2, 2, 1, 0, 9959, 0], // `Q` Delay
    [82, 2, 0, 1, 0, 2, 0], // `R` Preset x60 Mode
    [83, 2, 0, 1, 0, 1, 0], // `S` Power Failure Recovery
    [84, 2, 0, 1, 1, 8, 1], // `T` Program Number
    [86, 2, 1, 1, 0, 1000, 0], // `V` Hold Band Value
    [87, 1, 2, 1, 0, 9959, 0], // `W` Hold Time Value
    [88, 2, 0, 1, 0, 3, 0], // `X` Auto-Hold Type
    [89, 2, 0, 1, 0, 2, 0], // `Y` Hold On
    [91, 2, 0, 1, 0, 3, 0], // `[` External Selection Control
    [95, 2, 0, 1, 0, 1, 0], // `_` Segment Mode
    [96, 1, 0, 1, 0, 255, 0], // ``` Programmer Status 2
];

// UDI 1500, letter `L`.
const UDI1500: [[i32; 7]; 19] = [
    [65, 1, 1, 1, -1009, 5373, 0], // `A` Maximum Process Variable value
    [66, 1, 1, 1, -1009, 5373, 0], // `B` Minimum Process Variable value
    [67, 2, 1, 1, -1009, 5373, 5373], // `C` Alarm 1 value
    [68, 2, 1, 1, 1, 638, 1], // `D` Alarm 1 Hysteresis value
    [69, 2, 1, 1, -1009, 5373, -1009], // `E` Alarm 2 value
    [70, 2, 1, 1, 1, 638, 1], // `F` Alarm 2 Hysteresis value
    [71, 1, 1, 1, -1999, 9999, 5373], // `G` Scale Range Maximum
    [72, 1, 1, 1, -1999, 9999, -1009], // `H` Scale Range Minimum
    [74, 2, 1, 1, -6382, 6382, 0], // `J` Process Variable Offset value
    [76, 1, 0, 1, 0, 127, 0], // `L` Instrument Status
    [77, 1, 1, 1, -1009, 5373, 0], // `M` Process Variable value
    [78, 2, 1, 1, -1009, 5373, 5373], // `N` Alarm 3 value
    [79, 2, 1, 1, 1, 638, 1], // `O` Alarm 3 Hysteresis
    [81, 1, 0, 1, 0, 3, 1], // `Q` Scale Range Decimal Point Position
    [84, 1, 2, 1, 0, 9959, 0], // `T` Time Elapsed
    [90, 3, 0, 1, 15, 18, 15], // `Z` Instrument Commands
    [91, 2, 1, 1, -1999, 9999, 5373], // `[` Recorder Output Scale Maximum
    [92, 2, 1, 1, -1999, 9999, -1009], // `\` Recorder Output Scale Minimum
    [109, 2, 1, 5, 0, 1000, 20], // `m` Input Filter Time Constant value
];

// An instrument with so many rows: each identifier is a character code, and a scan has at most five. A scan is five bytes with 0 behind
// the last and a count, as numbers 16 to 21 of a card's row in the C interface (a `&'static [u8]` instead: the borrow check has no rule).
#[derive(Drop)]
pub struct Instrument<const ROWS: usize> {
    letter: u8,
    table: [[i32; 7]; ROWS],
    count: u8,
    scan: [u8; 5],
}

impl<const ROWS: usize> Model for Instrument<ROWS> {
    ghost Value = { Model };

    ghost view = { λ s. record { letter = s.letter; table = s.table; scan = take s.count s.scan } };

    ghost invariant = { λ s. (ROWS ≤ 128) × (are_codes s.table ≡ true) × (length (take s.count s.scan) ≡ s.count) × (s.scan ≡ padded (take s.count s.scan)) };
}

impl<const ROWS: usize> Instrument<ROWS> {
    pub fn letter(&self) -> u8
        ensures { result ≡ self.now.letter }
    {
        self.letter
    }

    // The rows of the sheet.
    pub fn sheet(&self) -> [[i32; 6]; ROWS]
        ensures { flat_map (λ row. row) result ≡ sheet_of self.now.table }
    {
        self.table.map(
            |line: [i32; 7]| -> [i32; 6]
                ensures { result ≡ take 6 line }
            {
                let [identifier, access, decimals, step, least, greatest, _] = line;
                [identifier, access, decimals, step, least, greatest]
            },
        )
    }

    // Each row's initial value, at the place of its identifier.
    pub fn values(&self) -> [i32; 128]
        ensures { result ≡ values_of self.now.table }
    {
        let mut values = [0; 128];
        for &[identifier, .., initial] in &self.table {
            values[identifier as usize] = initial;
        }
        values
    }

    // The count of the scan's identifiers.
    pub fn count(&self) -> u8
        ensures { result ≡ length self.now.scan }
    {
        self.count
    }

    // The identifiers of the scan, in order, and 0 behind them.
    pub fn scan(&self) -> [u8; 5]
        ensures { result ≡ padded self.now.scan }
    {
        self.scan
    }
}

pub fn dcp100_controller() -> Instrument<28>
    ensures { result ≡ controller }
{
    Instrument {
        letter: b'L',
        table: DCP100_CONTROLLER,
        count: 5,
        scan: *b"SMWWL",
    }
}

// The same where the instrument has one control output.
pub fn dcp100_one_output() -> Instrument<28>
    ensures { result ≡ one_output }
{
    Instrument {
        count: 4,
        scan: *b"SMWL\0",
        ..dcp100_controller()
    }
}

pub fn dcp100_programmer() -> Instrument<22>
    ensures { result ≡ programmer }
{
    Instrument {
        letter: b'R',
        table: DCP100_PROGRAMMER,
        count: 0,
        scan: [0; 5],
    }
}

pub fn udi1500() -> Instrument<19>
    ensures { result ≡ indicator }
{
    Instrument {
        letter: b'L',
        table: UDI1500,
        count: 5,
        scan: *b"MABTL",
    }
}
