// Sheets of rows, the lookup of an identifier's row in two of them, and the values that the rows allow.
// A sheet is lent as numbers, six to a row: identifier, access, decimals, step, least, greatest. The C interface lends it so, and
// `kav_lookup` shows a row as the part it stands in: no row is kept by value.
#![tactic(auto)]

ghost use Rattle.std.specs.Prelude.{◌≡◌, true, ◌&&◌, ◌+◌, ◌≤◌, length, get_or, take, drop};
ghost use Rattle.std.specs.List.{position};
ghost use Rattle.sheet.specs.Sheet.{at, rows, sound_identifier, sound_row, sound_sheet};
ghost use Rattle.sheet.specs.Lookup.{has_row, code_is, row_of, shown, from, row_lies, shown_lies};
ghost use Rattle.sheet.specs.Values.{entry_of, entry_in, is_readable, is_writable, is_read_write, fits_row, fits_place, sound_values};
ghost use Rattle.sheet.specs.Inner.{start_in, entry_by, entries, index_of, part_at, marked_row, marked, fits_once, fits_rows, seen_rows};

// Character codes, each of which may have a row and has a value.
pub const CODES: usize = 128;

// The two sheets that a card is lent: the bench's own rows hold before the maker's.
#[derive(Clone, Copy)]
pub struct Sheets<'a> {
    pub bench: &'a [i32],
    pub maker: &'a [i32],
}

// Where the row of each character code starts in the two sheets, the maker's behind the bench's; behind both where it has none.
#[derive(Clone, Copy)]
pub struct Index<'a> {
    pub sheets: Sheets<'a>,
    pub places: &'a [usize],
}

// A row by value, without its identifier. `access` stays document 01's number: the tests below promise an answer for every number.
#[derive(Clone, Copy)]
pub struct Row {
    pub access: u8,
    pub decimals: u8,
    pub step: i32,
    pub least: i32,
    pub greatest: i32,
}

// An identifier that a row may have. With `u8::try_from` the test of a sheet, part of each call that steps, takes 11 % more.
fn sound_identifier(x: i32) -> bool
    ensures { result ≡ sound_identifier x }
{
    if number::in_range(0, x, 127) {
        let c = x as u8;
        message::is_identifier(c) & (c != b'?')
    } else {
        false
    }
}

// A row by itself.
#[tactic(auto, unfolding(crate::specs::Sheet::sound_row, crate::specs::Sheet::sound_numbers))]
fn sound_row(row: &[i32; 6]) -> bool
    ensures { result ≡ sound_row row.now }
{
    let &[identifier, access, decimals, step, least, greatest] = row;
    sound_identifier(identifier)
        & number::in_range(1, access, 3)
        & number::in_range(0, decimals, 3)
        & number::in_range(1, step, 9999)
        & number::in_range(-9999, least, 9999)
        & number::in_range(-9999, greatest, 9999)
        & (least <= greatest)
        & number::is_multiple(least, step)
        & number::is_multiple(greatest, step)
}

// 0 to 64 whole rows, each sound, identifiers rising.
pub fn sound_sheet(sheet: &[i32]) -> bool
    ensures { result ≡ sound_sheet sheet.now }
{
    let (rows, left) = sheet.as_chunks::<6>();
    if (64 < rows.len()) | !left.is_empty() {
        return false;
    }
    let mut last = 0;
    for row in rows {
        if !(sound_row(row) & (last < row[0])) {
            return false;
        }
        last = row[0];
    }
    true
}

// The number is the identifier's code.
#[tactic(auto, unfolding(crate::specs::Lookup::code_is))]
fn code_is(x: i32, identifier: u8) -> bool
    ensures { result ≡ code_is x identifier }
{
    x == i32::from(identifier)
}

// The first of some rows with the identifier.
fn position(rows: &[[i32; 6]], identifier: u8) -> Option<usize>
    ensures { result ≡ position (λ r. code_is (at r 0) identifier) rows.now }
{
    rows.iter().position(|row| code_is(row[0], identifier))
}

// Where the identifier's row starts, if it has one.
fn place_in(sheet: &[i32], identifier: u8) -> Option<usize>
    ensures { result ≡ start_in sheet.now identifier }
{
    let (rows, _) = sheet.as_chunks::<6>();
    let row = position(rows, identifier)?;
    Some(6 * row)
}

// Whether the sheet has a row of the identifier.
#[tactic(auto, unfolding(crate::specs::Inner::start_in, crate::specs::Lookup::has_row))]
pub fn has_row(sheet: &[i32], identifier: u8) -> bool
    ensures { result ≡ has_row sheet.now identifier }
{
    place_in(sheet, identifier).is_some()
}

// Six numbers from a place on, or those that are left.
fn six<'a>(sheet: &'a [i32], start: usize) -> &'a [i32]
    ensures numbers { result.now ≡ take 6 (drop start sheet.now) }
    ensures lies { start ≤ length sheet.now → result.ref_ptr ≡ from sheet.entry.ref_ptr start }
{
    let start = start.min(sheet.len());
    let end = sheet.len().min(start + 6);
    &sheet[start..end]
}

// One row at the place of its identifier.
#[tactic(auto, unfolding(crate::specs::Inner::marked_row))]
fn mark_row(code: i32, place: usize, places: &mut [usize])
    ensures { places.new ≡ marked_row code place places.old }
{
    if let Ok(at) = usize::try_from(code) {
        if at < places.len() {
            places[at] = place;
        }
    }
}

// The rows of a sheet, from the last to the first: of two with one identifier the first holds. By index: of `.enumerate().rev()` the library
// has no law that says which item has which number.
fn mark(sheet: &[i32], base: usize, places: &mut [usize])
    requires { base + length sheet.now ≤ 9223372036854775807 }
    ensures { places.new ≡ marked sheet.now base places.old }
{
    let (rows, _) = sheet.as_chunks::<6>();
    for k in (0..rows.len()).rev() {
        mark_row(rows[k][0], base + 6 * k, places);
    }
}

// Six numbers by value, of which access and decimals are in range; or none.
#[tactic(auto, unfolding(crate::specs::Inner::entry_by, crate::specs::Inner::whole_row, crate::specs::Values::numbers_of))]
fn entry_by(part: &[i32]) -> Option<Row>
    ensures { result ≡ entry_by part.now }
{
    let &[_, access, decimals, step, least, greatest] = part else {
        return None;
    };
    if !(number::in_range(1, access, 3) & number::in_range(0, decimals, 3)) {
        return None;
    }
    Some(Row {
        access: access as u8,
        decimals: decimals as u8,
        step,
        least,
        greatest,
    })
}

// A sound row by value, or none.
#[tactic(auto, using(crate::proofs::Marks::sound_whole), unfolding(crate::specs::Values::entry_of, crate::specs::Inner::entry_by, crate::specs::Sheet::sound_row))]
fn entry_of(part: &[i32]) -> Option<Row>
    ensures { result ≡ entry_of part.now }
{
    if sound_row(part.as_array()?) {
        entry_by(part)
    } else {
        None
    }
}

// A value that the row allows.
#[tactic(auto, unfolding(crate::specs::Values::fits_place, crate::specs::Values::fits_row, crate::specs::Values::numbers_of))]
fn fits_place(row: &[i32; 6], value: i32) -> bool
    ensures { result ≡ fits_place row.now value }
{
    let &[_, _, _, step, least, greatest] = row;
    number::in_range(least, value, greatest) & number::is_multiple(value, step)
}

// The value at a row's code, where no row with that code was seen before; the code is seen afterwards.
#[tactic(auto, unfolding(crate::specs::Inner::fits_once, crate::specs::Inner::is_seen, crate::specs::Inner::marked_row))]
fn fits_once(row: &[i32; 6], values: &[i32; CODES], seen: &mut [bool; CODES]) -> bool
    ensures fits { result ≡ fits_once row.now values.now seen.old }
    ensures seen { seen.new ≡ marked_row (at row.now 0) true seen.old }
{
    match usize::try_from(row[0]) {
        Ok(place) if place < CODES => {
            let before = seen[place];
            seen[place] = true;
            before | fits_place(row, values[place])
        }
        _ => true,
    }
}

// The rows of a sheet, one after the other.
fn fits_rows(sheet: &[i32], values: &[i32; CODES], seen: &mut [bool; CODES]) -> bool
    ensures fits { result ≡ fits_rows (rows sheet.now) values.now seen.old }
    ensures seen { seen.new ≡ seen_rows (rows sheet.now) seen.old }
{
    let (rows, _) = sheet.as_chunks::<6>();
    let mut fits = true;
    for row in rows {
        fits &= fits_once(row, values, seen);
    }
    fits
}

impl<'a> Sheets<'a> {
    // Whether both are sound.
    pub fn are_sound(&self) -> bool
        ensures { result ≡ sound_sheet self.now.bench.now && sound_sheet self.now.maker.now }
    {
        sound_sheet(self.bench) & sound_sheet(self.maker)
    }

    // The row of an identifier, as the part of the sheet it stands in. No sheet is tested here: `lookup` and `card::check` have done
    // so before.
    pub fn find_row(&self, identifier: u8) -> &'a [i32]
        ensures numbers { result.now ≡ row_of self.now.bench.now self.now.maker.now identifier }
        ensures lies { result.ref_ptr ≡ row_lies self.now.bench.ref_ptr self.now.maker.ref_ptr self.now.bench.now self.now.maker.now identifier }
    {
        match place_in(self.bench, identifier) {
            Some(start) => six(self.bench, start),
            None => six(
                self.maker,
                place_in(self.maker, identifier).unwrap_or(self.maker.len()),
            ),
        }
    }

    // The lookup: an empty part where there is no row, or a sheet is unsound.
    #[tactic(auto, unfolding(crate::specs::Lookup::shown, crate::specs::Lookup::shown_lies))]
    pub fn lookup(&self, identifier: u8) -> &'a [i32]
        ensures numbers { result.now ≡ shown self.now.bench.now self.now.maker.now identifier }
        ensures lies { result.ref_ptr ≡ shown_lies self.now.bench.ref_ptr self.now.maker.ref_ptr self.now.bench.now self.now.maker.now identifier }
    {
        if self.are_sound() {
            self.find_row(identifier)
        } else {
            six(self.maker, self.maker.len())
        }
    }

    // The row of an identifier, by value.
    #[tactic(auto, unfolding(crate::specs::Values::entry_in))]
    pub fn find(&self, identifier: u8) -> Option<Row>
        ensures { result ≡ entry_in self.now.bench.now self.now.maker.now identifier }
    {
        entry_of(self.find_row(identifier))
    }

    // Where the row of each character code starts, for an `Index`.
    #[tactic(auto, using(crate::proofs::Marks::marked_both))]
    pub fn places(&self) -> [usize; CODES]
        ensures { result ≡ index_of self.now.bench.now self.now.maker.now }
    {
        let end = self.bench.len() + self.maker.len();
        let mut places = [end; CODES];
        mark(self.maker, self.bench.len(), &mut places);
        mark(self.bench, 0, &mut places);
        places
    }

    // The part of the two sheets that starts at a place of an index.
    #[tactic(auto, unfolding(crate::specs::Inner::part_at))]
    fn part_at(&self, place: usize) -> &'a [i32]
        ensures { result.now ≡ part_at self.now.bench.now self.now.maker.now place }
    {
        if place < self.bench.len() {
            return six(self.bench, place);
        }
        six(self.maker, place - self.bench.len())
    }

    // 128 values, each allowed by the row of its place: the first row with its code, the bench's before the maker's.
    pub fn sound_values(&self, values: &[i32]) -> bool
        ensures { result ≡ sound_values self.now.bench.now self.now.maker.now values.now }
    {
        let Some(values) = values.as_array::<CODES>() else {
            return false;
        };
        let mut seen = [false; CODES];
        let by_bench = fits_rows(self.bench, values, &mut seen);
        let by_maker = fits_rows(self.maker, values, &mut seen);
        by_bench & by_maker
    }
}

impl<'a> Index<'a> {
    // The place of an identifier; behind both sheets where the index has none.
    fn place(&self, identifier: u8) -> usize
        ensures { result ≡ get_or self.now.places.now identifier (length self.now.sheets.bench.now + length self.now.sheets.maker.now) }
    {
        match self.places.get(usize::from(identifier)) {
            Some(place) => *place,
            None => self.sheets.bench.len() + self.sheets.maker.len(),
        }
    }

    // The row of an identifier, by value. Less of it is tested than in `Sheets::find`: a run has tested the sheets.
    #[tactic(auto, unfolding(crate::specs::Inner::entry_at))]
    pub fn find(&self, identifier: u8) -> Option<Row>
        ensures { result ≡ entries self.now identifier }
    {
        entry_by(self.sheets.part_at(self.place(identifier)))
    }
}

impl Row {
    #[tactic(auto, unfolding(crate::specs::Values::is_readable))]
    pub fn is_readable(self) -> bool
        ensures { result ≡ is_readable self }
    {
        self.access != 3
    }

    #[tactic(auto, unfolding(crate::specs::Values::is_writable))]
    pub fn is_writable(self) -> bool
        ensures { result ≡ is_writable self }
    {
        self.access != 1
    }

    #[tactic(auto, unfolding(crate::specs::Values::is_read_write))]
    pub fn is_read_write(self) -> bool
        ensures { result ≡ is_read_write self }
    {
        self.access == 2
    }

    // A value that the row allows.
    #[tactic(auto, unfolding(crate::specs::Values::fits_row))]
    pub fn fits_row(self, value: i32) -> bool
        ensures { result ≡ fits_row self value }
    {
        number::in_range(self.least, value, self.greatest) & number::is_multiple(value, self.step)
    }
}
