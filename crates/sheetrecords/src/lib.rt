// The records of a timing sheet that was checked: the fields and the values of an instance or an arc.
#![tactic(auto)]

ghost use Rattle.std.specs.Prelude.{◌≡◌, ◌+◌, ◌*◌, ◌-◌, ◌≤◌, ◌<◌, length};
ghost use Rattle.std.proofs.Math.Seq.{paste};
ghost use Rattle.std.specs.Int.{w64};
ghost use Rattle.std.proofs.Common.{to_z, of_z};
ghost use Rattle.wire.specs.Wire.{be64, be_bytes};
ghost use Rattle.sheetparts.specs.Form.{key_at, values_at, path_at, type_at};
ghost use Rattle.sheetlaws.specs.Sheet.{ar_next, in_end, place};

// An instance of a sheet, at its place: it is there whole.
#[derive(Clone, Copy)]
pub struct Instance<'a> {
    pub sheet: &'a [u8],
    pub place: usize,
    pub ghost whole: { in_end sheet.now place ≤ length sheet.now },
}

impl<'a> Instance<'a> {
    pub fn path(self) -> &'a [u8]
        ensures { result.now ≡ path_at self.entry.sheet.now self.entry.place }
    {
        let start = self.place + 4;
        let end = start + sheetparts::path_len(self.sheet, self.place);
        &self.sheet[start..end]
    }

    pub fn type_name(self) -> &'a [u8]
        ensures { result.now ≡ type_at self.entry.sheet.now self.entry.place }
    {
        let start = self.place + 6 + sheetparts::path_len(self.sheet, self.place);
        let end = start + sheetparts::type_len(self.sheet, self.place);
        &self.sheet[start..end]
    }

    // The place behind it.
    pub fn next(self) -> usize
        ensures { result ≡ in_end self.entry.sheet.now self.entry.place }
    {
        let m = sheetparts::path_len(self.sheet, self.place);
        let n = sheetparts::type_len(self.sheet, self.place);
        self.place + 6 + m + n
    }
}

// An arc of a sheet, at its place: it is there whole.
#[derive(Clone, Copy)]
pub struct Arc<'a> {
    pub sheet: &'a [u8],
    pub place: usize,
    pub ghost whole: { ar_next sheet.now place ≤ length sheet.now },
}

impl<'a> Arc<'a> {
    pub fn kind(self) -> u8
        ensures { result ≡ (key_at self.entry.sheet.now self.entry.place).kind }
    {
        self.sheet[self.place + 2]
    }

    pub fn edge(self) -> u8
        ensures { result ≡ (key_at self.entry.sheet.now self.entry.place).edge }
    {
        self.sheet[self.place + 3]
    }

    pub fn edge2(self) -> u8
        ensures { result ≡ (key_at self.entry.sheet.now self.entry.place).edge2 }
    {
        let m = sheetparts::first_len(self.sheet, self.place);
        self.sheet[self.place + 6 + m]
    }

    pub fn first_end(self) -> &'a [u8]
        ensures { result.now ≡ (key_at self.entry.sheet.now self.entry.place).first }
    {
        let start = self.place + 6;
        let end = start + sheetparts::first_len(self.sheet, self.place);
        &self.sheet[start..end]
    }

    pub fn second_end(self) -> &'a [u8]
        ensures { result.now ≡ (key_at self.entry.sheet.now self.entry.place).second }
    {
        let start = self.place + 9 + sheetparts::first_len(self.sheet, self.place);
        let end = start + sheetparts::second_len(self.sheet, self.place);
        &self.sheet[start..end]
    }

    // Where its values start.
    pub fn values(self) -> usize
        ensures { result ≡ values_at self.entry.sheet.now self.entry.place }
    {
        let m = sheetparts::first_len(self.sheet, self.place);
        let n = sheetparts::second_len(self.sheet, self.place);
        self.place + 9 + m + n
    }

    // The place behind it.
    pub fn next(self) -> usize
        ensures { result ≡ ar_next self.entry.sheet.now self.entry.place }
    {
        self.values() + 144
    }
}

pub fn value_get(sheet: &[u8], values: usize, slot: usize) -> i64
    requires { (values + 144 ≤ length sheet.now) × (slot < 18) }
    ensures { result ≡ to_z w64 (be64 sheet.now (values + 8 * slot)) }
{
    wire::read_i64(sheet, values + 8 * slot)
}

pub fn value_set(sheet: &mut [u8], values: usize, slot: usize, value: i64)
    requires { (values + 144 ≤ length sheet.old) × (slot < 18) }
    ensures { sheet.new ≡ paste sheet.old (values + 8 * slot) (be_bytes (of_z w64 value)) 8 }
{
    wire::write_i64(sheet, values + 8 * slot, value);
}
