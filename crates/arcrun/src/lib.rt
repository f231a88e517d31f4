// One arc and the entries of a text, the old file's or the incoming cell's: its 18 values run through them.
#![tactic(auto)]

ghost use Rattle.std.specs.Prelude.{◌≡◌, [], ◌∷◌, ◌+◌, ◌≤◌, ◌<◌, length};
ghost use Rattle.sheetlaws.specs.Sheet.{ar_next};
ghost use Rattle.meant.specs.Find.{InstanceSearch};
ghost use Rattle.meant.specs.Whom.{InSheet};
ghost use Rattle.meant.specs.Scratch.{masked, masked_word};
ghost use Rattle.arcrun.specs.Run.{entry_number, entry_state};

use meant::{Asked, amounts};

// The least fault: its event in the new file, from 0 on, its number, and its word.
#[derive(Clone, Copy)]
pub enum Least {
    Nothing,
    Fault {
        event: usize,
        number: u8,
        place: usize,
        incoming: bool,
    },
}

const CHECK: u8 = b'T';

const ADDS: u8 = b'I';

const EMPTY: u64 = 0x8000_0000_0000_0000;

// The word for a slot, nothing where its flag is 0.
fn masked_word(rows: [[u64; 3]; 6], flags: &[u8], slot: usize) -> u64
    requires { (length flags.now ≡ 18) × (slot < 18) }
    ensures { result ≡ masked_word rows flags.now slot }
{
    if flags[slot] == 0 {
        return EMPTY;
    }
    rows[slot / 3][slot % 3]
}

// Three of its words, from one slot on.
fn mask_row(rows: [[u64; 3]; 6], flags: &[u8], slot: usize) -> [u64; 3]
    requires { (length flags.now ≡ 18) × (slot + 3 ≤ 18) }
    ensures { result ≡ masked_word rows flags.now slot ∷ masked_word rows flags.now (slot + 1)
        ∷ masked_word rows flags.now (slot + 2) ∷ [] }
{
    [
        masked_word(rows, flags, slot),
        masked_word(rows, flags, slot + 1),
        masked_word(rows, flags, slot + 2),
    ]
}

// The expanded list with nothing for the slots that are not touched.
fn mask(rows: [[u64; 3]; 6], flags: &[u8]) -> [[u64; 3]; 6]
    requires { length flags.now ≡ 18 }
    ensures { result ≡ masked rows flags.now }
{
    [
        mask_row(rows, flags, 0),
        mask_row(rows, flags, 3),
        mask_row(rows, flags, 6),
        mask_row(rows, flags, 9),
        mask_row(rows, flags, 12),
        mask_row(rows, flags, 15),
    ]
}

// Takes the arc's touched values through the entry whose row stands at a place: its refusal, or 0.
pub fn run_entry<'a>(
    asked: Asked<'a>,
    entries: &[u64],
    row: usize,
    arc: usize,
    flags: &[u8],
    state: &mut [u8],
) -> u8
    requires { (InstanceSearch asked.searched.start.now asked.searched.plan.instances 12 asked.searched.places.now)
        × (ar_next asked.searched.start.now arc ≤ length asked.searched.start.now) × (InSheet asked.searched.start.now asked.whom)
        × (row + 28 ≤ length entries.now) × (length flags.now ≡ 18) × (length state.old ≡ 144) }
    ensures { let a = asked.entry in
        (result ≡ entry_number a.searched.start.now a.text.now a.searched.plan.slash a.searched.plan.instances
        entries.now row a.whom a.celltype.now arc flags.now state.old)
        × (state.new ≡ entry_state a.searched.start.now a.text.now a.searched.plan.slash a.searched.plan.instances
        entries.now row a.whom a.celltype.now arc flags.now state.old) }
{
    let entry = views::head_at(entries, row);
    if !meant::is_meant(asked, entry, arc) {
        return 0;
    }
    let rows = mask(
        amounts::expand(entries, row + 10, entry.group == CHECK, entries[row + 9]),
        flags,
    );
    let refusal = amounts::arc_refusal(state, 0, rows, entry.group == ADDS);
    if refusal.is_none() {
        amounts::write_arc(state, 0, rows, entry.group == ADDS);
    }
    refusal.unwrap_or(0)
}
