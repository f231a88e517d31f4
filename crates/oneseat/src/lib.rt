// One seat: its 18 flags and 144 bytes of values copied out of the tables, run through an entry, and copied back.
#![tactic(auto)]

ghost use Rattle.std.specs.Prelude.{◌≡◌, ◌+◌, ◌*◌, ◌≤◌, ◌<◌, length, take, drop};
ghost use Rattle.std.proofs.Math.Seq.{paste};
ghost use Rattle.sheetlaws.specs.Sheet.{ar_next};
ghost use Rattle.meant.specs.Find.{InstanceSearch};
ghost use Rattle.meant.specs.Whom.{InSheet};
ghost use Rattle.nearby.specs.Seats.{SeatRan};

use meant::Asked;

// The bytes of a seat's flags and of its values.
const FLAGS: usize = 18;

const VALUES: usize = 144;

// Copies a part of a table.
pub fn load(table: &[u8], at: usize, part: &mut [u8])
    requires { at + length part.old ≤ length table.now }
    ensures { part.new ≡ take (length part.old) (drop at table.now) }
{
    part.copy_from_slice(&table[at..at + part.len()]);
}

// Copies it back.
pub fn store(table: &mut [u8], at: usize, part: &[u8])
    requires { at + length part.now ≤ length table.old }
    ensures { table.new ≡ paste table.old at part.now (length part.now) }
{
    table[at..at + part.len()].copy_from_slice(part);
}

// Takes the values of one seat through an entry: its refusal, or 0 and they are stored.
pub fn run_seat<'a>(
    asked: Asked<'a>,
    entries: &[u64],
    row: usize,
    arc: usize,
    flags: &[u8],
    states: &mut [u8],
    seat: usize,
) -> u8
    requires { (InstanceSearch asked.searched.start.now asked.searched.plan.instances 12 asked.searched.places.now)
        × (ar_next asked.searched.start.now arc ≤ length asked.searched.start.now) × (InSheet asked.searched.start.now asked.whom)
        × (row + 28 ≤ length entries.now) × (18 * seat + 18 ≤ length flags.now) × (144 * seat + 144 ≤ length states.old) }
    ensures { let a = asked.entry in let s = a.searched in (length states.new ≡ length states.old)
        × (SeatRan s.start.now a.text.now s.plan.slash s.plan.instances entries.now
        row a.whom a.celltype.now arc flags.now states.old states.new seat result) }
{
    let mut mask = [0u8; 18];
    load(flags, FLAGS * seat, &mut mask);
    let mut state = [0u8; 144];
    load(states, VALUES * seat, &mut state);
    let number = arcrun::run_entry(asked, entries, row, arc, &mask, &mut state);
    if number == 0 {
        store(states, VALUES * seat, &state);
    }
    number
}
