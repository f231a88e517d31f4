// Which slots of an arc an entry's values touch, and which cells may touch an arc at all.
#![tactic(auto)]

ghost use Rattle.std.specs.Prelude.{◌≡◌, ◌+◌, ◌≤◌, ◌<◌, length};
ghost use Rattle.sheetlaws.specs.Sheet.{ar_next};
ghost use Rattle.patching.specs.Scratch.{touched_flags};
ghost use Rattle.patching.specs.Meant.{may_touch};

use sheetrecords::Arc;

const SAME: u8 = 1;

const EMPTY: u64 = 0x8000_0000_0000_0000;

// Flags the slots to which an expanded list gives a number.
pub fn touch_rows(rows: [[u64; 3]; 6], flags: &mut [u8])
    requires { length flags.old ≡ 18 }
    ensures { flags.new ≡ touched_flags flags.old rows 18 }
{
    for slot in 0..18 {
        if rows[slot / 3][slot % 3] != EMPTY {
            flags[slot] = 1;
        }
    }
}

// Whether a cell of a text can touch the arc: its path is a front part of one of the arc's ends.
pub fn may_touch(start: &[u8], text: &[u8], slash: bool, from: usize, to: usize, arc: usize) -> bool
    requires { ar_next start.now arc ≤ length start.now }
    ensures { result ≡ may_touch start.now text.now slash from to arc }
{
    let path = names::part_of(text, from, to);
    let arc = Arc {
        sheet: start,
        place: arc,
    };
    if names::cmp_front_written(arc.first_end(), path, slash) == SAME {
        return true;
    }
    names::cmp_front_written(arc.second_end(), path, slash) == SAME
}
