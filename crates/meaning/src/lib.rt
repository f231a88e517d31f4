// What annotating means, and whom a cell of a file means on a sheet.
#![tactic(auto)]

ghost use Rattle.std.specs.Prelude.{◌≡◌};
ghost use Rattle.entryarcs.specs.Find.{InstanceSearch};
ghost use Rattle.meaning.specs.Whom.{whom_of, InSheet};

use entryarcs::Plan;
use entryarcs::sheetrecords::Instance;
use grammar::Cell;

// What stands below, for the crates above.
pub use entryarcs;
pub use entryarcs::{amounts, sheet, sheetrecords};

#[derive(Clone, Copy)]
pub enum Annotated {
    Done,
    Refused { number: u8, place: usize },
}

// Which instances a cell's entries apply to: the one at a place, every one of the cell's type, or none, and why.
#[derive(Clone, Copy)]
pub enum Whom {
    One(usize),
    Every,
    Nobody(u8),
}

// '12 no such instance', '13 type differs'.
pub fn whom_of(start: &[u8], text: &[u8], plan: Plan, marks: &[u32; 4096], cell: Cell) -> Whom
    requires { InstanceSearch start.now plan.instances 12 marks.now }
    ensures { (result ≡ whom_of start.now text.now plan.slash plan.instances cell) × InSheet start.now result }
{
    if cell.sort == 2 {
        return Whom::Every;
    }
    let path = names::part_of(text, cell.pathfrom, cell.pathto);
    let found = sheet::find_instance(start, plan.instances, 12, marks, path, plan.slash);
    match found {
        None => Whom::Nobody(12),
        Some(instance) => {
            let celltype = names::part_of(text, cell.typefrom, cell.typeto);
            if names::same_text(
                Instance {
                    sheet: start,
                    place: instance,
                }
                .type_name(),
                celltype,
            ) {
                return Whom::One(instance);
            }
            Whom::Nobody(13)
        }
    }
}
