// Swapping one cell of a file that was read (document 01, 'Patching'): what is swapped, the lesser of two faults, and how an arc's values are written.
#![tactic(auto)]

ghost use Rattle.std.specs.Prelude.{◌≡◌, ◌+◌, ◌≤◌, length};
ghost use Rattle.meant.specs.Scratch.{back_written};
ghost use Rattle.swaparcs.specs.Loops.{better_of, is_fault};

use arcrun::Least;

// What is swapped: the number of the outgoing cell, from 0 on, among so many; how many entries stand before it, how many go and how many come.
#[derive(Clone, Copy)]
pub struct Swap {
    pub outgoing: usize,
    pub cells: usize,
    pub before: usize,
    pub leaving: usize,
    pub coming: usize,
}

// Whether there is a fault.
pub fn is_fault(least: Least) -> bool
    ensures { result ≡ is_fault least }
{
    match least {
        Least::Nothing => false,
        Least::Fault { .. } => true,
    }
}

// The lesser of two faults, by event and then by number; the first, if they are equal.
pub fn better(a: Least, b: Least) -> Least
    ensures { result ≡ better_of a b }
{
    match (a, b) {
        (Least::Nothing, _) => b,
        (_, Least::Nothing) => a,
        (
            Least::Fault { event, number, .. },
            Least::Fault {
                event: event2,
                number: number2,
                ..
            },
        ) => {
            if event2 < event || event2 == event && number2 < number {
                return b;
            }
            a
        }
    }
}

// Writes the touched values of an arc from its run to the current sheet.
pub fn write_back(current: &mut [u8], at: usize, state: &[u8], flags: &[u8])
    requires { (at + 144 ≤ length current.old) × (length state.now ≡ 144) × (length flags.now ≡ 18) }
    ensures { current.new ≡ back_written current.old at state.now flags.now 18 }
{
    for slot in 0..18 {
        if flags[slot] != 0 {
            let word = wire::u64_at(state, 8 * slot);
            wire::write_i64(current, at + 8 * slot, wire::of_bits(word));
        }
    }
}
