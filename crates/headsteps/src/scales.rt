// What a header says of its time scale. It stands apart from lib.rt since specs/Steps.antt speaks of it: a struct with a ghost field rests on
// all that its file's `ghost use` lines name.

ghost use Rattle.std.specs.Prelude.{◌≤◌};

use grammar::Hand;

// A time scale, 10 ^ unit femtoseconds, and the place behind it.
#[derive(Clone, Copy)]
pub struct Scale {
    pub unit: u8,
    pub end: usize,
    ghost most: { unit ≤ 17 },
}

// What TIMESCALE says, 10 ^ unit femtoseconds; and the token in hand behind it.
#[derive(Clone, Copy)]
pub struct Scaled {
    pub hand: Hand,
    pub unit: u8,
    ghost most: { unit ≤ 17 },
}
