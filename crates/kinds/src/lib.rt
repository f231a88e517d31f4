// What an arc of each kind can carry (document 01, 'The part of SDF we carry' and 'The timing sheet').
#![tactic(auto)]

ghost use Rattle.std.specs.Prelude.{◌≡◌, ◌≤◌};
ghost use Rattle.kinds.specs.Kinds.{is_delay, is_check, is_kind, has_edge, has_second, has_edge2, is_signed, rows_of};

// IOPATH, INTERCONNECT, PORT.
#[tactic(auto, unfolding(crate::specs::Kinds::is_delay))]
pub fn is_delay(kind: u8) -> bool
    ensures { result ≡ is_delay kind }
{
    matches!(kind, 1..=3)
}

// SETUP to NOCHANGE.
#[tactic(auto, unfolding(crate::specs::Kinds::is_check))]
pub fn is_check(kind: u8) -> bool
    ensures { result ≡ is_check kind }
{
    matches!(kind, 11..=21)
}

// Whether there is such a kind.
#[tactic(auto, using(crate::proofs::KindLaws::known_rule_lem), unfolding(crate::specs::Kinds::known_rule))]
pub fn is_kind(kind: u8) -> bool
    ensures { result ≡ is_kind kind }
{
    is_delay(kind) || is_check(kind)
}

// Whether its first end may carry an edge.
#[tactic(auto, using(crate::proofs::KindLaws::edge_rule_lem), unfolding(crate::specs::Kinds::edge_rule))]
pub fn has_edge(kind: u8) -> bool
    ensures { result ≡ has_edge kind }
{
    kind == 1 || is_check(kind)
}

// Whether it has a second end.
#[tactic(auto, using(crate::proofs::KindLaws::second_rule_lem), unfolding(crate::specs::Kinds::second_rule))]
pub fn has_second(kind: u8) -> bool
    ensures { result ≡ has_second kind }
{
    !matches!(kind, 3 | 19 | 20) && is_kind(kind)
}

// Whether its second end may carry an edge.
#[tactic(auto, using(crate::proofs::KindLaws::edge2_rule_lem), unfolding(crate::specs::Kinds::edge2_rule))]
pub fn has_edge2(kind: u8) -> bool
    ensures { result ≡ has_edge2 kind }
{
    !matches!(kind, 19 | 20) && is_check(kind)
}

// Whether its values may be below zero.
#[tactic(auto, using(crate::proofs::KindLaws::signed_rule_lem), unfolding(crate::specs::Kinds::signed_rule))]
pub fn is_signed(kind: u8) -> bool
    ensures { result ≡ is_signed kind }
{
    is_delay(kind) || matches!(kind, 13 | 16 | 17 | 21)
}

// How many rows of values it uses.
#[tactic(auto, using(crate::proofs::KindLaws::rows_rule_lem), unfolding(crate::specs::Kinds::rows_rule, crate::specs::Kinds::is_delay, crate::specs::Kinds::is_check))]
pub fn rows_of(kind: u8) -> usize
    ensures { (result ≡ rows_of kind) × (result ≤ 6) }
{
    match kind {
        1..=3 => 6,
        13 | 16 | 18 | 21 => 2,
        11..=21 => 1,
        _ => 0,
    }
}
