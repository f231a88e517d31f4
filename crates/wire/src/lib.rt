// Numbers in bytes, the most significant byte first; signed ones in two's complement.
#![tactic(auto)]

ghost use Rattle.std.specs.Prelude.{◌≡◌, ◌+◌, ◌≤◌, ◌<◌, length, take, drop};
ghost use Rattle.std.proofs.Math.Seq.{paste};
ghost use Rattle.std.specs.Int.{w64};
ghost use Rattle.std.proofs.Common.{to_z, of_z};
ghost use Rattle.wire.specs.Wire.{be16, be32, be64, be_bytes};

// The bytes from a place on, as many as the array takes.
fn array_at<const N: usize>(bytes: &[u8], place: usize) -> [u8; N]
    requires { place + N ≤ length bytes.now }
    ensures { result ≡ take N (drop place bytes.now) }
{
    *bytes[place..place + N].first_chunk().unwrap()
}

// The number in two bytes.
#[tactic(auto, using(crate::proofs::Laws::be16_read))]
pub fn u16_at(bytes: &[u8], place: usize) -> usize
    requires { place + 2 ≤ length bytes.now }
    ensures { (result ≡ be16 bytes.now place) × (result < 65536) }
{
    usize::from(u16::from_be_bytes(array_at(bytes, place)))
}

// The number in four bytes.
#[tactic(auto, using(crate::proofs::Laws::be32_read))]
pub fn u32_at(bytes: &[u8], place: usize) -> usize
    requires { place + 4 ≤ length bytes.now }
    ensures { (result ≡ be32 bytes.now place) × (result < 4294967296) }
{
    u32::from_be_bytes(array_at(bytes, place)) as usize
}

// The number in eight bytes.
#[tactic(auto, using(crate::proofs::Laws::be64_read))]
pub fn u64_at(bytes: &[u8], place: usize) -> u64
    requires { place + 8 ≤ length bytes.now }
    ensures { result ≡ be64 bytes.now place }
{
    u64::from_be_bytes(array_at(bytes, place))
}

// The bits n, read as signed.
pub fn of_bits(n: u64) -> i64
    ensures { result ≡ to_z w64 n }
{
    n.cast_signed()
}

// The bits of z.
pub fn bits_of(z: i64) -> u64
    ensures { result ≡ of_z w64 z }
{
    z.cast_unsigned()
}

// The signed number in eight bytes.
pub fn read_i64(bytes: &[u8], place: usize) -> i64
    requires { place + 8 ≤ length bytes.now }
    ensures { result ≡ to_z w64 (be64 bytes.now place) }
{
    of_bits(u64_at(bytes, place))
}

// Writes a signed number into eight bytes.
pub fn write_i64(bytes: &mut [u8], place: usize, z: i64)
    requires { place + 8 ≤ length bytes.old }
    ensures { bytes.new ≡ paste bytes.old place (be_bytes (of_z w64 z)) 8 }
{
    let row = z.to_be_bytes();
    bytes[place..place + 8].copy_from_slice(&row);
}
