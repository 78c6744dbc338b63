ghost use Rattle.std.specs.Prelude.{◌≡◌, ◌≤◌, ◌+◌, length};
ghost use Rattle.ioctl_bytes.specs.Fields.{i32_in, i64_in, u32_in, u64_in, with_i64, with_low, with_name, with_part, with_u32, with_u64, zeros};

use byteorder::{ByteOrder, LittleEndian};

/// The number of 32 bits at a place, its lowest byte first.
///
/// - `bytes`: those of a struct.
/// - `at`: how many bytes stand before the number; it has to stand within the bytes whole.
pub fn u32_at(bytes: &[u8], at: usize) -> u32
    requires { at + 4 ≤ length bytes.now }
    ensures { result ≡ u32_in at bytes.now }
{
    LittleEndian::read_u32(&bytes[at..])
}

/// The number of 32 bits with a sign at a place, as `u32_at`.
pub fn i32_at(bytes: &[u8], at: usize) -> i32
    requires { at + 4 ≤ length bytes.now }
    ensures { result ≡ i32_in at bytes.now }
{
    LittleEndian::read_i32(&bytes[at..])
}

/// The number of 64 bits at a place, as `u32_at`.
pub fn u64_at(bytes: &[u8], at: usize) -> u64
    requires { at + 8 ≤ length bytes.now }
    ensures { result ≡ u64_in at bytes.now }
{
    LittleEndian::read_u64(&bytes[at..])
}

/// The number of 64 bits with a sign at a place, as `u32_at`.
pub fn i64_at(bytes: &[u8], at: usize) -> i64
    requires { at + 8 ≤ length bytes.now }
    ensures { result ≡ i64_in at bytes.now }
{
    u64_at(bytes, at).cast_signed()
}

/// Writes a part at a place; all other bytes stay.
///
/// - `bytes`: those of a struct.
/// - `at`: how many bytes stand before the part, which has to fit within the bytes whole.
/// - `part`: what is to stand there.
pub fn put(bytes: &mut [u8], at: usize, part: &[u8])
    requires { at + length part.now ≤ length bytes.old }
    ensures part { bytes.new ≡ with_part at part.now bytes.old }
    ensures length { length bytes.new ≡ length bytes.old }
{
    bytes[at..at + part.len()].copy_from_slice(part);
}

/// Writes a number of 32 bits at a place, as `put`.
pub fn put_u32(bytes: &mut [u8], at: usize, number: u32)
    requires { at + 4 ≤ length bytes.old }
    ensures part { bytes.new ≡ with_u32 at number bytes.old }
    ensures length { length bytes.new ≡ length bytes.old }
{
    put(bytes, at, &number.to_le_bytes());
}

/// Writes the lowest 32 bits of a number at a place, as `put`.
pub fn put_low(bytes: &mut [u8], at: usize, number: i64)
    requires { at + 4 ≤ length bytes.old }
    ensures part { bytes.new ≡ with_low at number bytes.old }
    ensures length { length bytes.new ≡ length bytes.old }
{
    put(bytes, at, &number.to_le_bytes()[..4]);
}

/// Writes a number of 64 bits at a place, as `put`.
pub fn put_u64(bytes: &mut [u8], at: usize, number: u64)
    requires { at + 8 ≤ length bytes.old }
    ensures part { bytes.new ≡ with_u64 at number bytes.old }
    ensures length { length bytes.new ≡ length bytes.old }
{
    put(bytes, at, &number.to_le_bytes());
}

/// Writes a number of 64 bits with a sign at a place, as `put`.
pub fn put_i64(bytes: &mut [u8], at: usize, number: i64)
    requires { at + 8 ≤ length bytes.old }
    ensures part { bytes.new ≡ with_i64 at number bytes.old }
    ensures length { length bytes.new ≡ length bytes.old }
{
    put(bytes, at, &number.to_le_bytes());
}

/// Writes a name into the 32 bytes at a place, as `put`: 31 bytes of it at most, and zeros behind them.
///
/// - `name`: of any length.
pub fn put_name(bytes: &mut [u8], at: usize, name: &[u8])
    requires { at + 32 ≤ length bytes.old }
    ensures part { bytes.new ≡ with_name at name.now bytes.old }
    ensures length { length bytes.new ≡ length bytes.old }
{
    put(bytes, at, &[0; 32]);
    put(bytes, at, &name[..name.len().min(31)]);
}

/// Writes zeros over all bytes.
pub fn clear(bytes: &mut [u8])
    ensures { bytes.new ≡ zeros (length bytes.old) }
{
    bytes.fill(0);
}
