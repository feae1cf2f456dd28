// Reading and checking the value of one object.
ghost use Rattle.std.specs.Prelude.{◌≡◌, ◌⊎◌, length, take};
ghost use Rattle.dictionary.specs.Calls.{answer, read_of, memory_of};
ghost use Rattle.dictionary.specs.Checks.{write_fault};
ghost use Rattle.tables.specs.Ranges.{range_fault};
ghost use Rattle.dictionary.specs.Objects.{present, LengthAllowed, ShapeAllowed, unsigned_value, number_value};

use dictionary::{Fault, Look, Shape};

// Copies a value to the front of the memory.
pub(crate) fn copy_out(object: Look, value: &[u8], memory: &mut [u8]) -> Result<usize, Fault>
    ensures answer { result ≡ read_of (present object.access object.shape) value.now memory.old }
    ensures memory { memory.new ≡ memory_of (present object.access object.shape) value.now memory.old }
{
    object.access.readable()?;
    let length = value.len();
    if memory.len() < length {
        return Err(Fault::ShortMemory);
    }
    memory[..length].copy_from_slice(value);
    Ok(length)
}

// Whether an object takes these bytes as its value.
pub(crate) fn admit(object: Look, bytes: &[u8]) -> Result<(), Fault>
    requires { ShapeAllowed object.shape }
    ensures { result ≡ answer (write_fault (present object.access object.shape) bytes.now) tt }
{
    object.access.writable()?;
    object.shape.takes_length(bytes.len())?;
    in_range(object.shape, bytes)
}

// Whether the bytes stand for a number from low to high; a run has no range.
fn in_range(shape: Shape, bytes: &[u8]) -> Result<(), Fault>
    requires allowed { ShapeAllowed shape }
    requires length { LengthAllowed shape (length bytes.now) }
    ensures { result ≡ answer (range_fault shape bytes.now) tt }
{
    if let Shape::Number {
        signed,
        low,
        high,
        ..
    } = shape
    {
        let number = number(bytes, signed);
        if number > high {
            return Err(Fault::OverHigh);
        }
        if number < low {
            return Err(Fault::UnderLow);
        }
    }
    Ok(())
}

// The number that the first four bytes stand for, low byte first; bytes that are not there count as 0.
pub(crate) fn unsigned(bytes: &[u8]) -> u32
    ensures { result ≡ unsigned_value (take 4 bytes.now) }
{
    // By length, and not through an array of four: a copy of a few bytes costs more than all else of a write.
    match bytes {
        [] => 0,
        [a] => u32::from(*a),
        [a, b] => u32::from(u16::from_le_bytes([*a, *b])),
        [a, b, c] => u32::from_le_bytes([*a, *b, *c, 0]),
        [a, b, c, d, ..] => u32::from_le_bytes([*a, *b, *c, *d]),
    }
}

// The number that 1, 2 or 4 bytes stand for, in two's complement if signed.
fn number(bytes: &[u8], signed: bool) -> i64
    requires { (length bytes.now ≡ 1) ⊎ ((length bytes.now ≡ 2) ⊎ (length bytes.now ≡ 4)) }
    ensures { result ≡ number_value signed (length bytes.now) bytes.now }
{
    match bytes {
        [a] if signed => i64::from(a.cast_signed()),
        [a, b] if signed => i64::from(u16::from_le_bytes([*a, *b]).cast_signed()),
        [a, b, c, d] if signed => i64::from(u32::from_le_bytes([*a, *b, *c, *d]).cast_signed()),
        _ => i64::from(unsigned(bytes)),
    }
}
