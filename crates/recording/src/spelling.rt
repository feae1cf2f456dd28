// How bytes are written as a line of a recording.
ghost use Rattle.std.specs.Prelude.{◌≡◌, ◌+◌, ◌<◌, ◌≤◌, true, [], ◌∷◌, ◌++◌, is_ok, if◌then◌else◌, Some, string_bytes, string_len, string_capacity, slice_index};
ghost use Rattle.recording.specs.Meaning.{pairs};
ghost use Rattle.recording.specs.Spelling.{upper_digits, spelled_byte, spelled_bytes};

use std::alloc::AllocError;

const DIGITS: [u8; 16] = *b"0123456789ABCDEF";

// The upper-case digit of a value, from a table: `{:02X}` needs a formatter, and `spell` fills an array.
fn upper_digit(value: u8) -> u8
    requires { value < 16 }
    ensures { result ≡ slice_index upper_digits value }
{
    DIGITS[value as usize]
}

// The two digits of a byte, in upper case, the high one first.
#[tactic(auto, using(crate::proofs::Spelled::reads_back))]
pub fn spell(byte: u8) -> [u8; 2]
    ensures digits { result ≡ spelled_byte byte }
    ensures reads_back { pairs result ≡ Some (byte ∷ []) }
{
    [upper_digit(byte / 16), upper_digit(byte % 16)]
}

// Appends the two digits of a byte to a text that has room for them.
#[tactic(auto, using(crate::proofs::Spelled::digit_small, crate::proofs::Spelled::pushed_twice))]
fn push_pair(text: &mut String, byte: u8) -> Result<(), AllocError>
    requires { string_len text.old + 2 ≤ string_capacity text.old }
    ensures ok { is_ok result ≡ true }
    ensures bytes { string_bytes text.new ≡ string_bytes text.old ++ spelled_byte byte }
    ensures len { string_len text.new ≡ string_len text.old + 2 }
    ensures capacity { string_capacity text.old ≤ string_capacity text.new }
{
    let [high, low] = spell(byte);
    text.push(char::from(high))?;
    text.push(char::from(low))
}

// Appends the digits of the bytes to a text, which stays as it was where there is no room.
#[tactic(auto, using(crate::proofs::Spelled::all_read_back))]
pub fn push_pairs(text: &mut String, bytes: &[u8]) -> Result<(), AllocError>
    ensures bytes { string_bytes text.new ≡ (if is_ok result then string_bytes text.old ++ spelled_bytes bytes.now else string_bytes text.old) }
    ensures reads_back { pairs (spelled_bytes bytes.now) ≡ Some bytes.now }
{
    // Room comes first, and no `write!`: of one that fails the proof doesn't learn how much it wrote.
    text.reserve(bytes.len().saturating_mul(2))?;
    for b in bytes {
        push_pair(text, *b)?;
    }
    Ok(())
}
