// Bytes that are printed as a line of a recording writes them.
ghost use Rattle.std.specs.Prelude.{◌≡◌, ◌*◌, ◌≤◌, length, take, Some};
ghost use Rattle.std.specs.Fmt.{WritesOnOk};
ghost use Rattle.recording.specs.Spelling.{spelled_bytes};

use crate::spelling::spell;
use std::fmt;

// So many bytes are written at a time: each write costs more than the digits of a byte.
const PART: usize = 32;

// Bytes that are printed as their digits.
#[derive(Clone, Copy, Debug, PartialEq, Eq)]
pub struct Digits<'a>(pub &'a [u8]);

impl fmt::Display for Digits<'_> {
    ghost output = { λ d. Some (spelled_bytes d.0.now) };

    fn fmt<W: fmt::Write>(&self, f: &mut fmt::Formatter<W>) -> fmt::Result {
        for part in self.0.chunks(PART) {
            write_part(part, f)?;
        }
        Ok(())
    }
}

// Writes the digits of a few bytes.
fn write_part<W: fmt::Write>(bytes: &[u8], f: &mut fmt::Formatter<W>) -> fmt::Result
    requires { length bytes.now ≤ PART }
    ensures { WritesOnOk W.write_str_gives f.old result (spelled_bytes bytes.now) f.new }
{
    let mut text = [0; 2 * PART];
    let count = spell_all(bytes, &mut text);
    f.write_str(str::from_utf8(&text[..count]).unwrap())
}

// Lays the digits of a few bytes to the front of an array; how many they are.
fn spell_all(bytes: &[u8], text: &mut [u8; 2 * PART]) -> usize
    requires { length bytes.now ≤ PART }
    ensures count { result ≡ 2 * length bytes.now }
    ensures digits { take result text.new ≡ spelled_bytes bytes.now }
{
    let mut count = 0;
    for b in bytes {
        let [high, low] = spell(*b);
        text[count] = high;
        text[count + 1] = low;
        count += 2;
    }
    count
}
