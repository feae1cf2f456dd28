// Texts of digit pairs, and the bytes that they spell.
ghost use Rattle.std.specs.Prelude.{◌≡◌, ◌<◌, ◌≤◌, true, length, is_some, IfSome, option_map};
ghost use Rattle.recording.specs.Meaning.{digit_value, joined, pairs, spelled, spelling};

// A line may have so many characters, its line feed not counted.
const LONGEST_LINE: usize = 4096;

// The bytes that the longest line can spell.
pub const MOST_BYTES: usize = LONGEST_LINE / 2;

// The bytes of a text of digit pairs, one at a time: 2,048 at most. Equal ones have the same characters.
#[derive(Clone, Copy, Debug, PartialEq, Eq)]
pub struct Pairs<'a> {
    text: &'a [u8],
    ghost few: { length text.now ≤ 4096 },
    ghost whole: { is_some (pairs text.now) ≡ true },
}

impl<'a> Pairs<'a> {
    ghost use Rattle.recording.specs.Reading.{left};

    // The bytes of a text, if it is digit pairs and no longer than a line.
    #[tactic(auto, using(crate::proofs::Couples::long_bad, crate::proofs::Couples::other_bad, crate::proofs::Couples::short_spelled))]
    pub(crate) fn new(text: &'a [u8]) -> Option<Pairs<'a>>
        ensures { spelled (option_map left result) ≡ spelling text.now }
    {
        if text.len() > LONGEST_LINE || !are_pairs(text) {
            return None;
        }
        Some(Pairs { text })
    }

    // How many bytes are left.
    #[tactic(auto, using(crate::proofs::Couples::whole_length))]
    pub fn len(&self) -> usize
        ensures bytes { result ≡ length (left self.now) }
        ensures few { result ≤ MOST_BYTES }
        ensures most { MOST_BYTES ≡ 2048 }
    {
        self.text.len() / 2
    }
}

impl Iterator for Pairs<'_> {
    ghost use Rattle.std.specs.Iterator.{YieldsFirst, item_count};
    ghost use Rattle.recording.specs.Reading.{left};

    type Item = u8;

    ghost next_gives = { YieldsFirst left };

    ghost remaining = { item_count left };

    fn next(&mut self) -> Option<u8> {
        let [high, low, rest @ ..] = self.text else {
            return None;
        };
        self.text = rest;
        pair(*high, *low)
    }
}

// The value of a hexadecimal digit. The project names this form: characters matched as literals.
fn digit(character: u8) -> Option<u8>
    ensures value { result ≡ digit_value character }
    ensures small { IfSome result (λ d. d < 16) }
{
    match character {
        b'0' => Some(0),
        b'1' => Some(1),
        b'2' => Some(2),
        b'3' => Some(3),
        b'4' => Some(4),
        b'5' => Some(5),
        b'6' => Some(6),
        b'7' => Some(7),
        b'8' => Some(8),
        b'9' => Some(9),
        b'A' | b'a' => Some(10),
        b'B' | b'b' => Some(11),
        b'C' | b'c' => Some(12),
        b'D' | b'd' => Some(13),
        b'E' | b'e' => Some(14),
        b'F' | b'f' => Some(15),
        _ => None,
    }
}

// The byte of two digits, the high one first.
fn pair(high: u8, low: u8) -> Option<u8>
    ensures { result ≡ joined (digit_value high) (digit_value low) }
{
    let h = digit(high)?;
    let l = digit(low)?;
    Some(h * 16 + l)
}

// Whether a couple of characters is a pair of digits.
fn is_pair(couple: &[u8; 2]) -> bool
    ensures { result ≡ is_some (pairs couple.now) }
{
    let [high, low] = *couple;
    pair(high, low).is_some()
}

// Whether a text is digit pairs.
fn are_pairs(text: &[u8]) -> bool
    ensures { result ≡ is_some (pairs text.now) }
{
    let (couples, odd) = text.as_chunks::<2>();
    odd.is_empty() && couples.iter().all(is_pair)
}
