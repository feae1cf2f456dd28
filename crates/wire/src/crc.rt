// The checksum of a body.
ghost use Rattle.std.specs.Prelude.{◌≡◌, ◌<◌, ◌∷◌};
ghost use Rattle.wire.specs.Checksum.{shifted, takes, register, words, checksum_of};

const POLYNOMIAL: u16 = 0x1021;

// The register after one bit: it shifts left, the bit comes in below,
// and the polynomial is exclusive-ored in if a 1 was shifted out.
fn shift(register: u16, bit: u16) -> u16
    requires { bit < 2 }
    ensures { result ≡ shifted register bit }
{
    let next = (register % 0x8000) * 2 + bit;
    if register < 0x8000 {
        next
    } else {
        next ^ POLYNOMIAL
    }
}

// The register after the 16 bits of a word, the highest first.
#[tactic(auto, using(crate::proofs::Sums::takes_more, crate::proofs::Sums::takes_none))]
fn take_word(start: u16, word: u16) -> u16
    ensures { result ≡ takes 16 word start }
{
    let mut sum = start;
    for i in (0..16u32).rev() {
        sum = shift(sum, (word >> i) % 2);
    }
    sum
}

// The register after the words of the bytes, each low byte first.
fn take_words(start: u16, bytes: &[u8]) -> u16
    ensures { result ≡ register (words bytes.now) start }
{
    let (words, _) = bytes.as_chunks::<2>();
    words.iter().fold(start, |sum, word| take_word(sum, u16::from_le_bytes(*word)))
}

// The register after a zero word, which ends the words of a body.
fn close(register: u16) -> u16
    ensures { result ≡ takes 16 0 register }
{
    take_word(register, 0)
}

// The checksum of a body's bytes before its checksum: their words, low byte first, then a zero word.
#[tactic(auto, using(crate::proofs::Sums::sum_is))]
pub fn checksum(bytes: &[u8]) -> u16
    ensures { result ≡ checksum_of bytes.now }
{
    close(take_words(0, bytes))
}

// The checksum of a body whose parts lie apart.
#[tactic(auto, using(crate::proofs::Sums::frame_sum))]
pub fn frame_checksum(opcode: u8, words: u8, data: &[u8]) -> u16
    ensures { result ≡ checksum_of (opcode ∷ words ∷ «data».now) }
{
    let first = take_word(0, u16::from_le_bytes([opcode, words]));
    close(take_words(first, data))
}
