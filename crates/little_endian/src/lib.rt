// Numbers of 32 and 64 bits from a list of bytes, the lowest byte first.
#![tactic(auto)]

mod front;
mod records;

ghost use Rattle.std.specs.Prelude.{◌≡◌, ◌+◌, ◌*◌, ◌≤◌, ◌<◌, length};
ghost use Rattle.std.specs.Float.{binary64};
ghost use Rattle.std.specs.Float.Ieee.{of_bits};
ghost use Rattle.little_endian.specs.Bytes.{word_at, bits_at, number_at, record_word, record_bits};

pub use front::has_front;
pub use records::Records;

// 32 bits, little-endian.
#[tactic(auto, unfolding(crate::specs::Bytes::word_at))]
pub fn word_at(bytes: &[u8], at: usize) -> u32
    requires { at + 4 ≤ length bytes.now }
    ensures { result ≡ word_at bytes.now at }
{
    u32::from_le_bytes(*bytes[at..].first_chunk().unwrap())
}

// 64 bits, little-endian.
pub fn bits_at(bytes: &[u8], at: usize) -> u64
    requires { at + 8 ≤ length bytes.now }
    ensures { result ≡ bits_at bytes.now at }
{
    u64::from_le_bytes(*bytes[at..].first_chunk().unwrap())
}

pub fn number_at(bytes: &[u8], at: usize) -> f64
    requires { at + 8 ≤ length bytes.now }
    ensures { result ≡ number_at bytes.now at }
{
    float::from_bits(bits_at(bytes, at))
}

// Word i of a record that starts at word `at`; 0 past the last whole word.
#[tactic(auto, unfolding(crate::specs::Bytes::record_word))]
pub fn record_word(bytes: &[u8], at: usize, i: usize) -> u32
    ensures { result ≡ record_word bytes.now at i }
{
    let words = bytes.len() / 4;
    if at < words && i < words - at {
        word_at(bytes, (at + i) * 4)
    } else {
        0
    }
}

pub fn record_number(bytes: &[u8], at: usize, i: usize) -> usize
    ensures { (result ≡ record_word bytes.now at i) × (result < 4294967296) }
{
    record_word(bytes, at, i) as usize
}

// A stored record, of words of 32 bits or of 64.
#[derive(Clone, Copy, Debug)]
pub struct Record<'a> {
    pub bytes: &'a [u8],
}

impl Record<'_> {
    pub fn word(self, i: usize) -> u32
        ensures { result ≡ record_word self.entry.bytes.now 0 i }
    {
        record_word(self.bytes, 0, i)
    }

    pub fn number(self, i: usize) -> usize
        ensures { (result ≡ record_word self.entry.bytes.now 0 i) × (result < 4294967296) }
    {
        record_number(self.bytes, 0, i)
    }

    // The i-th 64 bits; 0 past the last whole ones.
    #[tactic(auto, unfolding(crate::specs::Bytes::record_bits))]
    pub fn bits(self, i: usize) -> u64
        ensures { result ≡ record_bits self.entry.bytes.now i }
    {
        if i < self.bytes.len() / 8 {
            bits_at(self.bytes, i * 8)
        } else {
            0
        }
    }

    pub fn float(self, i: usize) -> f64
        ensures { result ≡ of_bits binary64 (record_bits self.entry.bytes.now i) }
    {
        float::from_bits(self.bits(i))
    }
}
