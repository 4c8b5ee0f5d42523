// The input's form, and the two lists that it holds.
ghost use Rattle.std.specs.Prelude.{◌≡◌, true, ◌+◌, ◌*◌, ◌≤◌, ◌<◌, length, take};
ghost use Rattle.little_endian.specs.Bytes.{word_at};
ghost use Rattle.depot_text.specs.Input.{formed, input_words, input_numbers};

use little_endian::{number_at, word_at};

// The most bytes.
const LARGEST: usize = 16384;

// A count, from byte `at` on.
fn count_at(bytes: &[u8], at: usize) -> usize
    requires { at + 4 ≤ length bytes.now }
    ensures { (result ≡ word_at bytes.now at) × (result < 4294967296) }
{
    word_at(bytes, at) as usize
}

// Whether the length is that which the counts need, and within the limits.
pub(crate) fn formed(bytes: &[u8]) -> bool
    ensures { result ≡ formed bytes.now }
{
    if bytes.len() < 8 {
        return false;
    }
    let too_long = bytes.len() > LARGEST;
    if too_long {
        return false;
    }
    bytes.len() == 8 + 4 * count_at(bytes, 0) + 8 * count_at(bytes, 4)
}

// Puts the words into the list's front, and answers how many there are: the program has no heap, so no Vec. Apart from `read_numbers`,
// since a function for both would take a closure, with a bound and a clause that are longer than both bodies.
pub(crate) fn read_words(bytes: &[u8], words: &mut [u32]) -> usize
    requires { (formed bytes.now ≡ true) × (4096 ≤ length words.old) }
    ensures { (take result words.new ≡ input_words bytes.now) × (result ≤ length words.new) }
{
    let count = count_at(bytes, 0);
    for i in 0..count {
        words[i] = word_at(bytes, 8 + 4 * i);
    }
    count
}

// Reads the numbers, as `read_words` reads the words.
pub(crate) fn read_numbers(bytes: &[u8], numbers: &mut [f64]) -> usize
    requires { (formed bytes.now ≡ true) × (2048 ≤ length numbers.old) }
    ensures { (take result numbers.new ≡ input_numbers bytes.now) × (result ≤ length numbers.new) }
{
    let first = 8 + 4 * count_at(bytes, 0);
    let count = count_at(bytes, 4);
    for i in 0..count {
        numbers[i] = number_at(bytes, first + 8 * i);
    }
    count
}
