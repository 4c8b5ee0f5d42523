// From the input to the text: compile's answer, or that the input is none.
ghost use Rattle.std.specs.Prelude.{◌≡◌, ◌+◌, ◌≤◌, length};
ghost use Rattle.io.specs.Counts.{IsPrefixLen};
ghost use Rattle.compile.specs.Compile.{answer_of, compiled, words_after};
ghost use Rattle.depot_text.specs.Text.{lent, network_text, output, text_after, text_length};
ghost use Rattle.base.specs.internal.Section.{Added, Wrote};

use crate::input::{formed, read_numbers, read_words};
use crate::text::{put_hex_lines, put_refused};
use base::{ListWriter, Refusal};
use compile::{Compiled, compile};

// The length of each list that compile is lent.
const LENT: usize = 512;

// The most bytes of a text: LENT lines of nine.
const LONGEST: usize = 4608;

// compile with lists of LENT each, of which the words are the caller's. Lists here are fixed: the program has no heap.
fn compile_words(
    words: &[u32],
    numbers: &[f64],
    model_words: &mut [u32],
) -> Result<Compiled, Refusal>
    requires { length model_words.old ≡ 512 }
    ensures { let ws = words.now in let xs = numbers.now in
        (answer_of result ≡ compiled ws xs lent) × (model_words.new ≡ words_after ws xs lent model_words.old) }
{
    let mut constants = [0.0; LENT];
    let mut column_lower = [0.0; LENT];
    let mut column_upper = [0.0; LENT];
    let mut start = [0.0; LENT];
    let mut row_lower = [0.0; LENT];
    let mut row_upper = [0.0; LENT];
    compile(
        words,
        numbers,
        model_words,
        &mut constants,
        &mut column_lower,
        &mut column_upper,
        &mut start,
        &mut row_lower,
        &mut row_upper,
    )
}

// The model words of a network, or its refusal.
fn put_network(text: &mut ListWriter<u8>, words: &[u32], numbers: &[f64])
    requires { text.old.at + 4608 ≤ length text.old.out.now }
    ensures { Added text.old (network_text words.now numbers.now) text.new }
{
    let mut model_words = [0u32; LENT];
    match compile_words(words, numbers, &mut model_words) {
        Ok(answer) => put_hex_lines(text, &model_words[..answer.words]),
        Err(refusal) => put_refused(text, refusal),
    }
}

fn put_output(text: &mut ListWriter<u8>, input: &[u8])
    requires { text.old.at + 4608 ≤ length text.old.out.now }
    ensures { Added text.old (output input.now) text.new }
{
    if !formed(input) {
        text.put(b"input\n");
        return;
    }
    let mut words = [0u32; 4096];
    let mut numbers = [0.0; 2048];
    let w = read_words(input, &mut words);
    let n = read_numbers(input, &mut numbers);
    put_network(text, &words[..w], &numbers[..n]);
}

// Writes the text from the list's first place on, and answers how long it is.
fn write_output(input: &[u8], out: &mut [u8]) -> usize
    requires { 4608 ≤ length out.old }
    ensures { Wrote out.old 0 (output input.now) out.new result }
{
    let mut text = ListWriter { out, at: 0 };
    put_output(&mut text, input);
    text.at
}

// Puts the text for this input into the list's front, and answers how many bytes it has. A list too short for all of it is left as it
// was, and the answer is 0; 4,608 bytes are always enough. 0 and no Option: the definition `text_length` says 0, and a caller prints so
// many bytes of the list either way.
pub fn depot(input: &[u8], text: &mut [u8]) -> usize
    ensures { (result ≡ text_length input.now text.old)
        × (text.new ≡ text_after input.now text.old) × (IsPrefixLen result text.new) }
{
    let mut space = [0u8; LONGEST];
    let n = write_output(input, &mut space);
    if text.len() < n {
        return 0;
    }
    text[..n].copy_from_slice(&space[..n]);
    n
}
