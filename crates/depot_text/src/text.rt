// What is put into the text, byte by byte: the definition names the bytes, and a `write!` would add an error that can't occur.
ghost use Rattle.std.specs.Prelude.{◌≡◌, ◌+◌, ◌*◌, ◌%◌, ◌≤◌, ◌<◌, length};
ghost use Rattle.depot_text.specs.Text.{hex_digit, hex_line, hex_lines, decimal, refused_line};
ghost use Rattle.base.specs.internal.Section.{Added};
ghost use Rattle.base.specs.Refusal.{number_of};

use base::{ListWriter, Refusal};

// The last hexadecimal digit.
fn hex_digit(n: u32) -> u8
    ensures { result ≡ hex_digit (n % 16) }
{
    let d = (n % 16) as u8;
    if d < 10 { b'0' + d } else { b'A' + (d - 10) }
}

// The word's eight digits, the highest first, and the line's end.
fn hex_line(w: u32) -> [u8; 9]
    ensures { result ≡ hex_line w }
{
    let mut line = [b'\n'; 9];
    for i in 0..8usize {
        line[i] = hex_digit(w >> (28 - 4 * i));
    }
    line
}

// The words, a line each.
pub(crate) fn put_hex_lines(text: &mut ListWriter<u8>, words: &[u32])
    requires { text.old.at + 9 * length words.now ≤ length text.old.out.now }
    ensures { Added text.old (hex_lines words.now) text.new }
{
    for word in words {
        text.put(&hex_line(*word));
    }
}

fn put_decimal(text: &mut ListWriter<u8>, n: u64)
    requires { text.old.at + 20 ≤ length text.old.out.now }
    ensures { (Added text.old (decimal n) text.new) × (text.new.at ≤ text.old.at + 20) }
{
    let mut digits = [0u8; 20];
    let count = io::decimal(n, &mut digits);
    text.put(&digits[..count]);
}

pub(crate) fn put_refused(text: &mut ListWriter<u8>, refusal: Refusal)
    requires { text.old.at + 50 ≤ length text.old.out.now }
    ensures { Added text.old (refused_line (number_of refusal.reason) refusal.place) text.new }
{
    text.put(b"refused ");
    put_decimal(text, u64::from(refusal.reason.number()));
    text.put(b" ");
    put_decimal(text, refusal.place as u64);
    text.put(b"\n");
}
