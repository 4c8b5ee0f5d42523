// Refusal 1, words: the first wrong word.
ghost use Rattle.std.specs.Prelude.{◌≡◌, ◌<◌, length};
ghost use Rattle.base.specs.Fault.{fault_of};
ghost use Rattle.network.specs.Network.{kind_before};
ghost use Rattle.network.specs.Fault.{word_right, fault_words};

use crate::word::{Kind, load_right};
use base::{Reason, Refusal, kind_of, unless};

// `before` is the count of bus words before word i.
fn word_right(words: &[u32], i: usize, before: usize) -> bool
    requires { (i < length words.now) × (before ≡ kind_before words.now 2 i) }
    ensures { result ≡ word_right words.now i }
{
    let w = words[i];
    // By number: it orders the words, and a wrong word's may be no kind's.
    let kind = kind_of(w);
    let load = load_right(before, w);
    if i == 0 {
        let header = kind == Kind::Header.number();
        return header & load;
    }
    let last = kind_of(words[i - 1]);
    let later = Kind::Bus.number() <= kind;
    let rising = last <= kind;
    later & rising & load
}

pub(crate) fn wrong_word(words: &[u32]) -> Result<(), Refusal>
    ensures { fault_of result ≡ fault_words words.now }
{
    unless(!words.is_empty(), Reason::Words, 0)?;
    let mut before = 0usize;
    for (i, w) in words.iter().enumerate() {
        unless(word_right(words, i, before), Reason::Words, i)?;
        before += usize::from(kind_of(*w) == Kind::Bus.number());
    }
    Ok(())
}
