// Refusals 1 to 3, the form of a network.
ghost use Rattle.std.specs.Prelude.{◌≡◌, IfOk, length};
ghost use Rattle.base.specs.Fault.{fault_of};
ghost use Rattle.network.specs.Fault.{words_fault, form_fault};

use crate::form::Form;
use crate::sizes::{SizedWords, sizes_of};
use crate::tables::Tables;
use crate::words::wrong_word;
use base::Refusal;

// 1 and 2, of the words alone.
pub fn words_form(words: &[u32]) -> Result<Form<'_>, Refusal>
    ensures fault { fault_of result ≡ words_fault words.now }
    ensures words { IfOk result (λ form. form.words.now ≡ words.now) }
{
    wrong_word(words)?;
    let sized = SizedWords {
        words,
        sizes: sizes_of(words),
    };
    sized.size_fault()?;
    Ok(Form {
        words,
        layout: sized.layout(),
    })
}

// 1 to 3, of words with a list of `count` numbers.
pub fn form_of(words: &[u32], count: usize) -> Result<Form<'_>, Refusal>
    ensures fault { fault_of result ≡ form_fault words.now count }
    ensures words { IfOk result (λ form. form.words.now ≡ words.now) }
{
    let form = words_form(words)?;
    form.count_fault(count)?;
    Ok(form)
}

// The tables of a network that 1 to 3 do not refuse.
pub fn tables_of<'a>(words: &'a [u32], numbers: &'a [f64]) -> Result<Tables<'a>, Refusal>
    ensures fault { fault_of result ≡ form_fault words.now (length numbers.now) }
    ensures words { IfOk result (λ tables. tables.words.now ≡ words.now) }
    ensures numbers { IfOk result (λ tables. tables.numbers.now ≡ numbers.now) }
{
    let form = form_of(words, numbers.len())?;
    Ok(Tables {
        words,
        numbers,
        layout: form.layout,
    })
}
