// What the network file, the model file and the refusals share: a word's two parts, and the answer type of every refusal.
#![tactic(auto)]

mod refusal;
mod section;

ghost use Rattle.std.specs.Prelude.{◌≡◌};
ghost use Rattle.base.specs.Word.{kind_of, load_of};
ghost use Rattle.base.specs.Fault.{fault, fault_of, packed};

pub use refusal::{Reason, Refusal, unless, unless_found};
pub use section::ListWriter;

// A word's kind is its top 4 bits.
pub fn kind_of(w: u32) -> u32
    ensures { result ≡ kind_of w }
{
    w >> 28
}

// A word's load is its other 28 bits.
pub fn load_of(w: u32) -> u32
    ensures { result ≡ load_of w }
{
    w & 0x0fff_ffff
}

// A check's answer as a controller shows it: the refusal's number and place, or 0 and 0 where nothing is refused.
pub fn shown<T: Drop>(answer: Result<T, Refusal>) -> (u32, usize)
    ensures { (result.0 ≡ (fault_of answer).number) × (result.1 ≡ (fault_of answer).place) }
{
    match answer {
        Ok(_) => (0, 0),
        Err(refusal) => (refusal.reason.number(), refusal.place),
    }
}

// The one number that crosses the C boundary, of any number and place.
pub fn packed_fault(number: u32, place: usize) -> u64
    ensures { result ≡ packed (fault number place) }
{
    u64::from(number) * 0x1_0000_0000 + place.min(0xffff_ffff) as u64
}

// The same of an answer.
pub fn packed<T: Drop>(answer: Result<T, Refusal>) -> u64
    ensures { result ≡ packed (fault_of answer) }
{
    let (number, place) = shown(answer);
    packed_fault(number, place)
}
