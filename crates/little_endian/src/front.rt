// A list that was lent and written, against what is stored of it.
ghost use Rattle.std.specs.Prelude.{◌≡◌, ℕ, ◌<◌, ◌≤◌, length, get_or, Decides};
ghost use Rattle.std.specs.Float.{nan, binary64};
ghost use Rattle.std.specs.Float.Ieee.{to_bits};

// Whether the list has the stored bits in front, and is as it was lent behind them.
pub fn has_front(list: &[f64], stored: &[u64], lent: f64) -> bool
    ensures { Decides result ((length stored.now ≤ length list.now) × ((i : ℕ) → i < length list.now
        → to_bits binary64 (get_or list.now i nan) ≡ get_or stored.now i (to_bits binary64 lent))) }
{
    let too_short = list.len() < stored.len();
    if too_short {
        return false;
    }
    let behind = float::to_bits(lent);
    list.iter().enumerate().all(|(i, x)| float::to_bits(*x) == *stored.get(i).unwrap_or(&behind))
}
