// The slots of a state that are past its creatures: each should be blank.
#![tactic(auto)]

ghost use Rattle.std.specs.Prelude.{◌≡◌, ◌≤◌, length, drop};
ghost use Rattle.laws.specs.Lists.{all};
ghost use Rattle.refusal.specs.Faults.{first_fault, spare_fault};

use refusal::{Checked, Refusal};

// Each slot is blank.
pub fn all_blank<T: Copy + PartialEq>(slots: &[T], blank: T) -> bool
    ensures { result ≡ all (λ a. T.eq a blank) slots.now }
{
    slots.iter().all(|slot| *slot == blank)
}

// The first slot from n on that isn't blank.
pub fn first_spare<T: Copy + PartialEq>(slots: &[T], n: usize, blank: T) -> Checked
    requires { n ≤ length slots.now }
    ensures { result ≡ first_fault (spare_fault (λ a. T.eq a blank)) n (drop n slots.now) }
{
    for k in n..slots.len() {
        if slots[k] != blank {
            return Err(Refusal::SpareSlot(k));
        }
    }
    Ok(())
}
