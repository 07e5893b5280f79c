// The answer to 'who is there', or nobody: the index of the first and how many there are.
#![tactic(auto)]

ghost use Rattle.std.specs.Prelude.{◌≡◌, ℕ, Bool};
ghost use Rattle.found.specs.First.{first};
ghost use Rattle.found.specs.CodeTally.{Countable, counted, told_of};

#[derive(Clone, Copy, Debug, PartialEq, Eq)]
pub struct Found {
    pub index: usize,
    pub number: usize,
}

// What a scan has met so far: how many, and how many were looked at before the first of them; all, where none.
#[derive(Clone, Copy)]
pub struct Tally {
    pub first: usize,
    pub number: usize,
}

// After one more was looked at.
pub fn count_in(t: Tally, here: bool) -> Tally
    requires { Countable t }
    ensures { result ≡ counted t here }
{
    let number = t.number + here as usize;
    Tally {
        first: t.first + (number == 0) as usize,
        number,
    }
}

// What is told of it at the end.
pub fn told(t: Tally) -> Option<Found>
    ensures { result ≡ told_of t }
{
    if t.number == 0 {
        return None;
    }
    Some(Found {
        index: t.first,
        number: t.number,
    })
}

// Whoever stands at a place.
pub trait Stands {
    ghost stands: { ℕ → ℕ → Self → Bool };

    fn stands_at(&self, x: usize, y: usize) -> bool
        ensures { result ≡ stands x y self.now };
}

// The first of a lent list at (x, y) and how many are there, or nobody: one pass, which goes on counting from the first on.
pub fn who<T: Stands>(list: &[T], x: usize, y: usize) -> Option<Found>
    ensures { result ≡ first (T.stands x y) list.now }
{
    let mut met = Tally {
        first: 0,
        number: 0,
    };
    for e in list {
        met = count_in(met, e.stands_at(x, y));
    }
    told(met)
}
