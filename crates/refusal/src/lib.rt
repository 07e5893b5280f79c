// Refusals: what documents 01 and 02 call a bad input, with the number that they give it and its place.
#![tactic(auto)]

ghost use Rattle.std.specs.Prelude.{◌≡◌};
ghost use Rattle.refusal.specs.Refusal.{number_of, place_of, numbered_of};

// Why a call is refused. A cause that a creature or a slot has carries its index.
#[derive(Clone, Copy, Debug, PartialEq, Eq)]
pub enum Refusal {
    // a cell code, the ring, or line cells against trailing
    Cells,
    // the player's place, or the Cutter direction
    Player,
    // coins, needed, lives or level
    Numbers,
    // a direction command above 3
    Command,
    // in a picture, a frame that isn't 1,024 bytes
    Frame,
    // draws: wrong number, or one out of range
    Draws,
    // a new level is due and the level is 65,535
    LastLevel,
    // too many creatures
    TooMany,
    // a creature is off the grid
    OffGrid(usize),
    // on a wrong cell
    WrongCell(usize),
    // its direction or velocity is wrong
    Heading(usize),
    // it shares a Mine cell with an earlier creature
    SharedCell(usize),
    // a slot past the count isn't zeros
    SpareSlot(usize),
}

impl Refusal {
    // The number that the documents give it.
    pub fn number(self) -> u8
        ensures { result ≡ number_of self }
    {
        match self {
            Refusal::Cells => 1,
            Refusal::Player => 2,
            Refusal::Numbers => 4,
            Refusal::Command => 5,
            Refusal::Frame => 6,
            Refusal::Draws => 7,
            Refusal::LastLevel => 8,
            Refusal::TooMany => 31,
            Refusal::OffGrid(_) => 32,
            Refusal::WrongCell(_) => 33,
            Refusal::Heading(_) => 34,
            Refusal::SharedCell(_) => 35,
            Refusal::SpareSlot(_) => 36,
        }
    }

    // The index of the creature or the slot; 0 where there is none.
    pub fn at(self) -> usize
        ensures { result ≡ place_of self }
    {
        match self {
            Refusal::OffGrid(i)
            | Refusal::WrongCell(i)
            | Refusal::Heading(i)
            | Refusal::SharedCell(i)
            | Refusal::SpareSlot(i) => i,
            _ => 0,
        }
    }
}

// What a check gives: nothing, or why it refuses.
pub type Checked = Result<(), Refusal>;

// What a check gives, as numbers: for C and for traces. Both are 0 where it refuses nothing.
#[repr(C)]
#[derive(Clone, Copy, Debug, PartialEq, Eq)]
pub struct Numbered {
    pub number: u8,
    pub at: usize,
}

impl From<Checked> for Numbered {
    ghost from_gives = { λ c n. n ≡ numbered_of c };

    fn from(checked: Checked) -> Numbered {
        match checked {
            Ok(()) => Numbered { number: 0, at: 0 },
            Err(no) => Numbered {
                number: no.number(),
                at: no.at(),
            },
        }
    }
}
