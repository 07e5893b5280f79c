// What a pass answers: the round goes on, or how it ends.
#![tactic(auto)]

ghost use Rattle.std.specs.Prelude.{◌≡◌};
ghost use Rattle.answer.specs.Answer.{number_of};

#[derive(Clone, Copy)]
pub enum Answer {
    GoingOn,
    Won,
    Dead,
    Over,
    Quit,
}

// The number of an answer, for those who can't hold an enum.
pub fn number(answer: Answer) -> u8
    ensures { result ≡ number_of answer }
{
    match answer {
        Answer::GoingOn => 0,
        Answer::Won => 1,
        Answer::Dead => 2,
        Answer::Over => 3,
        Answer::Quit => 4,
    }
}
