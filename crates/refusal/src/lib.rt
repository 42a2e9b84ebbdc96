// Why a call is refused. A call that can be refused answers a `Result` with this error; one that writes into a buffer, how many bytes or words
// it wrote.
#![tactic(auto)]

ghost use Rattle.std.specs.Prelude.{◌≡◌};
ghost use Rattle.refusal.specs.Refusal.{number_of};

// Document 01, "Numbers given back when a call is refused", in the order of the numbers; the last is of document 02, ticket 6.
#[derive(Clone, Copy, Debug, PartialEq, Eq)]
pub enum Refusal {
    UnsoundCard,
    UnsoundSheet,
    UnsoundValues,
    WordAbove256,
    RoomTooShort,
    NotReply,
    NotMessage,
    UnsoundBus,
}

// The number that the paper gives the refusal.
impl From<Refusal> for u8 {
    ghost from_gives = { λ refusal number. number ≡ number_of refusal };

    fn from(refusal: Refusal) -> u8 {
        match refusal {
            Refusal::UnsoundCard => 1,
            Refusal::UnsoundSheet => 2,
            Refusal::UnsoundValues => 3,
            Refusal::WordAbove256 => 4,
            Refusal::RoomTooShort => 5,
            Refusal::NotReply => 6,
            Refusal::NotMessage => 7,
            Refusal::UnsoundBus => 8,
        }
    }
}
