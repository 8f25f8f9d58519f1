//! The kinds of bar marks: main bars and ties.
ghost use Rattle.std.specs.Prelude.{◌≡◌};
ghost use Rattle.stock.specs.Kinds.{known, IsKindOf};

/// What a bar mark is stocked for: the bars of a face, or ties.
#[derive(Clone, Copy, Debug, PartialEq, Eq)]
pub enum Kind {
    Main,
    Tie,
}

impl Kind {
    // Whether the yard knows this mark in the kind.
    pub(crate) fn knows(self, mark: u8) -> bool
        ensures { result ≡ known self mark }
    {
        match self {
            Kind::Main => matches!(mark, 3..=11),
            Kind::Tie => matches!(mark, 3..=5),
        }
    }
}

/// A number that no kind has.
#[derive(Clone, Copy, Debug, PartialEq, Eq)]
pub struct UnknownKind(pub u8);

/// The kind with a number, where there is one: 0 main bars, 1 ties.
impl TryFrom<u8> for Kind {
    type Error = UnknownKind;

    ghost try_from_gives = { IsKindOf };

    fn try_from(number: u8) -> Result<Kind, UnknownKind>
        ensures kind_of_the_number { IsKindOf number result }
    {
        match number {
            0 => Ok(Kind::Main),
            1 => Ok(Kind::Tie),
            _ => Err(UnknownKind(number)),
        }
    }
}
