ghost use Rattle.std.specs.Prelude.{◌≡◌, false, IsTrue, MatchResult};
ghost use Rattle.books.specs.Rules.{answer_of};

/// An article that does not hold, by its number.
#[derive(Clone, Copy)]
pub struct Broken {
    pub article: u8,
}

/// Asks an article: nothing where it holds, else its number. A book asks its articles in their order, each with `?`.
pub fn ask(article: u8, holds: bool) -> Result<(), Broken>
    ensures broken_exactly_where_it_does_not_hold { MatchResult result
        (λ _. IsTrue holds) (λ broken. (holds ≡ false) × (broken.article ≡ article)) }
{
    if holds {
        Ok(())
    } else {
        Err(Broken { article })
    }
}

/// What a book answers when it has asked its articles: 0, or the number of the broken one.
pub fn answer(asked: Result<(), Broken>) -> u8
    ensures number_of_the_broken_or_0 { result ≡ answer_of asked }
{
    match asked {
        Ok(()) => 0,
        Err(broken) => broken.article,
    }
}
