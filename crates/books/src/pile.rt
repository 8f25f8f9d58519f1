ghost use Rattle.std.specs.Prelude.{◌≡◌};
ghost use Rattle.books.specs.Rules.{PassesExactly, RefusesExactly};
ghost use Rattle.books.specs.Pile.{framed_answer, framed_articles_for};

use crate::book::Book;
use crate::frame::Frame;
use crate::general::General;
use rebar::beam::Beam;
use rebar::cage::Cage;

/// The pile of the product: the frame layer over the general book. What it answers is told by `check_framed`.
pub const STANDARD_PILE: Frame<General> = Frame { below: General };

/// What the frame layer over the general book answers, told by the articles of both in one list.
pub fn check_framed(pile: &Frame<General>, beam: &Beam, cage: &Cage) -> u8
    ensures answers_its_meaning { result ≡ framed_answer pile.now beam.now cage.now }
    ensures passes_exactly_when_every_article_holds { PassesExactly
        (framed_articles_for beam.now cage.now) result }
    ensures refusal_names_the_first_broken_article { RefusesExactly
        (framed_articles_for beam.now cage.now) result }
{
    pile.check(beam, cage)
}
