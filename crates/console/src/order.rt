//! The first order of a stream, as a call of the sheet.
ghost use Rattle.std.specs.Prelude.{◌≡◌, ◌<◌, true, length, IfNone, MatchOption};
ghost use Rattle.console.specs.Orders.{Begins, NoOrder, is_letter, begins_known};

use sheet::call::Call;

// The longest order: a letter, a place, a length, and a card of 255 bytes.
pub(crate) const LONGEST_ORDER: usize = 258;

// Whether an order begins with this letter.
pub(crate) fn is_letter(letter: u8) -> bool
    ensures { result ≡ is_letter letter }
{
    matches!(letter, b'E' | b'K' | b'X' | b'S' | b'D')
}

// The call of the first order of a stream, and what follows the order; none where the letter is unknown
// or the order is cut. The numbers of the call are the stream's bytes, whatever they are.
pub(crate) fn next_call(stream: &[u8]) -> Option<(Call<'_>, &[u8])>
    ensures first_order { MatchOption result
        (NoOrder stream.now) (λ x. Begins stream.now x.0 x.1.now) }
    ensures cut_before_the_longest { IfNone result
        (begins_known stream.now ≡ true → length stream.now < LONGEST_ORDER) }
{
    match stream {
        [b'S', kind, mark, value, rest @ ..] => {
            let call = Call::Stock {
                kind: *kind,
                mark: *mark,
                is_in: *value != 0,
            };
            Some((call, rest))
        }
        [b'E', place, bytes, rest @ ..] => {
            let (card, rest) = rest.split_at_checked(*bytes as usize)?;
            Some((
                Call::Enter {
                    place: *place,
                    card,
                },
                rest,
            ))
        }
        [b'K', place, bytes, rest @ ..] => {
            let (card, rest) = rest.split_at_checked(*bytes as usize)?;
            Some((
                Call::Correct {
                    place: *place,
                    card,
                },
                rest,
            ))
        }
        [b'X', place, rest @ ..] => Some((Call::Strike { place: *place }, rest)),
        [b'D', place, rest @ ..] => Some((Call::Design { place: *place }, rest)),
        _ => None,
    }
}
