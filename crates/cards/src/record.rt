ghost use Rattle.std.specs.Prelude.{◌≡◌, ◌+◌, ◌<◌, ◌∷◌, ◌++◌, length, slice_index, MatchOption, IfSome};

// The first card of a stream and what follows it; none where the stream ends within the card.
pub(crate) fn next_card(stream: &[u8]) -> Option<(&[u8], &[u8])>
    ensures split { MatchOption result (length stream.now < 1 + slice_index stream.now 0)
        (λ x. stream.now ≡ length x.0.now ∷ (x.0.now ++ x.1.now)) }
    ensures shorter { IfSome result (λ x. length x.1.now < length stream.now) }
{
    let (bytes, rest) = stream.split_first()?;
    rest.split_at_checked(*bytes as usize)
}
