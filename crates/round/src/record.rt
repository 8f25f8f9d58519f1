ghost use Rattle.std.specs.Prelude.{◌<◌, length, IfSome, MatchOption};
ghost use Rattle.round.specs.Streams.{IsCut, StartsWith};

// The first stream of some bytes, after two bytes with its length, and what follows it; none where the bytes end before.
pub(crate) fn next_stream(bytes: &[u8]) -> Option<(&[u8], &[u8])>
    ensures split { MatchOption result (IsCut bytes.now)
        (λ x. StartsWith bytes.now x.0.now x.1.now) }
    ensures shorter { IfSome result (λ x. length x.1.now < length bytes.now) }
{
    match bytes {
        [high, low, rest @ ..] => {
            rest.split_at_checked(u16::from_be_bytes([*high, *low]) as usize)
        }
        _ => None,
    }
}
