//! The section of a beam.
ghost use Rattle.std.specs.Prelude.{◌≡◌, ◌≢◌, ◌↔◌, MatchOption, IsSome};
ghost use Rattle.rebar.specs.Ranges.{Within, widths, heights, covers};

/// A rectangular section in mm: width, height, and cover from the concrete's face to the tie.
#[derive(Clone, Copy)]
pub struct Section {
    pub width: u16,
    pub height: u16,
    pub cover: u16,
    ghost wide: { Within widths width },
    ghost high: { Within heights height },
    ghost covered: { Within covers cover },
}

impl Section {
    ghost use Rattle.rebar.specs.declared.section.Section.{Section};

    /// The section of this width, height and cover, where there is such.
    pub fn new(width: u16, height: u16, cover: u16) -> Option<Section>
        ensures section_exactly_where_there_is { MatchOption result
            ((s : Section) → s.width ≡ width → s.height ≡ height → s.cover ≢ cover)
            (λ s. (s.width ≡ width) × (s.height ≡ height) × (s.cover ≡ cover)) }
        ensures exactly_in_range { IsSome result
            ↔ (Within widths width × Within heights height × Within covers cover) }
    {
        match (width, height, cover) {
            (250..=800, 250..=900, 20..=75) => Some(Section {
                width,
                height,
                cover,
            }),
            _ => None,
        }
    }
}
