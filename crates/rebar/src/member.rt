//! What a beam is in its building.
ghost use Rattle.std.specs.Prelude.{◌≡◌, ◌≢◌, ◌↔◌, true, MatchOption, IsSome};
ghost use Rattle.rebar.specs.Grades.{shear_factors, is_shear_factor};
ghost use Rattle.rebar.specs.Ranges.{Within, spans, ends};

/// What a beam is in its building: whether it belongs to the frame that resists earthquakes, its
/// clear span in mm, and the strength reduction factor for shear in hundredths.
#[derive(Clone, Copy)]
pub struct Member {
    pub in_frame: bool,
    pub span: u16,
    pub shear_factor: u16,
    ghost spans: { Within spans span },
    ghost reduces: { Within (ends shear_factors) shear_factor },
    ghost listed: { is_shear_factor shear_factor ≡ true },
}

/// Whether there is a shear factor of this size: 60 or 75 hundredths.
#[tactic(auto, unfolding(crate::specs::Grades::is_shear_factor))]
pub fn is_shear_factor(factor: u16) -> bool
    ensures whether_it_is_used { result ≡ is_shear_factor factor }
{
    [60, 75].contains(&factor)
}

impl Member {
    ghost use Rattle.rebar.specs.declared.member.Member.{Member};

    /// A member of this span and shear factor, in the frame or not, where there is such.
    #[tactic(auto, using(crate::proofs::Grades::shear_factor_range))]
    pub fn new(in_frame: bool, span: u16, shear_factor: u16) -> Option<Member>
        ensures member_exactly_where_there_is { MatchOption result
            ((m : Member) → m.span ≡ span → m.shear_factor ≢ shear_factor)
            (λ m. (m.in_frame ≡ in_frame) × (m.span ≡ span) × (m.shear_factor ≡ shear_factor)) }
        ensures exactly_in_range { IsSome result
            ↔ (Within spans span × (is_shear_factor shear_factor ≡ true)) }
    {
        if (1000..=12000).contains(&span) && is_shear_factor(shear_factor) {
            Some(Member {
                in_frame,
                span,
                shear_factor,
            })
        } else {
            None
        }
    }
}
