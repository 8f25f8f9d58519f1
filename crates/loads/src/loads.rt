//! Moments and shears of the four load cases at the three stations of a beam.
ghost use Rattle.std.specs.Prelude.{◌≡◌};
ghost use Rattle.loads.specs.Effects.{Moderate, moderate};

/// A moment in kg·m and a shear in kg, each from -100,000 to 100,000.
#[derive(Clone, Copy)]
pub struct Force {
    pub moment: i32,
    pub shear: i32,
    ghost bends: { Moderate moment },
    ghost cuts: { Moderate shear },
}

/// What one load case does at the left face, at midspan and at the right face.
#[derive(Clone, Copy)]
pub struct Case {
    pub left: Force,
    pub mid: Force,
    pub right: Force,
}

/// What each of the four load cases does.
#[derive(Clone, Copy)]
pub struct Loads {
    pub dead: Case,
    pub live: Case,
    pub wind: Case,
    pub earthquake: Case,
}

/// The four load cases: D, L, W and E of the load combinations.
#[derive(Clone, Copy)]
pub enum LoadCase {
    Dead,
    Live,
    Wind,
    Earthquake,
}

/// Whether a moment in kg·m or a shear in kg is within the limits of a force.
pub fn is_moderate(effect: i32) -> bool
    ensures whether_it_is_within_the_limits { result ≡ moderate effect }
{
    (-100_000..=100_000).contains(&effect)
}

impl Force {
    /// Neither moment nor shear.
    pub const NONE: Force = Force {
        moment: 0,
        shear: 0,
    };
}

impl Case {
    /// A load case that does not act.
    pub const NONE: Case = Case {
        left: Force::NONE,
        mid: Force::NONE,
        right: Force::NONE,
    };
}
