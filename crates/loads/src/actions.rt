//! The factored actions of a set of loads: the extremes of the ten load combinations.
ghost use Rattle.std.specs.Prelude.{◌≡◌, ◌≤◌, max, ◌++◌, map, pos, ◌+ℤ◌, ◌*ℤ◌, fold, unsigned_abs};
ghost use Rattle.std.specs.Int.{int_max, int_min};
ghost use Rattle.loads.specs.Effects.{Moderate};
ghost use Rattle.loads.specs.Combinations.{weighted, rows, moments, shears, gravity_shears, greatest, least};

use crate::loads::{Force, Loads};

/// Factored actions, in tenths of kg·m and of kg: the greatest moment that pulls at the bottom, the
/// greatest one that pulls at the top, the greatest shear, and the greatest of dead and live load
/// alone, over the ten combinations at the three stations.
#[derive(Clone, Copy)]
pub struct Actions {
    pub bottom: u32,
    pub top: u32,
    pub shear: u32,
    pub gravity: u32,
    ghost none_above_its_greatest: { (bottom ≤ 3800000) × (top ≤ 3800000)
        × (shear ≤ 3800000) × (gravity ≤ 2800000) },
}

impl Actions {
    ghost use Rattle.loads.specs.Actions.{ActionsOf, Peaks};

    /// The actions of a set of loads, by the combinations of ACI 318-02, 9.2, and R-033 57.
    pub fn of(loads: &Loads) -> Actions
        ensures actions_of_the_loads { ActionsOf loads.now result }
        ensures greatest_and_met { Peaks loads.now result }
    {
        let envelope = Envelope::of(loads);
        Actions {
            bottom: envelope.moments.most.unsigned_abs(),
            top: envelope.moments.least.unsigned_abs(),
            shear: envelope.shears.size(),
            gravity: envelope.gravity.size(),
        }
    }
}

// The greatest and the least of some sums and 0.
#[derive(Clone, Copy)]
struct Extremes {
    most: i32,
    least: i32,
}

impl Extremes {
    // With some more sums.
    fn with(self, sums: &[i32]) -> Extremes
        ensures most { result.most ≡ fold int_max self.most sums.now }
        ensures least { result.least ≡ fold int_min self.least sums.now }
    {
        let mut most = self.most;
        let mut least = self.least;
        for sum in sums {
            most = most.max(*sum);
            least = least.min(*sum);
        }
        Extremes { most, least }
    }

    // Over the sums at the three stations.
    fn over(left: &[i32], mid: &[i32], right: &[i32]) -> Extremes
        ensures most { result.most ≡ greatest (left.now ++ (mid.now ++ right.now)) }
        ensures least { result.least ≡ least (left.now ++ (mid.now ++ right.now)) }
    {
        let none = Extremes { most: 0, least: 0 };
        none.with(left).with(mid).with(right)
    }

    // What is farthest from 0.
    fn size(self) -> u32
        ensures { result ≡ max (unsigned_abs self.most) (unsigned_abs self.least) }
    {
        self.most.unsigned_abs().max(self.least.unsigned_abs())
    }
}

// One effect, a moment or a shear, of the four load cases at one station.
#[derive(Clone, Copy)]
struct Effect {
    dead: i32,
    live: i32,
    wind: i32,
    earthquake: i32,
    ghost each_moderate: { Moderate dead × Moderate live × Moderate wind × Moderate earthquake },
}

impl Effect {
    // Dead and live load as they stand in the rows with wind or earthquake.
    fn gravity_part(&self) -> i32
        ensures { result ≡ pos 12 *ℤ self.now.dead +ℤ pos 10 *ℤ self.now.live }
    {
        12 * self.dead + 10 * self.live
    }

    // The ten combinations of the effect.
    fn combined(&self) -> [i32; 10]
        ensures { result ≡
            map (weighted self.now.dead self.now.live self.now.wind self.now.earthquake) rows }
    {
        let full = self.gravity_part();
        let light = 9 * self.dead;
        [
            14 * self.dead,
            12 * self.dead + 16 * self.live,
            full + 16 * self.wind,
            full + -16 * self.wind,
            full + 10 * self.earthquake,
            full + -10 * self.earthquake,
            light + 16 * self.wind,
            light + -16 * self.wind,
            light + 10 * self.earthquake,
            light + -10 * self.earthquake,
        ]
    }
}

// The ten combinations of the moments and of the shears at one station; the extremes of each are
// taken by themselves.
#[derive(Clone, Copy)]
struct Station {
    moments: [i32; 10],
    shears: [i32; 10],
}

impl Station {
    // The combinations of the forces of the four load cases.
    fn of(dead: &Force, live: &Force, wind: &Force, earthquake: &Force) -> Station
        ensures moments { result.moments
            ≡ map
            (weighted dead.now.moment live.now.moment wind.now.moment earthquake.now.moment)
            rows }
        ensures shears { result.shears
            ≡ map (weighted dead.now.shear live.now.shear wind.now.shear earthquake.now.shear)
            rows }
    {
        let moments = Effect {
            dead: dead.moment,
            live: live.moment,
            wind: wind.moment,
            earthquake: earthquake.moment,
        };
        let shears = Effect {
            dead: dead.shear,
            live: live.shear,
            wind: wind.shear,
            earthquake: earthquake.shear,
        };
        Station {
            moments: moments.combined(),
            shears: shears.combined(),
        }
    }
}

// The extremes of the moments, of the shears, and of the shears of dead and live load alone.
#[derive(Clone, Copy)]
struct Envelope {
    moments: Extremes,
    shears: Extremes,
    gravity: Extremes,
}

impl Envelope {
    // The extremes over all combinations at the three stations.
    fn of(loads: &Loads) -> Envelope
        ensures most_moment { result.moments.most ≡ greatest (moments loads.now) }
        ensures least_moment { result.moments.least ≡ least (moments loads.now) }
        ensures most_shear { result.shears.most ≡ greatest (shears loads.now) }
        ensures least_shear { result.shears.least ≡ least (shears loads.now) }
        ensures most_gravity { result.gravity.most ≡ greatest (gravity_shears loads.now) }
        ensures least_gravity { result.gravity.least ≡ least (gravity_shears loads.now) }
    {
        let Loads {
            dead,
            live,
            wind,
            earthquake,
        } = loads;
        let left = Station::of(&dead.left, &live.left, &wind.left, &earthquake.left);
        let mid = Station::of(&dead.mid, &live.mid, &wind.mid, &earthquake.mid);
        let right = Station::of(&dead.right, &live.right, &wind.right, &earthquake.right);
        Envelope {
            moments: Extremes::over(&left.moments, &mid.moments, &right.moments),
            shears: Extremes::over(&left.shears, &mid.shears, &right.shears),
            gravity: Extremes::over(&left.shears[0..2], &mid.shears[0..2], &right.shears[0..2]),
        }
    }
}
