//! Diameter and area by bar mark (ASTM A615).
ghost use Rattle.std.specs.Prelude.{◌≡◌, ◌≤◌};
ghost use Rattle.rebar.specs.Marks.{bar_diameter, bar_area};
ghost use Rattle.rebar.specs.Ranges.{Within, main_marks, tie_marks};

// What bars of a mark measure: the diameter in tenths of a mm, and the area in mm².
#[derive(Clone, Copy)]
pub(crate) struct Size {
    pub(crate) diameter: u32,
    pub(crate) area: u32,
}

// By mark, from 3 to 11. A `static` and no `const`, since a `const` is copied whole at each use.
static SIZES: [Size; 9] = [
    Size {
        diameter: 95,
        area: 71,
    },
    Size {
        diameter: 127,
        area: 129,
    },
    Size {
        diameter: 159,
        area: 199,
    },
    Size {
        diameter: 191,
        area: 284,
    },
    Size {
        diameter: 222,
        area: 387,
    },
    Size {
        diameter: 254,
        area: 510,
    },
    Size {
        diameter: 287,
        area: 645,
    },
    Size {
        diameter: 323,
        area: 819,
    },
    Size {
        diameter: 358,
        area: 1006,
    },
];

// What bars of this mark measure.
pub(crate) fn size_of(mark: u8) -> Size
    requires { Within main_marks mark }
    ensures diameter { result.diameter ≡ bar_diameter mark }
    ensures area { result.area ≡ bar_area mark }
    ensures at_most_the_greatest_of_each { (result.diameter ≤ 358) × (result.area ≤ 1006) }
    ensures at_most_the_greatest_of_ties { Within tie_marks mark
        → (result.diameter ≤ 159) × (result.area ≤ 199) }
{
    SIZES[(mark - 3) as usize]
}
