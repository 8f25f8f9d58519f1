//! Concrete, steel and aggregate, and what the standards give for the grades.
ghost use Rattle.std.specs.Prelude.{◌≡◌, ◌≢◌, ◌≤◌, ◌↔◌, true, slice_index, MatchOption, IsSome};
ghost use Rattle.rebar.specs.Ranges.{Within, aggregates, ends};
ghost use Rattle.rebar.specs.Grades.{concrete_grades, steel_grades, is_concrete, is_steel, grade_place, root_of, IsRoot, block_factor_of, least_ratios_2800, least_ratios_4200, least_ratio_of};

// What the standards give for a grade of concrete: the root of the grade, the factor of the stress
// block, and the least ratio of tension steel with each grade of steel.
#[derive(Clone, Copy)]
struct Grade {
    root: u32,
    block_factor: u32,
    least_ratio_2800: u32,
    least_ratio_4200: u32,
}

// By grade of concrete: 180, 210, 240, 280, 350, 420. A `static`, since a `const` is copied whole
// at each use.
static GRADES: [Grade; 6] = [
    Grade {
        root: 13416,
        block_factor: 85,
        least_ratio_2800: 29,
        least_ratio_4200: 19,
    },
    Grade {
        root: 14491,
        block_factor: 85,
        least_ratio_2800: 31,
        least_ratio_4200: 21,
    },
    Grade {
        root: 15491,
        block_factor: 85,
        least_ratio_2800: 33,
        least_ratio_4200: 22,
    },
    Grade {
        root: 16733,
        block_factor: 85,
        least_ratio_2800: 36,
        least_ratio_4200: 24,
    },
    Grade {
        root: 18708,
        block_factor: 80,
        least_ratio_2800: 40,
        least_ratio_4200: 27,
    },
    Grade {
        root: 20493,
        block_factor: 75,
        least_ratio_2800: 44,
        least_ratio_4200: 29,
    },
];

/// The grades of concrete and of steel in kg/cm², and the largest size of the aggregate in mm.
#[derive(Clone, Copy)]
pub struct Materials {
    pub concrete: u16,
    pub steel: u16,
    pub aggregate: u16,
    ghost poured: { Within (ends concrete_grades) concrete },
    ghost graded: { is_concrete concrete ≡ true },
    ghost strong: { Within (ends steel_grades) steel },
    ghost rolled: { is_steel steel ≡ true },
    ghost coarse: { Within aggregates aggregate },
}

/// Whether there is concrete of this grade, in kg/cm².
#[tactic(auto, unfolding(crate::specs::Grades::is_concrete))]
pub fn is_concrete(grade: u16) -> bool
    ensures whether_it_is_made { result ≡ is_concrete grade }
{
    matches!(grade, 180 | 210 | 240 | 280 | 350 | 420)
}

/// Whether there is steel of this grade, in kg/cm².
#[tactic(auto, unfolding(crate::specs::Grades::is_steel))]
pub fn is_steel(grade: u16) -> bool
    ensures whether_it_is_made { result ≡ is_steel grade }
{
    [2800, 4200].contains(&grade)
}

impl Materials {
    ghost use Rattle.rebar.specs.declared.materials.Materials.{Materials};

    /// These grades of concrete and steel and this aggregate, where there are such.
    #[tactic(auto, using(crate::proofs::Grades::concrete_range, crate::proofs::Grades::steel_range))]
    pub fn new(concrete: u16, steel: u16, aggregate: u16) -> Option<Materials>
        ensures materials_exactly_where_there_are { MatchOption result
            ((m : Materials) → m.concrete ≡ concrete → m.steel ≡ steel → m.aggregate ≢ aggregate)
            (λ m. (m.concrete ≡ concrete) × (m.steel ≡ steel) × (m.aggregate ≡ aggregate)) }
        ensures exactly_in_range { IsSome result
            ↔ ((is_concrete concrete ≡ true) × (is_steel steel ≡ true)
            × Within aggregates aggregate) }
    {
        if is_concrete(concrete) && is_steel(steel) && (10..=40).contains(&aggregate) {
            Some(Materials {
                concrete,
                steel,
                aggregate,
            })
        } else {
            None
        }
    }

    // What the standards give for the grade of concrete.
    #[tactic(auto, unfolding(crate::specs::Grades::is_concrete, crate::specs::Grades::grade_place, crate::specs::Grades::root_of, crate::specs::Grades::block_factor_of))]
    fn grade(&self) -> Grade
        ensures root { result.root ≡ root_of self.now.concrete }
        ensures block_factor { result.block_factor ≡ block_factor_of self.now.concrete }
        ensures least_ratio_2800 { result.least_ratio_2800
            ≡ slice_index least_ratios_2800 (grade_place self.now.concrete) }
        ensures least_ratio_4200 { result.least_ratio_4200
            ≡ slice_index least_ratios_4200 (grade_place self.now.concrete) }
        ensures at_most_the_greatest_of_each { (result.root ≤ 20493) × (result.block_factor ≤ 85)
            × (result.least_ratio_2800 ≤ 44) × (result.least_ratio_4200 ≤ 44) }
    {
        let place = match self.concrete {
            180 => 0,
            210 => 1,
            240 => 2,
            280 => 3,
            350 => 4,
            _ => 5,
        };
        GRADES[place]
    }

    /// The whole part of 1,000 times the square root of the concrete grade.
    #[tactic(auto, using(crate::proofs::Roots::root_below, crate::proofs::Roots::root_close))]
    pub fn root(&self) -> u32
        ensures root_of_the_grade { result ≡ root_of self.now.concrete }
        ensures square_just_below { IsRoot self.now.concrete result }
        ensures at_most_the_greatest_root { result ≤ 20493 }
    {
        self.grade().root
    }

    /// β, the depth of the stress block over that of the neutral axis, in hundredths (ACI 318-02,
    /// 10.2.7; R-033 79).
    pub fn block_factor(&self) -> u32
        ensures factor_of_the_grade { result ≡ block_factor_of self.now.concrete }
        ensures at_most_the_greatest_factor { result ≤ 85 }
    {
        self.grade().block_factor
    }

    /// ρ, the least ratio of tension steel, in ten-thousandths (R-033 110, Table 7).
    #[tactic(auto, unfolding(crate::specs::Grades::least_ratio_of))]
    pub fn least_ratio(&self) -> u32
        ensures ratio_of_the_grades { result ≡ least_ratio_of self.now.concrete self.now.steel }
        ensures at_most_the_greatest_ratio { result ≤ 44 }
    {
        let grade = self.grade();
        if self.steel == 2800 {
            grade.least_ratio_2800
        } else {
            grade.least_ratio_4200
        }
    }
}
