ghost use Rattle.std.specs.Prelude.{◌≡◌, ◌+◌, length};
ghost use Rattle.worked.specs.Worked.{examples, moment_examples, WorkedExamples};

// How many answers to cages there are among the worked examples of the reference beam.
pub fn count_answers() -> usize
    ensures all_of_them { result ≡ length examples + length moment_examples }
    ensures worked_examples_hold { WorkedExamples }
{
    10
}
