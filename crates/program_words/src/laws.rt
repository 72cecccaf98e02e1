// Words that are taken, or refused, for sure, as clauses of calls that do nothing.
ghost use Rattle.program_words.specs.Laws.{BenchLaw, CheckLaw, NoFormLaw, RunLaw};

/// The word `run` behind the program's name asks for the script.
pub fn run_law()
    ensures { RunLaw }
{}

/// The word `check` and two plain words behind the program's name ask for that check.
pub fn check_law()
    ensures { CheckLaw }
{}

/// The word `bench` and four numbers in their ranges behind the program's name ask for the model of that seed and size to be solved.
pub fn bench_law()
    ensures { BenchLaw }
{}

/// The program's name alone is refused.
pub fn no_form_law()
    ensures { NoFormLaw }
{}
