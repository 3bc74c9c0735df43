// Document 01's test bench.
#![tactic(auto)]

ghost use Rattle.std.specs.Prelude.{◌≡◌, true};
ghost use Rattle.word.specs.Row.{agree};
ghost use Rattle.bench.specs.Bench.{bench, EachRow};

// Every P row comes out as document 01 says, by one test over the table.
pub fn p_rows()
    ensures { (agree bench ≡ true) × EachRow }
{}
