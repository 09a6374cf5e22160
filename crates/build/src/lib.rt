// The builder: the rows of a line's strip tree, written into a lent table. A refused build writes nothing, and numbers
// past the rows stay unchanged.
#![tactic(auto)]

mod rows;

ghost use Rattle.std.specs.Prelude.{◌≡◌};
ghost use Rattle.rules.specs.Build.{build_refusal, built_table};
ghost use Rattle.rules.specs.Reply.{checked_refusal};

use build_checks::check;
use rules::Refusal;

pub fn build(points: &[i64], table: &mut [i64]) -> Result<(), Refusal>
    ensures result_value { checked_refusal result ≡ build_refusal points.now table.old }
    ensures table_after { table.new ≡ built_table points.now table.old }
{
    check(points, table.len())?;
    let last = points.len() / 2 - 1;
    rows::build_node(&points, 0, last, table);
    Ok(())
}
