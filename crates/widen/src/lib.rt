// Points and tables of 32-bit numbers, from the time of the smaller sheet, made the 64-bit numbers that all calls take.
#![tactic(auto)]

ghost use Rattle.std.specs.Prelude.{◌≡◌};
ghost use Rattle.rules.specs.Old.{widen_refusal, widened};
ghost use Rattle.rules.specs.Reply.{checked_refusal};

use line::early;
use rules::{Line, Refusal};

// Puts each number of old at the front of new. Where new is the shorter, that is refusal 6, and nothing is written.
#[tactic(auto, unfolding(rules::specs::Old::widen_refusal, rules::specs::Old::widened))]
pub fn widen(old: &[i32], new: &mut [i64]) -> Result<(), Refusal>
    ensures result_value { checked_refusal result ≡ widen_refusal old.now new.old }
    ensures after { new.new ≡ widened old.now new.old }
{
    if new.len() < old.len() {
        return Err(early(6, Line::NoLine));
    }
    for i in 0..old.len() {
        new[i] = i64::from(old[i]);
    }
    Ok(())
}
