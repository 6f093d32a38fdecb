// Rule 11: the sizes of what is to be packed against the room of all terms.
#![tactic(auto)]

mod bins;
mod sizes;
mod thresholds;

ghost use Rattle.std.specs.Prelude.{◌≡◌};
ghost use Rattle.frame.specs.State.{year_in, step_in, step_of};
ghost use Rattle.rules.specs.Packing.{rule11};
ghost use Rattle.rules.specs.Round.{once};
ghost use Rattle.rules.specs.Spares.{up};
ghost use Rattle.packing.specs.Sizes.{unpackable};

use frame::State;
use rules::Rule;
use thresholds::Load;
use year::Credits;

// Some term is over its high credits already, or the sizes are too much for all terms together.
fn unpackable(s: &State, rising: &[u8]) -> bool
    requires from_lightest { rising.now ≡ up (year_in s.now) }
    ensures { result ≡ unpackable (year_in s.now) }
{
    if bins::bursting(s) {
        return true;
    }
    // with no open course only the terms are to be packed, and each fits where it is
    if totals::none_open(s.terms, &s.sums) {
        return false;
    }
    let c = bins::room(s);
    if c.0 == 0 {
        return false;
    }
    let course = sizes::course_sizes(s);
    let own = sizes::term_sizes(s, c);
    thresholds::overfull(Load {
        course: &course[..s.courses],
        rising,
        heaviest: orders::heaviest(s.weight, &rising[..s.courses]),
        own: &own[..s.terms],
        c,
        limit: Credits(s.terms as u32 * c.0),
    })
}

// Rule 11, once for the year: it alters nothing. `rising` is its courses from lightest to heaviest.
pub fn rule_11(s: &State, rising: &[u8]) -> Result<(), Rule>
    requires from_lightest { rising.now ≡ up (year_in s.now) }
    ensures { step_of s.now result ≡ once rule11 (step_in s.now) }
{
    if unpackable(s, rising) {
        return Err(Rule::Packing);
    }
    Ok(())
}
