// A lent table that a run may rely on: one that refusal 10 lets pass (rule 12.2).
ghost use Rattle.std.specs.Prelude.{◌≡◌, true, false, MatchResult};
ghost use Rattle.base.specs.declared.refusal.Refusal.TheVariants.{Table};
ghost use Rattle.interpreter.specs.Table.{Good, valid_of};

use crate::validity::valid;
use base::edition::Edition;
use base::refusal::Refusal;

#[derive(Clone, Copy)]
pub struct GoodTable<'a> {
    pub n: usize,
    pub rows: &'a [u32],
    pub exits: &'a [u32],
    pub ghost good: { Good n rows.now exits.now },
}

impl<'a> GoodTable<'a> {
    // The same three, where the table is one of n regions in the edition; else refusal 10.
    pub fn checked(
        n: usize,
        rows: &'a [u32],
        exits: &'a [u32],
        edition: Edition,
    ) -> Result<GoodTable<'a>, Refusal>
        ensures { MatchResult result (λ t. (valid_of edition n rows.now exits.now ≡ true) × (t.n ≡ n) × (t.rows.now ≡ rows.now) × (t.exits.now ≡ exits.now)) (λ r. (valid_of edition n rows.now exits.now ≡ false) × (r ≡ Table)) }
    {
        if !valid(n, rows, exits, edition) {
            return Err(Refusal::Table);
        }
        Ok(GoodTable { n, rows, exits })
    }
}
