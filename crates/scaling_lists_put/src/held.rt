// A set of lists, if it is one, and each list of it.
ghost use Rattle.std.specs.Prelude.{◌≡◌, true, false, ◌<◌, length, MatchResult};
ghost use Rattle.refusal.specs.declared.Refusal.{Refusal};
ghost use Rattle.scaling_lists_taken.specs.Held.{held};
ghost use Rattle.scaling_lists_written.specs.Same.{list_at};
ghost use Rattle.scaling_lists_put.specs.Lists.{set_refused, set_lists, factor_list};

use crate::set::{HeldList, ListSet};
use refusal::Refusal;

impl<'a> ListSet<'a> {
    // Row 5: the buffers do not hold 20 lists and 20 DC numbers.
    #[tactic(auto, unfolding(crate::specs::Lists::set_refused))]
    pub fn new(lists: &'a [u8], dcs: &'a [u8]) -> Result<ListSet<'a>, Refusal>
        ensures { let refused = set_refused (length lists.now) (length dcs.now) in
            MatchResult result (λ s. (set_lists s ≡ held 20 lists.now dcs.now) × (refused ≡ false)) (λ e. (e ≡ Refusal.ListLengthInvalid) × (refused ≡ true)) }
    {
        refusal::check(
            lists.len() < 1280 || dcs.len() < 20,
            Refusal::ListLengthInvalid,
        )?;
        Ok(ListSet { lists, dcs })
    }

    pub fn list(self, j: usize) -> HeldList<'a>
        requires { j < 20 }
        ensures { factor_list result ≡ list_at (set_lists self.entry) j }
    {
        HeldList {
            entries: &self.lists[64 * j..64 * j + 64],
            dc: self.dcs[j],
        }
    }
}
