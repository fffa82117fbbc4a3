// Which list a reference means, and where it stands: among the defaults, or among the lists read so far.
#![tactic(auto)]

ghost use Rattle.std.specs.Prelude.{◌≡◌, true, false, ◌-◌, ◌*◌, ◌/◌, ◌≤◌, ◌<◌, length, MatchResult};
ghost use Rattle.refusal.specs.declared.Refusal.{Refusal};
ghost use Rattle.scaling_lists_codes.specs.Syntax.{defaults, default_for, matrix_step, size_id, matrix_id, list_number};
ghost use Rattle.scaling_lists_taken.specs.Held.{defaults_refused, entries_taken};
ghost use Rattle.scaling_lists_taken.specs.Lent.{lent_lists};

mod lent;

pub use lent::DefaultLists;
use refusal::Refusal;

// Kept: a list's number j, and the delta of a reference from it, stay plain numbers, here, where the code is read (scaling_lists_codes) and in the crates above, and their bounds
// clauses: loops count j, size and matrix are j / 6 and j % 6, and delta's bound goes by j.

impl<'a> DefaultLists<'a> {
    // Row 5: a default has not 64 entries.
    #[tactic(auto, unfolding(crate::specs::Held::defaults_refused))]
    pub fn new(
        four: &'a [u8],
        intra: &'a [u8],
        inter: &'a [u8],
    ) -> Result<DefaultLists<'a>, Refusal>
        ensures { let lent = defaults four.now intra.now inter.now in
            MatchResult result (λ d. (lent_lists d ≡ lent) × (defaults_refused lent ≡ false)) (λ e. (e ≡ Refusal.ListLengthInvalid) × (defaults_refused lent ≡ true)) }
    {
        refusal::check_list(four.len())?;
        refusal::check_list(intra.len())?;
        refusal::check_list(inter.len())?;
        Ok(DefaultLists { four, intra, inter })
    }

    // The default of list j.
    pub fn of(self, j: usize) -> &'a [u8]
        requires { j < 20 }
        ensures { (result.now ≡ default_for (lent_lists self.entry) (size_id j) (matrix_id j)) × (length result.now ≡ 64) }
    {
        if j / 6 == 0 {
            return self.four;
        }
        if matrix_of(j) < 3 {
            return self.intra;
        }
        self.inter
    }
}

// matrix_id of list j.
pub fn matrix_of(j: usize) -> usize
    requires { j < 20 }
    ensures { (result ≡ matrix_id j) × (result ≤ 5) }
{
    j % 6 * scaling_lists_codes::matrix_step(j / 6)
}

// Which list a reference from list j means, where it does not mean the default.
pub fn number_of(j: usize, delta: usize) -> usize
    requires { (j < 20) × (1 ≤ delta) × (delta ≤ matrix_id j / matrix_step (size_id j)) }
    ensures { (result ≡ list_number (size_id j) (matrix_id j - delta * matrix_step (size_id j))) × (result < j) }
{
    let step = scaling_lists_codes::matrix_step(j / 6);
    let reference = matrix_of(j) - delta * step;
    6 * (j / 6) + reference / step
}

// The list taken over by a reference from list j: 64 entries of a default, or of the lists read so far.
pub fn list_taken<'a>(
    defaults: DefaultLists<'a>,
    lists: &'a [u8; 1280],
    j: usize,
    delta: usize,
) -> &'a [u8]
    requires { (j < 20) × (delta ≤ matrix_id j / matrix_step (size_id j)) }
    ensures { (result.now ≡ entries_taken (lent_lists defaults.entry) lists.now j delta) × (length result.now ≡ 64) }
{
    if delta == 0 {
        return defaults.of(j);
    }
    let first = 64 * number_of(j, delta);
    &lists[first..first + 64]
}
