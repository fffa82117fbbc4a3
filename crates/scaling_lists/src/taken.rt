// A list taken over from a default or from one of those read.
ghost use Rattle.std.specs.Prelude.{◌≡◌, ◌+◌, ◌/◌, ◌≤◌, ◌<◌, length, IfOk};
ghost use Rattle.scaling_lists_codes.specs.Syntax.{matrix_step, size_id, matrix_id, referred, taken_over};
ghost use Rattle.scaling_lists_taken.specs.Lent.{lent_lists};
ghost use Rattle.scaling_lists.specs.Work.{listed, lists_held};

use crate::held::Lists;
use refusal::Refusal;
use scaling_lists_taken::DefaultLists;

// The list that a reference means, copied, and its DC: 16 for a default.
fn fill_referred(
    j: usize,
    delta: usize,
    defaults: DefaultLists,
    held: &Lists,
    entries: &mut [u8; 64],
) -> u8
    requires { (j < 20) × (delta ≤ matrix_id j / matrix_step (size_id j)) }
    ensures { record { entries = entries.new; dc = result } ≡ referred (lent_lists defaults.entry) (lists_held j held.now) (size_id j) (matrix_id j) delta }
{
    entries.copy_from_slice(scaling_lists_taken::list_taken(defaults, &held.entries, j, delta));
    if delta == 0 {
        return 16;
    }
    held.dcs[scaling_lists_taken::number_of(j, delta)]
}

// A list taken over: scaling_list_pred_matrix_id_delta, and the list that it means. The answer is DC and the offset behind.
pub(crate) fn taken_over(
    bytes: &[u8],
    at: usize,
    j: usize,
    defaults: DefaultLists,
    held: &Lists,
    entries: &mut [u8; 64],
) -> Result<(u8, usize), Refusal>
    requires { (j < 20) × (at ≤ 1152921504606846976) }
    ensures { (listed entries.new result ≡ taken_over (lent_lists defaults.entry) bytes.now (lists_held j held.now) (size_id j) (matrix_id j) at) × IfOk result (λ r. r.1 ≤ at + 65) }
{
    let matrix_id = scaling_lists_taken::matrix_of(j);
    let (delta, behind) = scaling_lists_codes::reference_code(bytes, j / 6, matrix_id, at)?;
    let dc = fill_referred(j, delta as usize, defaults, held, entries);
    Ok((dc, behind))
}
