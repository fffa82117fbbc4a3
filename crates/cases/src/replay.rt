ghost use Rattle.std.specs.Prelude.{◌≡◌, ◌⊎◌, ℕ, true, false, replicate};
ghost use Rattle.std.specs.List.{FoldsTo};

// The loop over the cases of a program, which ends where a case answers that there was none.
pub fn replay_all<F: FnMut() -> bool>(mut replay: F)
    requires { F.IsAlwaysCallable replay }
    ensures { (n : ℕ) × (before after : F) × FoldsTo F.step replay (replicate n true) before × ((n ≡ 18446744073709551615) ⊎ F.step before false after) }
{
    for turn in 0..u64::MAX {
        if !replay() {
            break;
        }
    }
}
