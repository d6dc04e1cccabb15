//! What the statuses of `worker` mean, as laws of how it ends.
ghost use Rattle.std.specs.Prelude.{◌≡◌, ◌≤◌, ◌⊎◌, ◌++◌, ℕ, List};
ghost use Rattle.disk_model.specs.Faults.{Rose};
ghost use Rattle.worker_node.specs.Ends.{IsCutShort, IsEnd, IsWholeSession};
ghost use Rattle.worker_node.specs.declared.served.Served.{Served};
ghost use Rattle.worker_node.specs.declared.served.Served.TheVariants.{Quit, InputEnded, BadFrame};
ghost use Rattle.foz_base.specs.Outside.{Outside};
ghost use Rattle.foz_tool.specs.WorkerRun.{IsSession, status_of_served};

use driver_check::Driver;
use worker_node::sessions_have_one_end;

/// The statuses of `worker`, whatever driver it has.
pub fn worker_statuses<R: Driver>()
    ensures none_other { (before after : Outside R.Meaning) (status : ℕ) → IsSession R.creates before after status
        → (status ≤ 1) ⊎ (status ≡ 3) ⊎ (status ≡ 4) ⊎ (status ≡ 7) }

    // With any status but 4 and 7 all that was taken from the input was worked off, and each reply was written.
    ensures session { (before after : Outside R.Meaning) (status : ℕ) → (serves : IsSession R.creates before after status) → (status ≤ 1) ⊎ (status ≡ 3)
        → (out : List ℕ) × (after.written ≡ before.written ++ out) × IsWholeSession R.creates before.driver serves.taken out after.driver }

    // 0 says that the messages came to a Quit or to the end of the input, 1 that they came to a bad frame. They come to one
    // end alone, so it is exactly then.
    ensures all_well { (before after : Outside R.Meaning) (status : ℕ) → (serves : IsSession R.creates before after status) → status ≡ 0
        → IsEnd serves.taken after.input Quit ⊎ ((left : ℕ) × IsEnd serves.taken after.input (InputEnded left)) }
    ensures bad_frame { (before after : Outside R.Meaning) (status : ℕ) → (serves : IsSession R.creates before after status) → status ≡ 1
        → (at : ℕ) × IsEnd serves.taken after.input (BadFrame at) }
    ensures exactly { (before after : Outside R.Meaning) (status : ℕ) → (serves : IsSession R.creates before after status) → status ≤ 1
        → (end : Served) → IsEnd serves.taken after.input end → status ≡ status_of_served end }

    ensures read_fault { (before after : Outside R.Meaning) (status : ℕ) → IsSession R.creates before after status → status ≡ 3 → Rose before.input_faults after.input_faults }

    ensures write_fault { (before after : Outside R.Meaning) (status : ℕ) → IsSession R.creates before after status → status ≡ 4 → Rose before.output_faults after.output_faults }

    // With 4 and 7 some of what was taken was worked off, and a prefix of what that comes to was written.
    ensures cut_short { (before after : Outside R.Meaning) (status : ℕ) → (serves : IsSession R.creates before after status) → (status ≡ 4) ⊎ (status ≡ 7)
        → (out : List ℕ) × (after.written ≡ before.written ++ out) × IsCutShort R.creates before.driver serves.taken out after.driver }
{
    sessions_have_one_end::<R>();
}
