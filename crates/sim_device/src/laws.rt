//! Laws of devices, over every list of effects and so over every run.
ghost use Rattle.std.specs.Prelude.{◌≡◌, ◌<◌, ℕ, Bool, List, [], ◌∷◌, ◌++◌, Some, Contains, take};
ghost use Rattle.sim_device.specs.FileEffects.{Effect, Create, Append, Write, Truncate, Sync, Rename, Link, PowerCut, Side, Live, Lasting, created, leads, contents, pending, held};
ghost use Rattle.sim_device.specs.Disk.{Disk, StandsFor, reads};
ghost use Rattle.sim_device.specs.Pending.{overwritten, kept};
ghost use Rattle.sim_device.specs.Later.{IsUntouched, HasNoSyncDir, IsUnnamed, IsUnsynced};
ghost use Rattle.sim_device.specs.LogEffects.{LogEffect, Force, Restart, records, HasNoForce};

/// A name leads only to a file that was created.
pub fn names_lead_to_files()
    ensures { (effects : List Effect) (side : Side) (n f : ℕ) →
        leads effects side n ≡ Some f → f < created effects }
{}

/// Contents that were synced, and neither written to nor cut since, survive a power cut, whatever it keeps.
pub fn synced_contents_stay()
    ensures { (later before : List Effect) (n f : ℕ) (keep : List Bool) →
        leads before Live n ≡ Some f → IsUntouched f later (Sync n ∷ before) →
        contents (PowerCut keep ∷ (later ++ Sync n ∷ before)) Live f ≡ contents before Live f }
{}

/// Names change on the disk at `sync_dir` only, and at a power cut that keeps a write.
pub fn names_last()
    ensures { (later before : List Effect) (n : ℕ) →
        HasNoSyncDir later → leads (later ++ before) Lasting n ≡ leads before Lasting n }
{}

/// A name leads to what it led to before, until a call names it or the power is cut.
pub fn unnamed_names_stay()
    ensures { (later before : List Effect) (n : ℕ) →
        IsUnnamed n later → leads (later ++ before) Live n ≡ leads before Live n }
{}

/// Contents change on the disk at a `sync` of their file only, and at a power cut that keeps a write.
pub fn contents_last()
    ensures { (later before : List Effect) (f : ℕ) →
        f < created before → IsUnsynced f later before → contents (later ++ before) Lasting f ≡ contents before Lasting f }
{}

/// A created name leads to a new file.
pub fn create_names_a_new_file()
    ensures { (before : List Effect) (name : ℕ) →
        leads (Create name ∷ before) Live name ≡ Some (created before) }
{}

/// A new file is empty.
pub fn new_files_are_empty()
    ensures { (before : List Effect) (name : ℕ) →
        contents (Create name ∷ before) Live (created before) ≡ [] }
{}

/// What is appended comes after what the file held.
pub fn append_adds()
    ensures { (before : List Effect) (name f : ℕ) (bytes : List ℕ) →
        leads before Live name ≡ Some f →
        contents (Append name bytes ∷ before) Live f ≡ contents before Live f ++ bytes }
{}

/// What is written at a place lies over what the file held.
pub fn write_overwrites()
    ensures { (before : List Effect) (name f place : ℕ) (bytes : List ℕ) →
        leads before Live name ≡ Some f →
        contents (Write name place bytes ∷ before) Live f ≡ overwritten place bytes (contents before Live f) }
{}

/// A cut leaves the first bytes, as many as it says, or all if there are no more.
pub fn truncate_cuts()
    ensures { (before : List Effect) (name f count : ℕ) →
        leads before Live name ≡ Some f →
        contents (Truncate name count ∷ before) Live f ≡ take count (contents before Live f) }
{}

/// A link gives a file one more name.
pub fn link_adds_a_name()
    ensures { (before : List Effect) (from to : ℕ) →
        leads (Link from to ∷ before) Live to ≡ leads before Live from }
{}

/// A rename touches no contents.
pub fn rename_keeps_contents()
    ensures { (from to f : ℕ) (side : Side) (before : List Effect) →
        contents (Rename from to ∷ before) side f ≡ contents before side f }
{}

/// Once a force has made records last, the log begins with them, in their order, whatever follows.
pub fn forced_records_stay<R: Copy>()
    ensures { (later before : List (LogEffect R)) (r : R) (side : Side) →
        ((more : List R) ×
        (records (later ++ Force r ∷ before) side ≡ (records before Live ++ r ∷ []) ++ more)) }
{}

/// A forced record survives each restart.
pub fn forced_record_survives<R: Copy>()
    ensures { (later before : List (LogEffect R)) (r : R) →
        Contains (records (Restart ∷ (later ++ Force r ∷ before)) Live) r }
{}

/// A restart loses what was added since the last force, and nothing else.
pub fn unforced_records_are_lost<R: Copy>()
    ensures { (later before : List (LogEffect R)) →
        HasNoForce later → records (Restart ∷ (later ++ before)) Live ≡ records before Lasting }
{}

/// A power cut that keeps no pending write leaves what lasts, and nothing more.
pub fn nothing_kept_leaves_what_lasts()
    ensures names { (effects : List Effect) (keep : List Bool) (side : Side) (n : ℕ) → kept keep (pending effects) ≡ [] →
        leads (PowerCut keep ∷ effects) side n ≡ leads effects Lasting n }
    ensures contents { (effects : List Effect) (keep : List Bool) (side : Side) (f : ℕ) → kept keep (pending effects) ≡ [] →
        contents (PowerCut keep ∷ effects) side f ≡ contents effects Lasting f }
{}

/// A power cut that keeps each pending write loses nothing.
pub fn all_kept_loses_nothing()
    ensures names { (effects : List Effect) (keep : List Bool) (side : Side) (n : ℕ) → kept keep (pending effects) ≡ pending effects →
        leads (PowerCut keep ∷ effects) side n ≡ leads effects Live n }
    ensures contents { (effects : List Effect) (keep : List Bool) (side : Side) (f : ℕ) → kept keep (pending effects) ≡ pending effects →
        f < created effects → contents (PowerCut keep ∷ effects) side f ≡ contents effects Live f }
{}

/// What is appended after a power cut that kept an earlier append lies behind it, and both are there after another cut, once they are synced.
pub fn kept_bytes_are_appended_to()
    ensures { (before : List Effect) (name f : ℕ) (first second : List ℕ) (keep again : List Bool) →
        leads before Live name ≡ Some f → kept keep (pending (Append name first ∷ before)) ≡ pending (Append name first ∷ before) →
        contents (PowerCut again ∷ Sync name ∷ Append name second ∷ PowerCut keep ∷ Append name first ∷ before) Live f
        ≡ contents before Live f ++ first ++ second }
{}

/// What is read under a name on a device is what its file holds according to the effects.
pub fn names_read_what_they_hold()
    ensures { (disk : Disk) (effects : List Effect) (n : ℕ) → StandsFor disk effects → reads disk n ≡ held effects Live n }
{}
