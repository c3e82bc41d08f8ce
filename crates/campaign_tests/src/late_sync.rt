//! A campaign that finds a failure: a file of `old` is replaced once, by the chunks `ne` and `w`, and the sync comes after the rename.

/// Its settings.
pub const LATE_SYNC: &str = "target = \"replace\"
variant = \"late_sync\"
seed = 7
workers = 2
[replace]
old = \"old\"
replacements = [[\"ne\", \"w\"]]
";

/// Its report.
pub const LATE_SYNC_REPORT: &str = "target replace late_sync
seed 7
clean pass
census replace::clear 0
census replace::create 1
census replace::write 2
census replace::sync 1
census replace::rename 1
census replace::sync_dir 1
census replace::unlink 0
plans 19
verdict 0 pass
verdict 1 pass
verdict 2 pass
verdict 3 pass
verdict 4 pass
verdict 5 pass
verdict 6 pass
verdict 7 pass
verdict 8 pass
verdict 9 pass
verdict 10 fail torn
verdict 11 fail torn
verdict 12 fail torn
verdict 13 pass
verdict 14 pass
verdict 15 pass
verdict 16 pass
verdict 17 pass
verdict 18 pass
first 10 torn
scenario replace::sync=1*return
reduced replace::sync=1*return
tests 1
";
