//! The judgement: what recovery makes of the bytes that a power cut left.
ghost use Rattle.std.specs.Prelude.{◌≡◌, ◌<◌, ◌≤◌, length};
ghost use Rattle.journal_target.specs.File.{left};
ghost use Rattle.journal_target.specs.Judgement.{is_committed, judged_by, judged_one, or_then, judged_from};

use crate::progress::Progress;
use crate::scan::{Scan, scan_for};
use crate::variant::Variant;
use crate::work::Records;
use target_trait::Judgement;

/// The code of an acknowledged transaction that isn't recovered.
pub const LOST: u32 = 0;
/// The code of a transaction that is recovered as committed, though not all of its records are whole.
pub const TORN: u32 = 1;

/// Whether recovery takes a transaction for committed.
fn is_committed(variant: Variant, scan: Scan) -> bool
    ensures { result ≡ is_committed variant scan }
{
    match variant {
        Variant::Sound | Variant::EarlyAck | Variant::OneSync => scan.committed,
        Variant::NoCommitRecord => scan.whole > 0,
    }
}

/// The judgement of a transaction, by what is known of it.
fn judged_by(is_committed: bool, is_whole: bool, is_acknowledged: bool) -> Judgement
    ensures { result ≡ judged_by is_committed is_whole is_acknowledged }
{
    match (is_committed, is_whole, is_acknowledged) {
        (true, false, _) => Judgement::Broken(TORN),
        (false, _, true) => Judgement::Broken(LOST),
        (true, true, _) | (false, _, false) => Judgement::Kept,
    }
}

/// The judgement of a transaction with this many records.
fn judged_one(
    variant: Variant,
    progress: &Progress,
    kept: &[bool],
    transaction: u8,
    count: usize,
) -> Judgement
    requires { 0 < transaction }
    ensures { result ≡ judged_one variant progress.now.acknowledged (left progress.now.file kept.now) transaction count }
{
    let scan = scan_for(transaction, progress.file(), kept);
    judged_by(
        is_committed(variant, scan),
        scan.whole == count,
        progress.acknowledged().contains(&transaction),
    )
}

/// The judgement of what is left of the file by a power cut that keeps these pending appends, for these transactions, numbered from 1.
pub fn judged_all(
    variant: Variant,
    progress: &Progress,
    kept: &[bool],
    transactions: &[Records],
) -> Judgement
    requires { length transactions.now ≤ 100 }
    ensures { result ≡ judged_from variant progress.now.acknowledged (left progress.now.file kept.now) 1 transactions.now }
{
    let mut number = 1;
    for records in transactions {
        let count = records.as_slice().len();
        match judged_one(variant, progress, kept, number, count) {
            Judgement::Kept => {}
            Judgement::Broken(code) => return Judgement::Broken(code),
        }
        number += 1;
    }
    Judgement::Kept
}
