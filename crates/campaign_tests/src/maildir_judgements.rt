//! Judgements of a mailbox that no variant's run leaves.

use crate::given::read;
use campaign_main::Choice;
use maildir_target::judge_mail;
use sim_device::{DeviceFault, FileDevice};
use std::alloc::Global;
use std::test::Fail;
use target_trait::Judgement;

const TORN: Judgement = Judgement::Broken(0);

const LOST: Judgement = Judgement::Broken(1);

/// The second attempt at the first message, delivered: 4 for each message, 2 for the second attempt, and 1 for the folder `new`.
const DELIVERED: u32 = 7;

/// A device on which this name holds these bytes, if there are some. They last, and the name lasts if `lasts` says so.
fn device(alloc: Global, delivered: Option<&[u8]>, lasts: bool) -> Result<FileDevice, DeviceFault> {
    let mut device = FileDevice::new(alloc);
    if let Some(bytes) = delivered {
        device.create(DELIVERED)?;
        device.append(DELIVERED, bytes)?;
        device.sync(DELIVERED)?;
    }
    if lasts {
        device.sync_dir();
    }
    Ok(device)
}

// What is delivered of the messages `ab` and `cd`, whether its name lasts, and which are acknowledged; and the judgement. What is torn comes
// before what is lost.
const ROWS: [(Option<&[u8]>, bool, &[u16], Judgement); 6] = [
    (None, false, &[], Judgement::Kept),
    (None, false, &[2], LOST),
    (Some(b"ab"), false, &[1], LOST),
    (Some(b"ab"), true, &[1], Judgement::Kept),
    (Some(b"ab"), true, &[1, 2], LOST),
    (Some(b"abc"), true, &[1, 2], TORN),
];

#[test]
fn mail_is_judged_after_a_power_cut(rt: HostRuntime) -> Result<(), Fail> {
    let alloc = rt.alloc();
    let text = "target = 'maildir'\n[maildir]\nmessages = [['ab'], ['cd']]\n";
    let settings = read(alloc, text)?;
    let Choice::Maildir(_, two) = &settings.choice else {
        return Err(Fail::from("another target"));
    };
    for (delivered, lasts, acknowledged, judgement) in ROWS {
        let mut device = device(alloc, delivered, lasts)?;
        let judged = judge_mail(&mut device, two.as_slice(), acknowledged);
        assert_eq!(rt; judged, judgement, "at {acknowledged:?}");
    }
    Ok(())
}
