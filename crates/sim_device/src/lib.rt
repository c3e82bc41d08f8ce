//! Simulated devices for components that must survive faults: a disk of files that forgets at a power cut what was not synced, a single file of such
//! a disk, and a log of records that forgets at a restart what was not forced. They know nothing of points, scenarios and targets.
#![tactic(auto)]

mod crash;
mod device;
mod fault;
mod file;
mod laws;
mod laying;
mod log;
mod must;
mod names;
mod pending;

pub use crash::CrashDevice;
pub use device::FileDevice;
pub use fault::DeviceFault;
pub use file::File;
pub use laws::{
    all_kept_loses_nothing, append_adds, contents_last, create_names_a_new_file,
    forced_record_survives, forced_records_stay, kept_bytes_are_appended_to, link_adds_a_name,
    names_last, names_lead_to_files, names_read_what_they_hold, new_files_are_empty,
    nothing_kept_leaves_what_lasts, rename_keeps_contents, synced_contents_stay, truncate_cuts,
    unforced_records_are_lost, unnamed_names_stay, write_overwrites,
};
pub use log::RecordLog;
pub use pending::{Call, PendingWrite};
