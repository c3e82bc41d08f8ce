//! The settings of a campaign, read from TOML, or the first fault of the text, with the line that reports it. What is done by settings is no matter
//! of this crate.
#![tactic(auto)]

mod choice;
mod described;
mod fault;
mod keys;
mod kinds;
mod lists;
mod names;
mod numbers;
mod own;
mod reading;
mod scenarios;
mod settings;
mod tables;
mod values;

pub use choice::Choice;
pub use fault::SettingsFault;
pub use keys::{Key, Place, TargetName};
pub use own::{OwnSettings, OwnValue, OwnWord, OwnWords};
pub use reading::LIMIT;
pub use settings::Settings;
