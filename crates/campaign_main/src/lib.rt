//! The program's commands over any reader and any sinks: settings are read, a command is done with the target that they choose, and its text is
//! written, or the line that says why there is none.
#![tactic(auto)]

mod answer_notes;
mod answering;
mod chosen;
mod command;
mod cut_end;
mod escaping;
mod exit;
mod fault;
mod following;
mod input;
mod lines;
mod notes;
mod outside;
mod own;
mod pending;
mod performing;
mod questions;
mod refusals;
mod run_notes;
mod subject;
mod telling;
mod told;
mod told_line;

pub use answering::{Answer, answer_question};
pub use campaign_core::{
    CampaignFault, Ending, Host, Subject, campaign, plan_list, plan_scenario, reduce_one, try_one,
};
pub use campaign_given::{CampaignSettings, Outside};
pub use campaign_settings::{
    Choice, Key, LIMIT, OwnSettings, OwnValue, OwnWord, OwnWords, Place, Settings, SettingsFault,
    TargetName,
};
pub use command_words::{
    Form, Line, Order, ProgressForm, Question, Shown, VERSION, Which, WordsFault, read_words,
};
pub use commit_target::{Transactions, Variant as CommitVariant, Vote, Votes};
pub use exit::{Exit, status};
pub use file_replace::{Chunks, Replacements, Variant as ReplaceVariant};
pub use following::perform_follow;
pub use input::{ReadFault, read_all};
pub use maildir_target::{Messages, Variant as MaildirVariant};
pub use outside_campaign::{OutsideCampaign, OutsideFault, QuestionFault};
pub use own::{perform_settings, perform_target, read_own_settings, refuse_own_words};
pub use performing::perform;
pub use questions::perform_outside;
pub use refusals::{refuse_words, unreadable_settings, unreadable_words};
pub use scenario_grammar::{Kind, Scenario, ScenarioFault, Text, parse};
pub use target_trait::{Judgement, Out, Session, Sink, Stop, Target, TellingTarget, Verdict};
pub use telling::perform_telling;
pub use work_gate::{FreeGate, Gate};
