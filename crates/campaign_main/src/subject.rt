//! The settings of a component that somebody else runs.
ghost use Rattle.std.specs.Prelude.{◌≡◌, false, Ok, IfErr, IfOk, IfSome, OnOk};
ghost use Rattle.campaign_core.specs.Writes.{change};
ghost use Rattle.campaign_main.specs.Questions.{TellsOfQuestion, chosen_subject, subject_of, text_subject};
ghost use Rattle.campaign_main.specs.inside.Looks.{IsNoSubject, IsRefusedSubject, RefusesSome};

use crate::exit::Exit;
use crate::input::read_all;
use crate::lines::{end_bad_settings, end_unreadable_settings, refuse_bundled};
use campaign_given::{CampaignSettings, Outside};
use campaign_settings::{Choice, Settings};
use std::alloc::Global;
use std::io::Read;
use target_trait::Sink;

/// What settings give of a component that somebody else runs.
#[derive(Drop)]
pub struct OutsideSettings {
    /// The component, as they describe it.
    pub outside: Outside,
    /// The settings of its campaign.
    pub campaign: CampaignSettings,
}

/// What the settings give, unless they choose a bundled target: then the line is written that says so, and this is the end.
fn chosen_outside<E: Sink>(settings: Settings, faults: &mut E) -> Result<OutsideSettings, Exit>
    requires { E.has_failed faults.old ≡ false }
    ensures ok { IfOk result (λ s. chosen_subject settings.campaign settings.choice ≡ Ok (s.campaign, s.outside)) }
    ensures untouched { OnOk result (faults.new ≡ faults.old) }
    ensures end { IfErr result (λ end. RefusesSome end (change E.Sink faults.old faults.new)) }
    ensures cause { IfErr result (λ end. IsRefusedSubject (chosen_subject settings.campaign settings.choice) end (change E.Sink faults.old faults.new)) }
    ensures told { IfErr result (λ end. TellsOfQuestion end (change E.Sink faults.old faults.new)) }
{
    let Settings { choice, campaign } = settings;
    let Choice::Outside(outside) = choice else {
        return Err(refuse_bundled(faults));
    };
    Ok(OutsideSettings { outside, campaign })
}

/// The same for a text of settings.
fn outside_in<E: Sink>(alloc: Global, text: &str, faults: &mut E) -> Result<OutsideSettings, Exit>
    requires { E.has_failed faults.old ≡ false }
    ensures ok { IfOk result (λ s. text_subject text.now ≡ Ok (s.campaign, s.outside)) }
    ensures untouched { OnOk result (faults.new ≡ faults.old) }
    ensures end { IfErr result (λ end. RefusesSome end (change E.Sink faults.old faults.new)) }
    ensures cause { IfErr result (λ end. IsRefusedSubject (text_subject text.now) end (change E.Sink faults.old faults.new)) }
    ensures told { IfErr result (λ end. TellsOfQuestion end (change E.Sink faults.old faults.new)) }
{
    match Settings::read(alloc, text) {
        Ok(settings) => chosen_outside(settings, faults),
        Err(fault) => Err(end_bad_settings(alloc, &fault, faults)),
    }
}

/// Reads settings of a component that somebody else runs. `Err` is how a command ends that can't have them: then the line that says why was written.
pub fn read_outside<R: Read, E: Sink>(
    alloc: Global,
    reader: &mut R,
    faults: &mut E,
) -> Result<OutsideSettings, Exit>
    requires { E.has_failed faults.old ≡ false }
    ensures ok { IfOk result (λ s. IfSome (R.remaining reader.old) (λ bytes. subject_of bytes ≡ Ok (s.campaign, s.outside))) }
    ensures untouched { OnOk result (faults.new ≡ faults.old) }
    ensures end { IfErr result (λ end. RefusesSome end (change E.Sink faults.old faults.new)) }
    ensures cause { IfErr result (λ end. IsNoSubject (R.remaining reader.old) end (change E.Sink faults.old faults.new)) }
    ensures told { IfErr result (λ end. TellsOfQuestion end (change E.Sink faults.old faults.new)) }
{
    match read_all(alloc, reader) {
        Ok(text) => outside_in(alloc, text.as_str(), faults),
        Err(fault) => Err(end_unreadable_settings(fault, faults)),
    }
}
