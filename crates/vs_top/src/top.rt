//! The top call: files are played, from words to a report.

ghost use Rattle.std.specs.Prelude.{◌≡◌, ◌⊎◌, ◌↔◌, ◌∷◌, [], ℕ, List, Contains, length, IfOk, IfErr, OnOk};
ghost use Rattle.vs_base.specs.Listed.{Listed};
ghost use Rattle.vs_config.specs.Configuration.{configuration};
ghost use Rattle.vs_ending.specs.Ending.{KeepsHost};
ghost use Rattle.vs_event.specs.declared.reason.Reason.{Reason};
ghost use Rattle.vs_inputs.specs.declared.fault.TextFault.{TextFault};
ghost use Rattle.vs_inputs.specs.FileNames.{names_of};
ghost use Rattle.vs_inputs.specs.Inputs.{MayReadFiles, AreGood};
ghost use Rattle.vs_inputs.specs.Words.{Names, texts, IsCommand, MayRead};
ghost use Rattle.vs_machine.specs.Opening.{IsLawful};
ghost use Rattle.vs_script.specs.Scripts.{scripts};
ghost use Rattle.vs_space.specs.declared.status.Status.{Status};
ghost use Rattle.vs_store.specs.declared.fault.StoreFault.{StoreFault as JournalFault};
ghost use Rattle.vs_top.specs.Endings.{ByCommand, IsPlayed, IsFilesCause, EndsBy, Ends, between, statuses};
ghost use Rattle.vs_top.specs.Endings.{AreGoodDisks, ArePossible, CanBePlayed, IsGood, MayEndGood, MayEndPossible, MayEndWith};
ghost use Rattle.vs_top.specs.Faults.{IsNumbered, from_play};
ghost use Rattle.vs_top.specs.Plays.{IsPlayCause, IsReportOf, played_on};
ghost use Rattle.vs_top.specs.declared.play.PlayFault.{PlayFault as PlayCause};

use crate::fault::Fault;
use crate::fault_line::{log_fault, log_usage};
use crate::play::played_report;
use std::alloc::Global;
use std::mem;
use vs_disk::Disk;
use vs_host::Host;
use vs_inputs::{Command, Inputs, command_of, read_inputs};
use vs_named::{is_short, reports_are_legal};

/// The report of the inputs on these disks, which come back.
fn report_of<D: Disk + Drop>(
    alloc: Global,
    inputs: Inputs,
    disks: &mut Vec<D>,
) -> Result<Vec<u8>, Fault>
    requires lawful { IsLawful (configuration inputs.config) (scripts inputs.scripts) }
    requires disks { length disks.old.items ≡ 32 }
    ensures count { length disks.new.items ≡ 32 }
    ensures ok { IfOk result (λ text. IsReportOf (played_on D.told (configuration inputs.config)
        (scripts inputs.scripts) inputs.trace.items disks.old.items disks.new.items) text.items) }
    ensures numbered { IfErr result IsNumbered }
    ensures err { IfErr result (λ fault. (cause : PlayCause)
        × (fault ≡ from_play cause (configuration inputs.config))
        × IsPlayCause cause (played_on D.told (configuration inputs.config)
        (scripts inputs.scripts) inputs.trace.items disks.old.items disks.new.items)) }
{
    let given = mem::replace(disks, Vec::new(alloc));
    let Inputs {
        config,
        trace,
        scripts,
    } = inputs;
    match played_report(alloc, &config, scripts, &trace, given) {
        Ok((text, back)) => {
            *disks = back;
            Ok(text)
        }
        Err((fault, back)) => {
            *disks = back;
            Err(Fault::of_play(fault, &config))
        }
    }
}

/// Plays the files of a command, and puts the report out.
fn play_files<H: Host, D: Disk + Drop>(
    command: &Command,
    host: &mut H,
    disks: &mut Vec<D>,
) -> Result<(), Fault>
    requires files { MayReadFiles (H.told host.old) (names_of command.now.names) }
    requires disks { length disks.old.items ≡ 32 }
    ensures host { KeepsHost (H.told host.old) (H.told host.new) }
    ensures log { (H.told host.new).log ≡ (H.told host.old).log }
    ensures count { length disks.new.items ≡ 32 }
    ensures ok { OnOk result (IsPlayed (between D.told (H.told host.old) (H.told host.new)
        disks.old.items disks.new.items) (names_of command.now.names)) }
    ensures err { IfErr result (λ fault. IsFilesCause fault (between D.told (H.told host.old)
        (H.told host.new) disks.old.items disks.new.items) (names_of command.now.names)) }
    ensures good { (files : AreGood (H.told host.old).file (names_of command.now.names))
        → AreGoodDisks D.told files.config disks.old.items → IfErr result MayEndGood }
    ensures possible { (files : AreGood (H.told host.old).file (names_of command.now.names))
        → AreGoodDisks D.told files.config disks.old.items
        → ArePossible (played_on D.told files.config files.scripts files.events disks.old.items
        disks.new.items) → IfErr result MayEndPossible }
{
    let inputs = read_inputs(command.alloc, host, &command.names)?;
    let text = report_of(command.alloc, inputs, disks)?;
    reports_are_legal();
    is_short(&text);
    host.out(&text)?;
    Ok(())
}

/// Plays the files that words name, and logs why they were not played.
fn play_and_log<H: Host, D: Disk + Drop>(words: &[String], host: &mut H, disks: &mut Vec<D>) -> u8
    requires words { MayRead (H.told host.old) (texts words.now) }
    requires disks { length disks.old.items ≡ 32 }
    ensures host { KeepsHost (H.told host.old) (H.told host.new) }
    ensures count { length disks.new.items ≡ 32 }
    ensures ends { Ends result (texts words.now) (between D.told (H.told host.old)
        (H.told host.new) disks.old.items disks.new.items) }
    ensures good { MayEndWith (0 ∷ 4 ∷ 9 ∷ []) IsGood result (texts words.now) (between D.told
        (H.told host.old) (H.told host.new) disks.old.items disks.new.items) }
    ensures possible { MayEndWith (0 ∷ 9 ∷ []) CanBePlayed result (texts words.now) (between D.told
        (H.told host.old) (H.told host.new) disks.old.items disks.new.items) }
{
    let Some(command) = command_of(words) else {
        return log_usage(host);
    };
    match play_files(&command, host, disks) {
        Ok(()) => 0,
        Err(fault) => log_fault(command.alloc, host, &fault),
    }
}

/// `play CONFIG EVENTS FILE...`: plays the events of a list on the cluster of a configuration, over the scripts of clients and
/// operators and the journals of its sets, and puts the report out. It answers the status, and logs one line where that isn't 0.
/// Of the 32 disks the first has the journal of set 1; they come back in their places.
pub fn play_main<H: Host, D: Disk + Drop>(words: &[String], host: &mut H, disks: &mut Vec<D>) -> u8
    requires words { MayRead (H.told host.old) (texts words.now) }
    requires disks { length disks.old.items ≡ 32 }

    // Each status is one of ten, and 2 comes exactly by the words.
    ensures status { Contains statuses result }
    ensures usage { (result ≡ 2) ↔ ((names : Names) → ¬ (IsCommand (texts words.now) names)) }

    // What each of them says.
    ensures played { result ≡ 0 → ByCommand (texts words.now) (IsPlayed (between D.told
        (H.told host.old) (H.told host.new) disks.old.items disks.new.items)) }
    ensures words { result ≡ 2 → EndsBy Fault.Words (texts words.now) (between D.told
        (H.told host.old) (H.told host.new) disks.old.items disks.new.items) }
    ensures text { result ≡ 3 → (k : ℕ) × (fault : TextFault) ×
        EndsBy (Fault.Text k fault) (texts words.now) (between D.told
        (H.told host.old) (H.told host.new) disks.old.items disks.new.items) }
    ensures event { result ≡ 4 → (number : ℕ) × (reason : Reason) ×
        EndsBy (Fault.Event number reason) (texts words.now) (between D.told
        (H.told host.old) (H.told host.new) disks.old.items disks.new.items) }
    ensures read { result ≡ 5 → (k : ℕ) × EndsBy (Fault.Read k) (texts words.now) (between D.told
        (H.told host.old) (H.told host.new) disks.old.items disks.new.items) }
    ensures write { result ≡ 6 → EndsBy Fault.Write (texts words.now) (between D.told
        (H.told host.old) (H.told host.new) disks.old.items disks.new.items) }
    ensures disk { result ≡ 7 → (x : ℕ) × EndsBy (Fault.Disk x) (texts words.now) (between D.told
        (H.told host.old) (H.told host.new) disks.old.items disks.new.items) }
    ensures journal { result ≡ 8
        → ((x : ℕ) × (fault : JournalFault) × (wanted : List ℕ)
        × EndsBy (Fault.Journal x fault wanted) (texts words.now) (between D.told
        (H.told host.old) (H.told host.new) disks.old.items disks.new.items))
        ⊎ ((bucket : ℕ) × (entries : Listed (ℕ × Status))
        × EndsBy (Fault.Incoherent bucket entries) (texts words.now) (between D.told
        (H.told host.old) (H.told host.new) disks.old.items disks.new.items)) }
    ensures memory { result ≡ 9 → EndsBy Fault.NoMemory (texts words.now) (between D.told
        (H.told host.old) (H.told host.new) disks.old.items disks.new.items) }
    ensures full { result ≡ 10 → (x : ℕ) × EndsBy (Fault.Full x) (texts words.now) (between D.told
        (H.told host.old) (H.told host.new) disks.old.items disks.new.items) }

    // The same for a caller that goes by the fault.
    ensures ends { Ends result (texts words.now) (between D.told (H.told host.old)
        (H.told host.new) disks.old.items disks.new.items) }

    // Where neither a read nor a write fails, and no disk, good files over good disks end so, and those whose events are all
    // possible so.
    ensures good { MayEndWith (0 ∷ 4 ∷ 9 ∷ []) IsGood result (texts words.now) (between D.told
        (H.told host.old) (H.told host.new) disks.old.items disks.new.items) }
    ensures possible { MayEndWith (0 ∷ 9 ∷ []) CanBePlayed result (texts words.now) (between D.told
        (H.told host.old) (H.told host.new) disks.old.items disks.new.items) }

    // What stays.
    ensures host { KeepsHost (H.told host.old) (H.told host.new) }
    ensures count { length disks.new.items ≡ 32 }
{
    play_and_log(words, host, disks)
}
