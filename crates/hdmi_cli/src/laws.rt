//! That words and bytes have one outcome, what one command makes of another's output, that premises of the top call's clauses can be
//! met, and that those on slips within a line leave none out. The functions have no code: their contracts are the laws.
ghost use Rattle.hdmi_cli.specs.EndToEnd.{EndToEnd, ContentEndToEnd, HasChain};
ghost use Rattle.hdmi_cli.specs.Fields.{HasFields};
ghost use Rattle.hdmi_cli.specs.OneOutcome.{OneOutcome};
ghost use Rattle.hdmi_cli.specs.RelayChecked.{RelayIsClean, HasCheckedRelay};
ghost use Rattle.hdmi_cli.specs.RelayExamples.{HasCleanCapture, HasRelayedTwice};
ghost use Rattle.hdmi_cli.specs.RelockLocal.{ClearIsUncontended, HasBurst};
ghost use Rattle.hdmi_cli.specs.RelockAgain.{RelocksAgain};
ghost use Rattle.hdmi_cli.specs.RelockAmid.{HasLocalWholeStream};
ghost use Rattle.hdmi_cli.specs.RelockWhole.{HasWholeStream};
ghost use Rattle.capture_commands.specs.TrackListings.{link_track_listing, content_track_listing};
ghost use Rattle.command_line.specs.declared.command.Command.TheVariants.{RecoverRelock, RecoverContentRelock};
ghost use Rattle.hdmi_cli.specs.TrackExamples.{HasNoticedSlip, HasShortSlip, HasUnlockedSlip};
ghost use Rattle.hdmi_cli.specs.TrackPasses.{SlipsAreNoticedOrNot};

/// Words and bytes have one outcome, but for bytes that are no capture and `recover track`.
pub fn one_outcome()
    ensures { OneOutcome }
{}

/// `make link` or `make content` writes a capture, and `damage` replaces whole characters of it: the result is the capture of a tapped
/// stream. `recover link` and `recover content` list what was sent of it.
pub fn end_to_end()
    ensures link { EndToEnd }
    ensures content { ContentEndToEnd }
{}

/// `check` says `clean` of the output of `relay`. If that is one control period alone, `check` finds no alignment.
pub fn relay_is_clean()
    ensures { RelayIsClean }
{}

/// Every slip within a line is one that `recover track` notices, or one that it does not: what it then writes is said of both.
pub fn noticed_or_not()
    ensures { SlipsAreNoticedOrNot }
{}

/// A capture one lane of which lost three bits of a line, which `recover track` notices.
pub fn noticed_slip()
    ensures { HasNoticedSlip }
{}

/// One whose lane had no lock before them, so that they are not noticed, and whose lanes have a first full alignment.
pub fn unlocked_slip()
    ensures { HasUnlockedSlip }
{}

/// One whose lane ends in that line, so that they are not noticed either; it was locked, and the lanes have a first full
/// alignment.
pub fn short_slip()
    ensures { HasShortSlip }
{}

/// The alignment is dropped for no other edges if, near the end of each control period, no character was received as a control or guard
/// character that it was not.
pub fn clear_is_uncontended()
    ensures { ClearIsUncontended }
{}

/// A capture with a burst that left no character of some columns as it was sent. The alignment stays, and a line after the burst stands
/// alone.
pub fn burst()
    ensures { HasBurst }
{}

/// Whatever bits came before: from a control period on of which nineteen characters were received on each lane, and a guard band after
/// it, `recover relock` lists the stream as it was sent, where its alignment has the skew of that control period.
pub fn relock_again()
    ensures link { RelocksAgain RecoverRelock link_track_listing }
    ensures content { RelocksAgain RecoverContentRelock content_track_listing }
{}

/// A capture of a stream that comes after other bits, a control period of which comes whole.
pub fn whole_stream()
    ensures { HasWholeStream }
{}

/// One in which no character of some columns before that control period, and after the line that follows it, was received as it was sent.
pub fn local_whole_stream()
    ensures { HasLocalWholeStream }
{}

/// A capture of which `check` says `clean`, and whose aligned columns end in a control period.
pub fn clean_capture()
    ensures { HasCleanCapture }
{}

/// A data island and a line that were relayed, and what is relayed of that capture.
pub fn relayed_twice()
    ensures { HasRelayedTwice }
{}

/// A listing of two lines that is made into a capture. Two characters of the capture are then damaged.
pub fn chain_example()
    ensures { HasChain }
{}

/// A data island and a line that were relayed. `check` says `clean` of them.
pub fn checked_relay()
    ensures { HasCheckedRelay }
{}

/// A tap of a raster whose packets say an AVI and an audio InfoFrame, clock numbers and a sample. Each of them is in the aligned
/// columns, and was received as it was sent.
pub fn fields_example()
    ensures { HasFields }
{}
