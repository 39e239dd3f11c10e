//! Lines of a content listing that are a name and decimal numbers.
ghost use Rattle.std.specs.Prelude.{◌≡◌, ◌∷◌, [], ◌<◌, true, length, MatchOption};
ghost use Rattle.std.specs.List.{list_all};
ghost use Rattle.source_end.specs.Formats.{formats, mode_in};
ghost use Rattle.listing_reader.specs.ContentForms.{acr_reported, are_bytes, are_words, audio_reported, avi_reported, fields_of, frame_reported, gcp_reported, info_reported, mode_reported, numbers_form, vic_reported};
ghost use Rattle.listing_reader.specs.ContentFormSeen.{IsContentForm, IsFit, IsNumbers};
ghost use Rattle.listing_reader.specs.InfoPackets.{control_packet, no_sync};

use crate::content_form::ContentForm;
use crate::form::number;
use audio_packets::{Acr, write_acr};
use infoframe::{AudioInfo, Avi, Info, write};
use island_pack::Packet;
use memchr::memchr;
use source_end::Mode;

/// The text up to its first space, and what follows the space, where there is one.
fn split_field(text: &[u8]) -> (&[u8], Option<&[u8]>)
    ensures { MatchOption result.1 (fields_of text.now ≡ result.0.now ∷ []) (λ rest. fields_of text.now ≡ result.0.now ∷ fields_of rest.now) }
{
    match memchr(b' ', text) {
        Some(place) => (&text[..place], Some(&text[place + 1..])),
        None => (text, None),
    }
}

/// Reads as many numbers as there is room for, with one space between any two, and says whether they
/// are all that the text is.
pub(crate) fn numbers(text: &[u8], into: &mut [u64]) -> bool
    ensures numbers { IsNumbers text.now (length into.old) into.new result }
    ensures long { length into.new ≡ length into.old }
{
    let mut rest = Some(text);
    for i in 0..into.len() {
        let Some(text) = rest else {
            return false;
        };
        let (field, after) = split_field(text);
        match number(field) {
            Some(n) => into[i] = n,
            None => return false,
        }
        rest = after;
    }
    rest.is_none()
}

/// Writes numbers as bytes, and says whether each is one.
fn to_bytes(numbers: &[u64], into: &mut [u8]) -> bool
    requires { length into.old ≡ length numbers.now }
    ensures value { result ≡ are_bytes numbers.now }
    ensures bytes { result ≡ true → into.new ≡ numbers.now }
{
    for i in 0..numbers.len() {
        if numbers[i] >= 0x100 {
            return false;
        }
        into[i] = numbers[i] as u8;
    }
    true
}

/// Writes numbers in two bytes each, and says whether each has no more.
fn to_words(numbers: &[u64], into: &mut [u16]) -> bool
    requires { length into.old ≡ length numbers.now }
    ensures value { result ≡ are_words numbers.now }
    ensures words { result ≡ true → into.new ≡ numbers.now }
{
    for i in 0..numbers.len() {
        if numbers[i] >= 0x1_0000 {
            return false;
        }
        into[i] = numbers[i] as u16;
    }
    true
}

/// A packet of zeros.
pub(crate) fn blank_packet() -> Packet
    ensures { result.sync ≡ no_sync }
{
    Packet {
        header: [0; 3],
        bodies: [0; 28],
        sync: [0; 32],
    }
}

/// The packet of an InfoFrame, if its fields fit their bits.
#[tactic(auto, unfolding(crate::specs::ContentForms::info_reported))]
pub(crate) fn info_packet(info: &Info) -> Option<Packet>
    ensures { result ≡ info_reported info.now }
{
    if !info.fits() {
        return None;
    }
    let mut packet = blank_packet();
    write(info, &mut packet);
    Some(packet)
}

/// `vic V`, by what follows the name.
#[tactic(auto, unfolding(crate::specs::ContentForms::vic_reported))]
pub(crate) fn vic(rest: &[u8]) -> ContentForm<'_>
    ensures form { IsContentForm result (numbers_form 1 vic_reported rest.now) }
    ensures fits { IsFit result }
{
    let mut fields = [0];
    if !numbers(rest, &mut fields) {
        return ContentForm::Other;
    }
    ContentForm::Mode(vic_mode(fields[0]))
}

/// The mode of a video identification code.
fn vic_mode(code: u64) -> Option<Mode>
    ensures { result ≡ mode_in formats code }
{
    match u8::try_from(code) {
        Ok(code) => Mode::vic(code),
        Err(_) => None,
    }
}

/// `mode HA HF HS HB VA VF VS VB P`, by what follows the name.
pub(crate) fn mode(rest: &[u8]) -> ContentForm<'_>
    ensures form { IsContentForm result (numbers_form 9 mode_reported rest.now) }
    ensures fits { IsFit result }
{
    let mut fields = [0; 9];
    if !numbers(rest, &mut fields) {
        return ContentForm::Other;
    }
    mode_of(&fields)
}

/// The mode of nine numbers.
#[tactic(auto, unfolding(crate::specs::ContentForms::mode_reported))]
fn mode_of(fields: &[u64; 9]) -> ContentForm<'static>
    ensures form { IsContentForm result (mode_reported fields.now) }
    ensures fits { IsFit result }
{
    let mut across = [0; 4];
    let mut down = [0; 4];
    if to_words(&fields[..4], &mut across)
        && (to_words(&fields[4..8], &mut down) && fields[8] < 2)
    {
        ContentForm::Mode(Some(Mode {
            across,
            down,
            positive: fields[8] == 1,
        }))
    } else {
        ContentForm::Mode(None)
    }
}

/// `frame W H`, by what follows the name.
pub(crate) fn frame(rest: &[u8]) -> ContentForm<'_>
    ensures form { IsContentForm result (numbers_form 2 frame_reported rest.now) }
    ensures fits { IsFit result }
{
    let mut fields = [0; 2];
    if !numbers(rest, &mut fields) {
        return ContentForm::Other;
    }
    ContentForm::Frame(fields[0], fields[1])
}

/// `avi S B A Y R M C SC Q EC ITC VIC PR T0 T1 T2 T3`, by what follows the name.
pub(crate) fn avi(rest: &[u8]) -> ContentForm<'_>
    ensures form { IsContentForm result (numbers_form 17 avi_reported rest.now) }
    ensures fits { IsFit result }
{
    let mut fields = [0; 17];
    if !numbers(rest, &mut fields) {
        return ContentForm::Other;
    }
    avi_of(&fields)
}

/// The packet of the fields of an AVI InfoFrame.
#[tactic(auto, unfolding(crate::specs::ContentForms::avi_reported))]
fn avi_of(fields: &[u64; 17]) -> ContentForm<'static>
    ensures form { IsContentForm result (avi_reported fields.now) }
    ensures fits { IsFit result }
{
    let mut n = [0; 13];
    let mut bars = [0; 4];
    if !to_bytes(&fields[..13], &mut n) {
        return ContentForm::Packet(None);
    }
    if !to_words(&fields[13..17], &mut bars) {
        return ContentForm::Packet(None);
    }
    ContentForm::Packet(info_packet(&Info::Avi(Avi {
        s: n[0],
        b: n[1],
        a: n[2],
        y: n[3],
        r: n[4],
        m: n[5],
        c: n[6],
        sc: n[7],
        q: n[8],
        ec: n[9],
        itc: n[10],
        vic: n[11],
        pr: n[12],
        bars,
    })))
}

/// `audio CC CT SS SF CA LSV DM`, by what follows the name.
pub(crate) fn audio(rest: &[u8]) -> ContentForm<'_>
    ensures form { IsContentForm result (numbers_form 7 audio_reported rest.now) }
    ensures fits { IsFit result }
{
    let mut fields = [0; 7];
    if !numbers(rest, &mut fields) {
        return ContentForm::Other;
    }
    audio_of(&fields)
}

/// The packet of the fields of an audio InfoFrame.
#[tactic(auto, unfolding(crate::specs::ContentForms::audio_reported))]
fn audio_of(fields: &[u64; 7]) -> ContentForm<'static>
    ensures form { IsContentForm result (audio_reported fields.now) }
    ensures fits { IsFit result }
{
    let mut n = [0; 7];
    if to_bytes(fields, &mut n) {
        ContentForm::Packet(info_packet(&Info::Audio(AudioInfo {
            cc: n[0],
            ct: n[1],
            ss: n[2],
            sf: n[3],
            ca: n[4],
            lsv: n[5],
            dm: n[6],
        })))
    } else {
        ContentForm::Packet(None)
    }
}

/// `acr N CTS`, by what follows the name.
pub(crate) fn acr(rest: &[u8]) -> ContentForm<'_>
    ensures form { IsContentForm result (numbers_form 2 acr_reported rest.now) }
    ensures fits { IsFit result }
{
    let mut fields = [0; 2];
    if !numbers(rest, &mut fields) {
        return ContentForm::Other;
    }
    acr_of(&fields)
}

/// The packet of two clock numbers.
#[tactic(auto, unfolding(crate::specs::ContentForms::acr_reported))]
fn acr_of(fields: &[u64; 2]) -> ContentForm<'static>
    ensures form { IsContentForm result (acr_reported fields.now) }
    ensures fits { IsFit result }
{
    if fields[0] < 0x10_0000 && fields[1] < 0x10_0000 {
        let acr = Acr {
            n: fields[0] as u32,
            cts: fields[1] as u32,
        };
        let mut packet = blank_packet();
        write_acr(&acr, &mut packet);
        ContentForm::Packet(Some(packet))
    } else {
        ContentForm::Packet(None)
    }
}

/// `gcp S C D`, by what follows the name.
pub(crate) fn gcp(rest: &[u8]) -> ContentForm<'_>
    ensures form { IsContentForm result (numbers_form 3 gcp_reported rest.now) }
    ensures fits { IsFit result }
{
    let mut fields = [0; 3];
    if !numbers(rest, &mut fields) {
        return ContentForm::Other;
    }
    gcp_of(&fields)
}

/// The packet of general control (HDMI 1.4, section 5.3.6): set mute, clear mute and the depth.
#[tactic(auto, unfolding(crate::specs::ContentForms::gcp_reported))]
fn gcp_of(fields: &[u64; 3]) -> ContentForm<'static>
    ensures form { IsContentForm result (gcp_reported fields.now) }
    ensures fits { IsFit result }
{
    if fields[0] < 2 && (fields[1] < 2 && fields[2] < 16) {
        let packet = control_packet(fields[0] as u8, fields[1] as u8, fields[2] as u8);
        ContentForm::Packet(Some(packet))
    } else {
        ContentForm::Packet(None)
    }
}

/// Four like bodies of two bytes and zeros.
#[tactic(auto, unfolding(crate::specs::InfoPackets::control_packet))]
fn control_packet(set: u8, clear: u8, depth: u8) -> Packet
    requires set { set < 2 }
    requires clear { clear < 2 }
    ensures { result ≡ control_packet set clear depth }
{
    let mute = set + 16 * clear;
    Packet {
        header: [3, 0, 0],
        bodies: [
            mute, depth, 0, 0, 0, 0, 0, mute, depth, 0, 0, 0, 0, 0, mute, depth, 0, 0, 0, 0, 0,
            mute, depth, 0, 0, 0, 0, 0,
        ],
        sync: [0; 32],
    }
}
