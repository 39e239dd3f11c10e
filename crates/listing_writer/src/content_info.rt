//! The lines of InfoFrames.
ghost use Rattle.std.specs.Prelude.{◌≡◌, ◌≤◌, ◌++◌, ◌∷◌, [], length, slice_index, codes};
ghost use Rattle.infoframe.specs.Frames.{kind_of};
ghost use Rattle.listing_writer.specs.ContentText.{avi_words, audio_words, spd_words, raw_words, info_words};

use crate::line::{TextLine, fields_line, put, put_hex};
use infoframe::{AudioInfo, Avi, InfoRef, Spd};

/// The line of an InfoFrame with this type code.
pub(crate) fn info_line(type_code: u8, info: &InfoRef<'_>) -> TextLine
    requires { type_code ≡ info.now.type_code }
    ensures { result.items ≡ info_words (kind_of info.now.type_code info.now.version) info.now ++ codes "\n" }
{
    if let Some(avi) = info.avi() {
        return avi_line(&avi);
    }
    if let Some(audio) = info.audio() {
        return audio_line(&audio);
    }
    match info.spd() {
        Some(spd) => spd_line(&spd),
        None => raw_line(type_code, info.version(), info.payload()),
    }
}

#[tactic(auto, unfolding(crate::specs::ContentText::avi_words))]
fn avi_line(avi: &Avi) -> TextLine
    ensures { result.items ≡ avi_words avi.now ++ codes "\n" }
{
    let numbers = [
        u32::from(avi.s),
        u32::from(avi.b),
        u32::from(avi.a),
        u32::from(avi.y),
        u32::from(avi.r),
        u32::from(avi.m),
        u32::from(avi.c),
        u32::from(avi.sc),
        u32::from(avi.q),
        u32::from(avi.ec),
        u32::from(avi.itc),
        u32::from(avi.vic),
        u32::from(avi.pr),
        u32::from(avi.bars[0]),
        u32::from(avi.bars[1]),
        u32::from(avi.bars[2]),
        u32::from(avi.bars[3]),
    ];
    fields_line(b"avi", &numbers)
}

#[tactic(auto, unfolding(crate::specs::ContentText::audio_words))]
fn audio_line(audio: &AudioInfo) -> TextLine
    ensures { result.items ≡ audio_words audio.now ++ codes "\n" }
{
    let numbers = [
        u32::from(audio.cc),
        u32::from(audio.ct),
        u32::from(audio.ss),
        u32::from(audio.sf),
        u32::from(audio.ca),
        u32::from(audio.lsv),
        u32::from(audio.dm),
    ];
    fields_line(b"audio", &numbers)
}

#[tactic(auto, unfolding(crate::specs::ContentText::spd_words))]
fn spd_line(spd: &Spd) -> TextLine
    ensures { result.items ≡ spd_words spd.now ++ codes "\n" }
{
    let mut line = TextLine::new();
    put(&mut line, b"spd ");
    put_hex(&mut line, &spd.vendor);
    put(&mut line, b" ");
    put_hex(&mut line, &spd.product);
    put(&mut line, b" ");
    put_hex(&mut line, &[spd.kind]);
    put(&mut line, b"\n");
    line
}

#[tactic(auto, unfolding(crate::specs::ContentText::raw_words))]
fn raw_line(type_code: u8, version: u8, payload: &[u8]) -> TextLine
    requires { length payload.now ≤ 27 }
    ensures { result.items ≡ raw_words type_code version payload.now ++ codes "\n" }
{
    let mut line = TextLine::new();
    put(&mut line, b"info ");
    put_hex(&mut line, &[type_code]);
    put(&mut line, b" ");
    put_hex(&mut line, &[version]);
    if !payload.is_empty() {
        put(&mut line, b" ");
        put_hex(&mut line, payload);
    }
    put(&mut line, b"\n");
    line
}
