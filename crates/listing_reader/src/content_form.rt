//! The form of a line of a content listing: what the line says, before any pixel is made.
ghost use Rattle.std.specs.Prelude.{◌≡◌};
ghost use Rattle.listing_reader.specs.ContentForms.{content_form_of, digits_line, numbers_line, row_form};
ghost use Rattle.listing_reader.specs.ContentFormSeen.{IsContentForm, IsFit};

use crate::content_digits::{info, packet, sample, spd};
use crate::content_fields::{acr, audio, avi, frame, gcp, mode, vic};
use crate::form::begins_fault;
use crate::lines::LINE_LIMIT;
use audio_packets::Sample;
use island_pack::Packet;
use source_end::Mode;

/// What is seen in a line without its line feed; none where one of its numbers is outside its range.
#[derive(Clone, Copy)]
pub(crate) enum ContentForm<'a> {
    /// `vic V` and `mode ..`.
    Mode(Option<Mode>),
    /// `row X`: what should be the hexadecimal digits of the pixels, six a pixel. They are not looked at.
    Row(&'a [u8]),
    /// `frame W H`.
    Frame(u64, u64),
    /// `avi ..`, `audio ..`, `spd ..`, `info ..`, `acr ..`, `gcp ..` and `packet ..`.
    Packet(Option<Packet>),
    /// `s L R l r B X`.
    Sample(Option<Sample>),
    /// `end`.
    End,
    /// `! ..` or `cut ..`, which only a receiver writes.
    Fault,
    /// A line of none of these forms.
    Other,
}

/// Returns the form of a line, which is given without its line feed.
#[tactic(auto, unfolding(crate::specs::ContentForms::content_form_of))]
pub(crate) fn read_content_form(line: &[u8]) -> ContentForm<'_>
    ensures form { IsContentForm result (content_form_of line.now) }
    ensures fits { IsFit result }
{
    if begins_fault(line) {
        return ContentForm::Fault;
    }
    if line.len() > LINE_LIMIT {
        return ContentForm::Other;
    }
    if line.starts_with(b"row ") {
        return row(&line[4..]);
    }
    if line.starts_with(b"s ") {
        return sample(&line[2..]);
    }
    if line.starts_with(b"end") && line.len() == 3 {
        return ContentForm::End;
    }
    digits_line(line)
}

/// The form of a line of hexadecimal digits, by its name.
#[tactic(auto, unfolding(crate::specs::ContentForms::digits_line))]
fn digits_line(line: &[u8]) -> ContentForm<'_>
    ensures form { IsContentForm result (digits_line line.now) }
    ensures fits { IsFit result }
{
    if line.starts_with(b"spd ") {
        return spd(&line[4..]);
    }
    if line.starts_with(b"info ") {
        return info(&line[5..]);
    }
    if line.starts_with(b"packet ") {
        return packet(&line[7..]);
    }
    numbers_line(line)
}

/// The form of a line of decimal numbers, by its name.
#[tactic(auto, unfolding(crate::specs::ContentForms::numbers_line))]
fn numbers_line(line: &[u8]) -> ContentForm<'_>
    ensures form { IsContentForm result (numbers_line line.now) }
    ensures fits { IsFit result }
{
    if line.starts_with(b"vic ") {
        return vic(&line[4..]);
    }
    if line.starts_with(b"mode ") {
        return mode(&line[5..]);
    }
    if line.starts_with(b"frame ") {
        return frame(&line[6..]);
    }
    if line.starts_with(b"avi ") {
        return avi(&line[4..]);
    }
    if line.starts_with(b"audio ") {
        return audio(&line[6..]);
    }
    if line.starts_with(b"acr ") {
        return acr(&line[4..]);
    }
    if line.starts_with(b"gcp ") {
        return gcp(&line[4..]);
    }
    ContentForm::Other
}

/// The form of a line by what follows `row `: six bytes a pixel.
#[tactic(auto, using(crate::proofs::ContentLines::row_seen, crate::proofs::ContentLines::row_odd))]
fn row(digits: &[u8]) -> ContentForm<'_>
    ensures form { IsContentForm result (row_form digits.now) }
    ensures fits { IsFit result }
{
    if digits.len() % 6 == 0 {
        ContentForm::Row(digits)
    } else {
        ContentForm::Other
    }
}
