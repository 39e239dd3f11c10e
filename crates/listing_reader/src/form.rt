//! The form of a line of a listing: what the line says, before any pixel is made.
ghost use Rattle.std.specs.Prelude.{◌≡◌, ◌≤◌, [], length};
ghost use Rattle.listing_reader.specs.FormSeen.{IsForm, IsPair, digits_of};
ghost use Rattle.listing_reader.specs.Forms.{close_line, control_form, form_of, is_fault, island_line, number_of, packet_form, pair_form, video_form};

use crate::lines::LINE_LIMIT;
use crate::packet::read_packet;
use island_pack::Packet;

// The most digits of a number of columns.
const NUMBER_LIMIT: usize = 10;

/// What is seen in a line without its line feed.
#[derive(Clone, Copy)]
pub(crate) enum Form<'a> {
    /// `c HH N`: the value and the number of columns, each perhaps out of its range.
    Control { value: u8, count: u64 },
    /// `v X`: what should be the hexadecimal digits of the pixels, six a pixel. They are not looked at.
    Video(&'a [u8]),
    /// `i AB`: the sync values of the guard that opens a data island, each perhaps out of its range.
    Island([u8; 2]),
    /// `p H B0 B1 B2 B3 S`: a packet, its sync values perhaps out of their range.
    Packet(Packet),
    /// `e AB`: the sync values of the guard that closes a data island, each perhaps out of its range.
    Close([u8; 2]),
    /// `end`.
    End,
    /// `! ..` or `cut ..`, which only a receiver writes.
    Fault,
    /// A line of none of these forms.
    Other,
}

/// Returns the form of a line, which is given without its line feed.
#[tactic(auto, unfolding(crate::specs::Forms::form_of))]
pub(crate) fn read_form(line: &[u8]) -> Form<'_>
    ensures form { IsForm result (form_of line.now) }
    ensures short { length (digits_of result) ≤ 32766 }
{
    if begins_fault(line) {
        return Form::Fault;
    }
    if line.len() > LINE_LIMIT {
        return Form::Other;
    }
    if line.starts_with(b"c ") {
        return control(&line[2..]);
    }
    if line.starts_with(b"v ") {
        return video(&line[2..]);
    }
    if line.starts_with(b"i ") {
        return island(&line[2..]);
    }
    if line.starts_with(b"p ") {
        return packet_line(&line[2..]);
    }
    if line.starts_with(b"e ") {
        return close(&line[2..]);
    }
    if line.starts_with(b"end") && line.len() == 3 {
        return Form::End;
    }
    Form::Other
}

// Whether the line is one that only a receiver writes.
#[tactic(auto, unfolding(crate::specs::Forms::is_fault))]
pub(crate) fn begins_fault(line: &[u8]) -> bool
    ensures { result ≡ is_fault line.now }
{
    line.starts_with(b"! ") || line.starts_with(b"cut ")
}

// The form of a line by what follows `c `: two hexadecimal digits, a space, a number.
#[tactic(auto, unfolding(crate::specs::Forms::control_form))]
fn control(rest: &[u8]) -> Form<'_>
    ensures form { IsForm result (control_form rest.now) }
    ensures none { digits_of result ≡ [] }
{
    if rest.len() < 3 || rest[2] != b' ' {
        return Form::Other;
    }
    let mut value = [0];
    if hex::decode_to_slice(&rest[..2], &mut value).is_err() {
        return Form::Other;
    }
    match number(&rest[3..]) {
        Some(count) => Form::Control {
            value: value[0],
            count,
        },
        None => Form::Other,
    }
}

/// The number that one to ten decimal digits are, leading zeros allowed; none for any other text.
#[tactic(auto, unfolding(crate::specs::Forms::number_of, crate::specs::Forms::digits_after))]
pub(crate) fn number(digits: &[u8]) -> Option<u64>
    ensures { result ≡ number_of digits.now }
{
    if digits.is_empty() || digits.len() > NUMBER_LIMIT {
        return None;
    }
    let mut value = 0;
    for digit in digits {
        if !digit.is_ascii_digit() {
            return None;
        }
        value = 10 * value + u64::from(*digit - b'0');
    }
    Some(value)
}

// The form of a line by what follows `v `: six bytes a pixel.
#[tactic(auto, using(crate::proofs::Numbers::video_seen, crate::proofs::Numbers::video_odd))]
fn video(digits: &[u8]) -> Form<'_>
    ensures form { IsForm result (video_form digits.now) }
    ensures short { length (digits_of result) ≤ length digits.now }
{
    if digits.len() % 6 == 0 {
        Form::Video(digits)
    } else {
        Form::Other
    }
}

// The form of a line by what follows `i `: two decimal digits.
fn island(rest: &[u8]) -> Form<'_>
    ensures form { IsForm result (pair_form island_line rest.now) }
    ensures none { digits_of result ≡ [] }
{
    match sync_pair(rest) {
        Some(sync) => Form::Island(sync),
        None => Form::Other,
    }
}

// The form of a line by what follows `p `: a packet.
fn packet_line(rest: &[u8]) -> Form<'_>
    ensures form { IsForm result (packet_form rest.now) }
    ensures none { digits_of result ≡ [] }
{
    match read_packet(rest) {
        Some(packet) => Form::Packet(packet),
        None => Form::Other,
    }
}

// The form of a line by what follows `e `: two decimal digits.
fn close(rest: &[u8]) -> Form<'_>
    ensures form { IsForm result (pair_form close_line rest.now) }
    ensures none { digits_of result ≡ [] }
{
    match sync_pair(rest) {
        Some(sync) => Form::Close(sync),
        None => Form::Other,
    }
}

// The sync values that two decimal digits are; none for any other text.
#[tactic(auto, unfolding(crate::specs::Forms::pair_form))]
fn sync_pair(digits: &[u8]) -> Option<[u8; 2]>
    ensures { IsPair digits.now result }
{
    if digits.len() == 2 && (digits[0].is_ascii_digit() && digits[1].is_ascii_digit()) {
        Some([digits[0] - b'0', digits[1] - b'0'])
    } else {
        None
    }
}
