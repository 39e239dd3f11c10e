//! The lines of frames.
ghost use Rattle.std.specs.Prelude.{◌≡◌, ◌+◌, ◌*◌, ◌<◌, ◌≤◌, ℕ, List, [], ◌∷◌, ◌++◌, length, codes};
ghost use Rattle.hex.specs.Hex.{encode_lower};
ghost use Rattle.audio_packets.specs.declared.sample.Sample.{Sample as SampleType};
ghost use Rattle.audio_out.specs.Blocks.{IsBlocksAfter, block_of};
ghost use Rattle.audio_out.specs.Subframes.{IsSound};
ghost use Rattle.biphase_listing.specs.Fours.{HasFours};
ghost use Rattle.biphase_listing.specs.Groups.{is_block, sample_of, most_frames};
ghost use Rattle.biphase_listing.specs.FrameText.{frame_text, status_text};
ghost use Rattle.biphase_listing.specs.Reading.{Adds, StopsAt};
ghost use Rattle.std.specs.Prelude.{Some};

use crate::frame_line::{flags_of, frame_line};
use crate::side::{Side, group_from, read_side};
use crate::text::Text;
use audio_out::{BlockStatus, Blocks, Mark};
use audio_packets::Sample;

/// How many bytes are read at a time: those of 256 frames.
pub(crate) const PIECE: usize = 4096;

/// How the frames of a piece stop.
#[derive(Clone, Copy)]
pub(crate) enum Stop {
    /// Less than a frame is left.
    End,
    /// The left side of the next frame is no left side.
    Left,
    /// Its right side is no right side.
    Right,
}

/// The lines of the frames of a piece, and what they depend on of the frames before.
#[derive(Drop)]
pub(crate) struct FrameLines {
    pub(crate) blocks: Blocks,
    pub(crate) text: Text,
    /// How many frames there were.
    pub(crate) count: u32,
}

impl FrameLines {
    /// No frames.
    pub(crate) fn new() -> FrameLines
        ensures blocks { IsBlocksAfter result.blocks [] }
        ensures count { result.count ≡ 0 }
    {
        FrameLines {
            blocks: Blocks::new(),
            text: Text::new(),
            count: 0,
        }
    }

    /// Lists the frames of a piece, and says how they stop.
    #[inline(never)]
    pub(crate) fn list(&mut self, piece: &[u8]) -> Stop
        requires size { length piece.now ≤ 4096 }
        requires few { 16 * self.old.count + length piece.now ≤ 16 * most_frames + 1 }
        ensures { (samples : List SampleType) × (rest : List ℕ) × Adds piece.now self.old self.new samples rest × StopsAt result rest }
    {
        self.text.clear();
        let whole = piece.len() / 16 * 16;
        let mut place = 0;
        while place < whole {
            let Some(left) = read_side(&group_from(piece, place), false) else {
                return Stop::Left;
            };
            let Some(right) = read_side(&group_from(piece, place + 8), true) else {
                return Stop::Right;
            };
            self.add(&left, &right);
            place += 16;
        }
        last_stop(&piece[place..])
    }

    /// Adds the lines of a frame.
    fn add(&mut self, left: &Side, right: &Side)
        requires room { length self.old.text + 164 ≤ 41984 }
        requires few { self.old.count < most_frames }
        requires left { IsSound left.now.sub }
        requires right { IsSound right.now.sub }
        requires left_fours { HasFours left.now.sub left.now.fours }
        requires right_fours { HasFours right.now.sub right.now.fours }
        ensures room { length self.new.text ≤ length self.old.text + 164 }
        ensures count { self.new.count ≡ self.old.count + 1 }
        ensures blocks { (past : List SampleType) → IsBlocksAfter self.old.blocks past → IsBlocksAfter self.new.blocks (past ++ sample_of left.now.sub right.now.sub ∷ []) }
        ensures text { (past : List SampleType) → IsBlocksAfter self.old.blocks past
            → self.new.text ≡ self.old.text ++ frame_text past (sample_of left.now.sub right.now.sub) }
    {
        let sample = Sample {
            left: left.sub.value,
            right: right.sub.value,
            left_flags: flags_of(left),
            right_flags: flags_of(right),
            start: is_block(left.sub.mark),
            flat: false,
        };
        self.text.put(&frame_line(left, right));
        if self.blocks.take(&sample) {
            self.end_block();
        }
        self.count += 1;
    }

    /// Puts the line of the channel status of a block that is full: seldom, and so not in the way of other frames.
    #[inline(never)]
    fn end_block(&mut self)
        requires { length self.old.text + 104 ≤ 41984 }
        ensures blocks { self.new.blocks ≡ self.old.blocks }
        ensures count { self.new.count ≡ self.old.count }
        ensures room { length self.new.text ≤ length self.old.text + 104 }
        ensures text { (past : List SampleType) → IsBlocksAfter self.old.blocks past → self.new.text ≡ self.old.text ++ status_text (block_of past) }
    {
        if let Some(status) = self.blocks.status() {
            put_status(&mut self.text, &status);
        }
    }
}

/// How frames stop where less than a frame is left.
fn last_stop(rest: &[u8]) -> Stop
    requires { length rest.now < 16 }
    ensures { StopsAt result rest.now }
{
    if rest.len() < 8 || read_side(&group_from(rest, 0), false).is_some() {
        Stop::End
    } else {
        Stop::Left
    }
}

/// Whether a block starts with the mark.
fn is_block(mark: Mark) -> bool
    ensures { result ≡ is_block mark }
{
    matches!(mark, Mark::B)
}

/// Puts the line of the channel status of a block.
#[tactic(auto, unfolding(crate::specs::FrameText::status_text))]
fn put_status(text: &mut Text, status: &BlockStatus)
    requires { length text.old + 104 ≤ 41984 }
    ensures items { text.new ≡ text.old ++ status_text (Some status.now) }
    ensures len { length text.new ≡ length text.old + 104 }
{
    text.put(b"block ");
    put_hex(text, &status.left);
    text.put(b" ");
    put_hex(text, &status.right);
    text.put(b"\n");
}

/// Puts the hexadecimal digits of the channel status of a side.
fn put_hex(text: &mut Text, bytes: &[u8; 24])
    requires { length text.old + 48 ≤ 41984 }
    ensures items { text.new ≡ text.old ++ encode_lower bytes.now }
    ensures len { length text.new ≡ length text.old + 48 }
{
    let mut digits = [0; 48];
    match hex::encode_to_slice(bytes, &mut digits) {
        Ok(()) => text.put(&digits),
        Err(_) => unreachable!(),
    }
}
