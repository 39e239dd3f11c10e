//! The words of one lane of a line, and the first that is wrongly coded.
ghost use Rattle.std.specs.Prelude.{◌≡◌, ◌<◌, ◌≤◌, ◌+◌, ◌*◌, ◌^◌, ◌++◌, ◌∷◌, [], List, ℕ, length};
ghost use Rattle.tmds_code.specs.Coding.{decoded_byte};
ghost use Rattle.island_pack.specs.declared.ranges.TheConstants.{PIXEL_LIMIT};
ghost use Rattle.period_grammar.specs.Judged.{IsLaneAfter};
ghost use Rattle.period_grammar.specs.LineSeen.{IsSized};
ghost use Rattle.period_grammar.specs.Sixteen.{IsHeard, IsStepOf};

use crate::sixteen::LaneFront;
use tmds_code::CodeJudge;
use tmds_word::Word;

/// Judges the words of a lane one after another, and keeps the place of the first wrong one.
#[derive(Clone, Copy, Drop)]
pub struct LaneJudge {
    pub judge: CodeJudge,
    pub first: Option<u32>,
}

impl LaneJudge {
    /// A lane before its first word.
    pub fn new() -> LaneJudge
        ensures sized { IsSized result 0 }
        ensures heard { IsLaneAfter result [] }
    {
        LaneJudge {
            judge: CodeJudge::new(),
            first: None,
        }
    }

    /// Receives the word of a pixel, and gives its byte.
    pub fn hear(&mut self, pixel: u32, word: Word) -> u8
        requires few { pixel < PIXEL_LIMIT }
        requires sized { IsSized self.old pixel }
        ensures byte { result ≡ decoded_byte word }
        ensures sized { IsSized self.new (pixel + 1) }
        ensures heard { (ws : List ℕ) → IsLaneAfter self.old ws → IsLaneAfter self.new (ws ++ word ∷ []) }
    {
        let (byte, right) = self.judge.hear(word);
        if !right && self.first.is_none() {
            self.first = Some(pixel);
        }
        byte
    }

    /// The step from which words that follow are judged.
    #[inline(always)]
    pub fn step(&self) -> u8
        ensures within { result ≤ 8 }
        ensures step { IsStepOf self.now.judge.disparity result }
    {
        self.judge.step()
    }

    /// Receives the words from a pixel on at once, by what was judged of them from this lane's step.
    #[inline(always)]
    pub fn hear_front(&mut self, pixel: u32, count: usize, front: LaneFront)
        requires few { pixel + count ≤ PIXEL_LIMIT }
        requires sized { IsSized self.old pixel }
        requires count { count ≤ 16 }
        requires wrong { front.wrong < 2 ^ count }
        requires ones { front.ones ≤ 10 * count }
        ensures sized { IsSized self.new (pixel + count) }
        ensures heard { (ws vs : List ℕ) (step : ℕ) → IsLaneAfter self.old ws → length vs ≡ count → IsStepOf self.old.judge.disparity step → IsHeard step vs front → IsLaneAfter self.new (ws ++ vs) }
    {
        self.judge.hear_counted(count as u16, u16::from(front.ones));
        if self.first.is_none() && front.wrong != 0 {
            self.first = Some(pixel + front.wrong.trailing_zeros());
        }
    }
}
