//! The words of damages: `L:P:V`, the digit of a lane, a place, and the three hexadecimal digits of a character.
ghost use Rattle.std.specs.Prelude.{◌≡◌, ◌<◌, List, length, IfOk, MatchOption, Some, None};
ghost use Rattle.command_line.specs.declared.damage.DamageWord.{DamageWord as DamageValue};
ghost use Rattle.command_line.specs.Damages.{AreDamages};
ghost use Rattle.command_line.specs.Grammar.{texts};
ghost use Rattle.command_line.specs.Parsing.{character_of, damage_of, lane_of, mark_split};

use crate::numbers::read_number;
use outside_io::NoMemory;
use std::alloc::Global;
use std::marker::Model;
use tmds_word::Word;

/// A character that is to stand in place of the ten bits of a lane from a place on.
#[derive(Clone, Copy)]
pub struct DamageWord {
    /// The lane: blue is 0, green is 1 and red is 2.
    pub lane: u8,
    /// Where the ten bits begin.
    pub place: u32,
    /// The character.
    pub value: Word,
}

/// The damages of a command, in order: at least one. Contracts see them as a list.
#[derive(Drop)]
pub struct Damages {
    list: Vec<DamageWord>,
}

impl Model for Damages {
    ghost use Rattle.std.specs.Prelude.{List, length, ◌<◌};
    ghost use Rattle.command_line.specs.declared.damage.DamageWord.{DamageWord};

    ghost Value = { List DamageWord };

    ghost view = { λ d. d.list.items };

    ghost invariant = { λ d. 0 < length d.list.items };
}

impl Damages {
    /// The damages, in order.
    pub fn as_slice(&self) -> &[DamageWord]
        ensures list { result.now ≡ self.now }
        ensures some { 0 < length self.now }
    {
        self.list.as_slice()
    }
}

/// The damages of words, in order; none where a word is that of no damage, or where there are no words.
pub(crate) fn read_damages(alloc: Global, words: &[&str]) -> Result<Option<Damages>, NoMemory>
    ensures { IfOk result (λ answer. MatchOption answer ((damages : List DamageValue) → AreDamages (texts words.now) damages → 0 < length words.now → ⊥) (λ damages. AreDamages (texts words.now) damages × (0 < length words.now))) }
{
    if words.is_empty() {
        return Ok(None);
    }
    let mut list = Vec::with_capacity(alloc, words.len())?;
    for word in words {
        match read_damage(word) {
            Some(damage) => list.push(damage)?,
            None => return Ok(None),
        }
    }
    Ok(Some(Damages { list }))
}

/// The damage of a word.
#[tactic(auto, unfolding(crate::specs::Parsing::damage_of))]
fn read_damage(text: &str) -> Option<DamageWord>
    ensures { result ≡ damage_of text.now }
{
    let (lane, rest) = colon_split(text)?;
    let (place, digits) = colon_split(rest)?;
    Some(DamageWord {
        lane: read_lane(lane)?,
        place: read_number(place, u32::MAX)?,
        value: read_character(digits)?,
    })
}

/// What stands before the first colon, and after it.
pub(crate) fn colon_split(text: &str) -> Option<(&str, &str)>
    ensures { MatchOption result (mark_split 58 text.now ≡ None) (λ x. mark_split 58 text.now ≡ Some (x.0.now, x.1.now)) }
{
    text.split_once(':')
}

/// The lane of a digit.
pub(crate) fn read_lane(text: &str) -> Option<u8>
    ensures { result ≡ lane_of text.now }
{
    match text {
        "0" => Some(0),
        "1" => Some(1),
        "2" => Some(2),
        _ => None,
    }
}

/// The character of three hexadecimal digits.
#[tactic(auto, unfolding(crate::specs::Parsing::character_of))]
fn read_character(digits: &str) -> Option<Word>
    ensures { result ≡ character_of digits.now }
{
    let [high, middle, low] = digits.as_bytes() else {
        return None;
    };
    let mut bytes = [0; 2];
    match hex::decode_to_slice([b'0', *high, *middle, *low], &mut bytes) {
        Ok(()) => Word::new(u16::from_be_bytes(bytes)),
        Err(_) => None,
    }
}
