//! Words of the tables and their values.
ghost use Rattle.std.specs.Prelude.{◌≡◌, ◌<◌, ◌≤◌, slice_index, unwrap_or, IfSome};
ghost use Rattle.terc4.specs.Tables.{control_words, terc_words, value_in};

use crate::tables::{control_code, control_word, terc_code, terc_word};
use tmds_word::Word;

/// The two bits D1 D0 that a control word carries, from 0 to 3; none for any other word
/// (HDMI 1.4, section 5.4.2).
pub fn control_of(word: Word) -> Option<u8>
    ensures value { result ≡ value_in control_words word }
    ensures below { IfSome result (λ value. value < 4) }
{
    let code = control_code(word.value());
    if code < 4 { Some(code) } else { None }
}

/// The control word of two bits D1 D0, a value from 0 to 3 (HDMI 1.4, section 5.4.2).
pub fn control(value: u8) -> Word
    requires { value < 4 }
    ensures { result ≡ slice_index control_words value }
{
    Word::of(control_word(value))
}

/// The four bits D3 to D0 that a TERC4 word carries, from 0 to 15; none for any other word
/// (HDMI 1.4, section 5.4.3).
pub fn nibble(word: Word) -> Option<u8>
    ensures value { result ≡ value_in terc_words word }
    ensures below { IfSome result (λ value. value < 16) }
{
    let code = terc_code(word.value());
    if code < 16 { Some(code) } else { None }
}

/// The four bits D3 to D0 that a TERC4 word carries, and 16 for any other word.
pub fn nibble_code(word: Word) -> u8
    ensures value { result ≡ unwrap_or (value_in terc_words word) 16 }
    ensures most { result ≤ 16 }
{
    terc_code(word.value())
}

/// The TERC4 word of four bits D3 to D0, a value from 0 to 15 (HDMI 1.4, section 5.4.3).
pub fn terc(value: u8) -> Word
    requires { value < 16 }
    ensures { result ≡ slice_index terc_words value }
{
    Word::of(terc_word(value))
}
