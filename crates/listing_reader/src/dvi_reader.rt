//! What the lines of a listing without guard bands say, one line after the other.
ghost use Rattle.std.specs.Prelude.{◌≡◌, ◌≤◌, ◌<◌, ◌++◌, ◌%◌, ℕ, List, length, true, IfOk, OnOk};
ghost use Rattle.hex.specs.Hex.{decode_of};
ghost use Rattle.listing_reader.specs.DviReading.{dvi_line_cause, dvi_step_by, with_dvi_line};
ghost use Rattle.listing_reader.specs.FormSeen.{IsForm};
ghost use Rattle.listing_reader.specs.Forms.{LineForm, video_by};
ghost use Rattle.listing_reader.specs.Reported.{AnswersCause};
ghost use Rattle.listing_reader.specs.Taken.{Takes};

use crate::ListCause;
use crate::form::{Form, read_form};
use crate::periods::Periods;
use crate::pixels::decode_pixels;
use crate::teller::{Refusal, Taken, Teller};
use source_end::{DviStream, Item, WithoutGuards};

impl Teller for Periods<WithoutGuards> {
    ghost use Rattle.listing_reader.specs.DviReading.{dvi_step};

    type Whole = DviStream;

    ghost step = { dvi_step };

    ghost lines = { λ _. 0 };

    fn take(self, line: &[u8]) -> Result<Taken<Periods<WithoutGuards>, DviStream>, Refusal> {
        take_form(self, read_form(line))
    }
}

/// Takes what a line of this form says, or refuses the line with its first cause. The periods are dropped on a refusal.
fn take_form(
    periods: Periods<WithoutGuards>,
    form: Form<'_>,
) -> Result<Taken<Periods<WithoutGuards>, DviStream>, Refusal>
    requires { (reported : LineForm) × IsForm form reported }
    ensures { (reported : LineForm) → IsForm form.entry reported → Takes (dvi_step_by (dvi_line_cause periods reported) reported periods) result }
{
    match form {
        Form::Control { value, count } => Ok(Taken::More(periods.run(value, count)?)),
        Form::Video(digits) => Ok(Taken::More(video(periods, digits)?)),
        Form::End => Ok(Taken::End(periods.close()?)),
        Form::Fault => Err(Refusal::Cause(ListCause::Fault)),
        Form::Island(_) | Form::Packet(_) | Form::Close(_) | Form::Other => {
            Err(Refusal::Cause(ListCause::Form))
        }
    }
}

/// Takes a video period, given as what should be its hexadecimal digits.
fn video(periods: Periods<WithoutGuards>, digits: &[u8]) -> Result<Periods<WithoutGuards>, Refusal>
    requires { length digits.now % 6 ≡ 0 }
    ensures cause { AnswersCause (dvi_line_cause periods (video_by true (decode_of digits.now))) result }
    ensures ok { IfOk result (λ p. p ≡ with_dvi_line (video_by true (decode_of digits.now)) periods) }
{
    let pixels = decode_pixels(periods.alloc(), digits)?;
    periods.push(Item::Video(pixels))
}
