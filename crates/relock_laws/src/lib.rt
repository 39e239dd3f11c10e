//! Laws about alignments that guard bands confirm, refute or doubt: which epochs there are, and what they report.
//!
//! They are stated for `relock_rule`, and in `refuted` and `doubted` for the rule of `recover relock` (`refuting_rule`). An
//! epoch has one end or none, which later bits do not change. A stream received with the damage of `track_headline` has one
//! epoch by the first rule. It has one by the second too if damage after the alignment spares the beginning or the end of each
//! control period. With one slip within a line the ends are those of `recover track`. The alignment of a tap is refuted by
//! nothing, whatever sparse damage follows it, and not doubted if damage spares the beginning or the end of each. Whatever
//! arrived before a good control period, some epoch is aligned there, or was earlier where a guard band followed. By
//! `relock_rule` that epoch of a tap is the last, and reports the account if it is aligned there; by `refuting_rule` it does
//! so where it has the skew of the period. A wrong earlier alignment is refuted at a whole good period unless something opens
//! by it too, and doubted in any case at one that came whole from three characters before it on. By `relock_rule` only: if no
//! lane has a stray, there is one epoch, whatever arrived after the alignment. There is no code here: each function is a law,
//! and its contract states it.
#![tactic(auto)]

ghost use Rattle.relock_laws.specs.Laws.{PayloadIsLastEpoch, UntilIsLastEpoch, LocalIsLastEpoch, SlipIsConfirmed, SlipEnds, HasLastExample, HasSlipEndExample};
ghost use Rattle.relock_laws.specs.Refuted.{EndsOpen, PayloadStands, UntilStands, PeriodRefutes};
ghost use Rattle.relock_laws.specs.Settled.{EndsOrIsLast, OneEnd, SettlesAtPeriod, SettlesForGood, RecoversAgain, HasAgainExample};

pub mod amid;
pub mod doubted;
pub mod refuted;

/// The lanes of a tap whose damage lies only in pixels and packets have one epoch.
pub fn payload_is_last_epoch()
    ensures { PayloadIsLastEpoch }
{}

/// So have those of a tap whose damage is sparse, wherever it lies, and spares control and guard characters until a column
/// that each of them has.
pub fn until_is_last_epoch()
    ensures { UntilIsLastEpoch }
{}

/// And those of a tap of columns of which any may have been received after that column and the next, where no lane has a stray.
pub fn local_is_last_epoch()
    ensures { LocalIsLastEpoch }
{}

/// Where a lane slips once within a line, the first alignment is not unconfirmed.
pub fn slip_is_confirmed()
    ensures { SlipIsConfirmed }
{}

/// So there the epochs end where a lane has a stray, and nowhere else, and there are at most two.
pub fn slip_ends()
    ensures { SlipEnds }
{}

/// The premises can be met: a stream with damage of each kind of column, and a tap of it that is aligned.
pub fn last_example()
    ensures { HasLastExample }
{}

/// So can those on a slip: a stream, a tap and a slip where both epochs have a full alignment.
pub fn slip_end_example()
    ensures { HasSlipEndExample }
{}

/// An epoch has an end, or it is the last; and it has one.
pub fn ends_or_is_last()
    ensures some { EndsOrIsLast }
    ensures one { OneEnd }
{}

/// Whatever came before a control period of nineteen characters on each lane after which a period opens: an epoch has the last
/// twelve of them and does not end before them, and its alignment is there, or was confirmed before.
pub fn settles_at_period()
    ensures { SettlesAtPeriod }
{}

/// That epoch is the last where of any eleven characters of a lane at most two are damaged from there on.
pub fn settles_for_good()
    ensures { SettlesForGood }
{}

/// So is that of a tap of columns received with sparse damage, after any bits; and what is reported from such a control period on,
/// where the epoch is aligned there, is the account.
pub fn recovers_again()
    ensures { RecoversAgain }
{}

/// The premises can be met: a stream, a tap one lane of which loses bits, and a good control period after that.
pub fn again_example()
    ensures { HasAgainExample }
{}

/// After each control period that is received to end a period opens, where damage is sparse.
pub fn ends_open()
    ensures { EndsOpen }
{}

/// So the alignment of a tap is refuted by no other edges: where damage lies only in pixels and packets, and where it is sparse,
/// wherever it lies, and spares control and guard characters until a column that each lane has.
pub fn true_alignment_stands()
    ensures payload { PayloadStands }
    ensures until { UntilStands }
{}

/// Each earlier alignment with another skew is refuted at a control period of nineteen characters whose guard band is received whole,
/// or by it too something opens there.
pub fn period_refutes()
    ensures { PeriodRefutes }
{}
