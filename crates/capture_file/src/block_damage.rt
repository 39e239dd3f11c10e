//! Blocks with some of their bits replaced.
ghost use Rattle.std.specs.Prelude.{◌≡◌, ◌⊎◌, [], ℕ, ◌+◌, ◌-◌, ◌*◌, ◌^◌, ◌<◌, ◌≤◌, true, false, Bool, List, ◌++◌, length, take, drop, slice_set, All, Option, Some, Err, IfSome, IfNone, IfOk, IfErr, OnOk};
ghost use Rattle.std.specs.Io.KnownBytes.{Appends, Consumes, Keeps, IsAtEnd};
ghost use Rattle.outside_io.specs.Causes.{HasCause, Rose};
ghost use Rattle.capture_file.specs.Layout.{packed};
ghost use Rattle.tmds_word.specs.Bits.{bits_of, bytes_bits};
ghost use Rattle.capture_file.specs.Damage.{with_word};
ghost use Rattle.capture_file.specs.Captures.{AreBytes, IsFault, StopsIn, place_of, block_size, header_of, CanSay, IsHeaderPart, IsBlockPart, IsEarlyFault};
ghost use Rattle.capture_file.specs.Refusals.{IsReadCause};
ghost use Rattle.capture_file.specs.BlockDamage.{DamagedChunk, AllFitLanes, IsFirstPastLane, Halfway, CutIn, SaysFault, IsLateFault, SaysBad, SaysPlace, SaysUnread, IsMisplacedLane, IsDamagedCapture, IsDamageFault, ReadFailed, WriteFailed};
ghost use Rattle.capture_file.specs.declared.damaging.DamageError.TheVariants.{Place, Read, Write};

use crate::chunk::{Chunk, Chunks};
use crate::heading::{Heading, read_heading};
use crate::writing::{write_header, write_piece};
use crate::{BLOCK_BITS, BLOCK_BYTES, DamageError, Hit};
use outside_io::{Sink, Source, Wrote};
use tmds_word::Word;

impl Chunk {
    /// How many bits there are.
    pub(crate) fn len(&self) -> u32
        ensures { result ≡ length self.now }
    {
        self.count
    }

    /// Sets the bit at a place.
    fn set(&mut self, i: u32, value: bool)
        requires { i < length self.old }
        ensures { self.new ≡ slice_set self.old i value }
    {
        set_bit(&mut self.bytes, i as usize, value);
    }

    /// Replaces those of the ten bits from a place of the lane on that are in the chunk, which begins at bit
    /// `from` of the lane.
    fn hit(&mut self, from: u32, place: u32, value: Word)
        ensures length { length self.new ≡ length self.old }
        ensures part { (row : List Bool) → place + 10 ≤ length row → self.old ≡ take (length self.old) (drop from row)
            → self.new ≡ take (length self.old) (drop from (with_word place value row)) }
    {
        let first = u64::from(from);
        let end = first + u64::from(self.len());
        let begins = u64::from(place);
        if begins + 10 <= first || end <= begins {
            return;
        }
        for k in 0..10 {
            let at = begins + u64::from(k);
            if first <= at && at < end {
                self.set((at - first) as u32, value.sent_bit(k));
            }
        }
    }

    /// Replaces what hits of a lane, one after another, replace in the chunk.
    pub(crate) fn hit_all(&mut self, from: u32, lane: u8, hits: &[Hit])
        ensures { DamagedChunk lane from hits.now self.old self.new }
    {
        for hit in hits {
            if hit.lane == lane {
                self.hit(from, hit.place, hit.value);
            }
        }
    }
}

impl Chunks {
    /// Replaces what hits, one after another, replace in block `j`.
    fn hit_all(&mut self, j: u32, hits: &[Hit])
        requires { BLOCK_BITS * j < 2 ^ 32 }
        ensures blue { DamagedChunk 0 (BLOCK_BITS * j) hits.now self.old.blue self.new.blue }
        ensures green { DamagedChunk 1 (BLOCK_BITS * j) hits.now self.old.green self.new.green }
        ensures red { DamagedChunk 2 (BLOCK_BITS * j) hits.now self.old.red self.new.red }
    {
        self.blue.hit_all(BLOCK_BITS * j, 0, hits);
        self.green.hit_all(BLOCK_BITS * j, 1, hits);
        self.red.hit_all(BLOCK_BITS * j, 2, hits);
    }

    /// Writes the block.
    fn write<K: Sink>(&self, out: &mut K) -> Result<(), Wrote>
        ensures whole { OnOk result (Appends (K.held out.old) (K.held out.new) ((packed self.now.blue ++ packed self.now.green) ++ packed self.now.red)) }
        ensures part { IfErr result (λ w. Appends (K.held out.old) (K.held out.new) (take w.gone ((packed self.now.blue ++ packed self.now.green) ++ packed self.now.red))) }
        ensures missing { IfErr result (λ w. w.gone < length ((packed self.now.blue ++ packed self.now.green) ++ packed self.now.red)) }
        ensures cause { HasCause (K.faults out.old) (K.faults out.new) result }
    {
        let first = write_piece(out, self.blue.as_bytes())?;
        let second = match write_piece(out, self.green.as_bytes()) {
            Ok(count) => first + count,
            Err(part) => {
                return Err(Wrote {
                    gone: first + part.gone,
                });
            }
        };
        match write_piece(out, self.red.as_bytes()) {
            Ok(_) => Ok(()),
            Err(part) => Err(Wrote {
                gone: second + part.gone,
            }),
        }
    }
}

/// The first hit whose ten bits pass the end of its own lane.
fn first_past_lane(hits: &[Hit], bits: [u32; 3]) -> Option<u32>
    requires lanes { All (λ h. h.lane < 3) hits.now }
    requires few { length hits.now < 2 ^ 32 - 1 }
    ensures some { IfSome result (λ i. IsFirstPastLane bits hits.now i) }
    ensures none { IfNone result (AllFitLanes bits hits.now) }
{
    for i in 0..hits.len() {
        if hits[i].passes(bits[hits[i].lane as usize]) {
            return Some(i as u32);
        }
    }
    None
}

/// Sets a bit of packed bytes.
fn set_bit(bytes: &mut [u8; BLOCK_BYTES], i: usize, value: bool)
    requires { i < BLOCK_BITS }
    ensures bits { bytes_bits bytes.new ≡ slice_set (bytes_bits bytes.old) i value }
    ensures length { length bytes.new ≡ BLOCK_BYTES }
    ensures range { AreBytes bytes.new }
{
    let at = i / 8;
    bytes[at] = with_bit(bytes[at], (i % 8) as u8, value);
}

/// A byte with one of its bits set.
fn with_bit(byte: u8, at: u8, value: bool) -> u8
    requires { at < 8 }
    ensures { bits_of 8 result ≡ slice_set (bits_of 8 byte) at value }
{
    if value {
        byte | (1 << at)
    } else {
        byte & !(1 << at)
    }
}

/// Damages block `j` of a capture: reads it, replaces what the hits replace in it, and writes it. Says whether there was one; where
/// all blocks were read nothing is to follow.
fn damage_block<S: Source, K: Sink>(
    source: &mut S,
    heading: Heading,
    j: u32,
    hits: &[Hit],
    chunks: &mut Chunks,
    out: &mut K,
) -> Result<bool, DamageError>
    requires fits { AllFitLanes heading.bits hits.now }
    ensures below { IfOk result (λ more. more ≡ true → BLOCK_BITS * j < 2 ^ 32) }
    ensures ok { (taken : List ℕ) (before : Option (List ℕ)) → Halfway heading.version heading.bits hits.now j taken before (K.held out.old)
        → IfOk result (λ more. more ≡ true → (part : List ℕ) × Consumes (S.left source.old) (S.left source.new) part × Halfway heading.version heading.bits hits.now (j + 1) (taken ++ part) before (K.held out.new)) }
    ensures none { IfOk result (λ more. more ≡ false → (block_size j heading.bits ≡ 0) × Consumes (S.left source.old) (S.left source.new) [] × IsAtEnd (S.left source.new) × (K.held out.new ≡ K.held out.old)) }
    ensures err { (bytes taken : List ℕ) (before : Option (List ℕ)) → S.left source.old ≡ Some bytes → Halfway heading.version heading.bits hits.now j taken before (K.held out.old)
        → IfErr result (λ e. SaysFault (λ fault. IsFault (taken ++ bytes) fault × StopsIn heading.bits j taken (place_of fault)) e) }
    ensures unwritten { IfErr result (λ e. (e ≡ Write → ⊥) → Keeps (K.held out.old) (K.held out.new)) }
    ensures part { result ≡ Err Read → (part : List ℕ) × IsBlockPart heading.bits j part × Consumes (S.left source.old) (S.left source.new) part }
    ensures taken { (taken : List ℕ) × Consumes (S.left source.old) (S.left source.new) taken }
    ensures unplaced { (i : ℕ) → result ≡ Err (Place i) → ⊥ }
    ensures cut { (taken : List ℕ) (before : Option (List ℕ)) → Halfway heading.version heading.bits hits.now j taken before (K.held out.old) → result ≡ Err Write
        → (part : List ℕ) × Consumes (S.left source.old) (S.left source.new) part × CutIn heading.version heading.bits hits.now j (taken ++ part) before (K.held out.new) }
    ensures read_cause { result ≡ Err Read → Rose (S.faults source.old) (S.faults source.new) }
    ensures write_cause { result ≡ Err Write → Rose (K.faults out.old) (K.faults out.new) }
    ensures input_later { S.faults source.old ≤ S.faults source.new }
    ensures output_later { K.faults out.old ≤ K.faults out.new }
{
    match chunks.read_next(source, heading, j) {
        Ok(true) => {}
        Ok(false) => return Ok(false),
        Err(error) => return Err(DamageError::from(error)),
    }
    chunks.hit_all(j, hits);
    match chunks.write(out) {
        Ok(()) => Ok(true),
        Err(_) => Err(DamageError::Write),
    }
}

/// Damages every block of a capture whose header is taken and written, to the end of its bytes.
fn damage_lanes<S: Source, K: Sink>(
    source: &mut S,
    heading: Heading,
    hits: &[Hit],
    out: &mut K,
) -> Result<(), DamageError>
    requires fits { AllFitLanes heading.bits hits.now }
    ensures done { (bytes taken : List ℕ) (before : Option (List ℕ)) → S.left source.old ≡ Some bytes → Halfway heading.version heading.bits hits.now 0 taken before (K.held out.old)
        → OnOk result ((j : ℕ) × (block_size j heading.bits ≡ 0) × Halfway heading.version heading.bits hits.now j (taken ++ bytes) before (K.held out.new)) }
    ensures err { (bytes taken : List ℕ) (before : Option (List ℕ)) → S.left source.old ≡ Some bytes → Halfway heading.version heading.bits hits.now 0 taken before (K.held out.old)
        → IfErr result (λ e. SaysFault (λ fault. IsLateFault heading.version heading.bits hits.now bytes taken before (K.held out.new) fault) e) }
    ensures part { (taken : List ℕ) (before : Option (List ℕ)) → Halfway heading.version heading.bits hits.now 0 taken before (K.held out.old) → result ≡ Err Read
        → (j : ℕ) × (part more : List ℕ) × Halfway heading.version heading.bits hits.now j (taken ++ part) before (K.held out.new)
        × IsBlockPart heading.bits j more × Consumes (S.left source.old) (S.left source.new) (part ++ more) }
    ensures unplaced { (i : ℕ) → result ≡ Err (Place i) → ⊥ }
    ensures taken { (taken : List ℕ) × Consumes (S.left source.old) (S.left source.new) taken }
    ensures cut { (taken : List ℕ) (before : Option (List ℕ)) → Halfway heading.version heading.bits hits.now 0 taken before (K.held out.old) → result ≡ Err Write
        → (j : ℕ) × (part : List ℕ) × Consumes (S.left source.old) (S.left source.new) part × CutIn heading.version heading.bits hits.now j (taken ++ part) before (K.held out.new) }
    ensures ended { OnOk result (IsAtEnd (S.left source.new)) }
    ensures read_cause { result ≡ Err Read → Rose (S.faults source.old) (S.faults source.new) }
    ensures write_cause { result ≡ Err Write → Rose (K.faults out.old) (K.faults out.new) }
    ensures input_later { S.faults source.old ≤ S.faults source.new }
    ensures output_later { K.faults out.old ≤ K.faults out.new }
{
    let mut chunks = Chunks::new();
    let mut j = 0;
    loop {
        match damage_block(source, heading, j, hits, &mut chunks, out) {
            Ok(true) => j += 1,
            Ok(false) => return Ok(()),
            Err(error) => return Err(error),
        }
    }
}

/// Reads the header, which says how many bits each lane has, and judges the places by it.
fn read_placed<S: Source>(source: &mut S, hits: &[Hit]) -> Result<Heading, DamageError>
    requires lanes { All (λ h. h.lane < 3) hits.now }
    requires few { length hits.now < 2 ^ 32 - 1 }
    ensures ok { IfOk result (λ h. Consumes (S.left source.old) (S.left source.new) (header_of h.version h.bits)) }
    ensures said { IfOk result (λ h. CanSay h.version h.bits) }
    ensures fits { IfOk result (λ h. AllFitLanes h.bits hits.now) }
    ensures err { (bytes : List ℕ) → S.left source.old ≡ Some bytes → IfErr result (λ e. SaysBad (λ fault. IsEarlyFault bytes fault) e) }
    ensures place { IfErr result (λ e. SaysPlace (λ i. IsMisplacedLane (S.left source.old) (S.left source.new) hits.now i) e) }
    ensures part { IfErr result (λ e. SaysUnread ((part : List ℕ) × IsHeaderPart part × Consumes (S.left source.old) (S.left source.new) part) e) }
    ensures taken { (taken : List ℕ) × Consumes (S.left source.old) (S.left source.new) taken }
    ensures caused { IfErr result (λ e. IsReadCause (S.faults source.old) (S.faults source.new) e) }
    ensures later { S.faults source.old ≤ S.faults source.new }
{
    match read_heading(source) {
        Ok(heading) => match first_past_lane(hits, heading.bits) {
            Some(i) => Err(DamageError::Place(i)),
            None => Ok(heading),
        },
        Err(error) => Err(DamageError::from(error)),
    }
}

/// Copies a capture of either version with the ten bits at each place replaced, one hit after another. It
/// reads, damages and writes block by block, and takes no memory. The header stays as it is.
///
/// # Errors
///
/// `Place` where the header is whole and the ten bits of a hit pass the end of its own lane, with the first
/// such hit: it is reported before anything is written and before more is read. `Bad` where the bytes are no
/// capture, with the least place that shows it: the header and the whole blocks before that place are
/// written. `Read` where the source fails after bytes with which some capture begins: the header and the
/// whole blocks that were read are written. `Write` where the sink fails: all that was read is written but a
/// part of the last block.
pub fn damage<S: Source, K: Sink>(
    source: &mut S,
    hits: &[Hit],
    out: &mut K,
) -> Result<(), DamageError>
    requires lanes { All (λ h. h.lane < 3) hits.now }
    requires few { length hits.now < 2 ^ 32 - 1 }

    // Where the bytes of the source are known.
    ensures done { (bytes : List ℕ) → S.left source.old ≡ Some bytes → OnOk result ((whole : List ℕ) × IsDamagedCapture bytes hits.now whole × Appends (K.held out.old) (K.held out.new) whole) }
    ensures bad { (bytes : List ℕ) → S.left source.old ≡ Some bytes → IfErr result (λ e. SaysBad (λ fault. IsDamageFault bytes hits.now (K.held out.old) (K.held out.new) fault) e) }

    ensures place { (i : ℕ) → result ≡ Err (Place i) → IsMisplacedLane (S.left source.old) (S.left source.new) hits.now i × Keeps (K.held out.old) (K.held out.new) }
    ensures read { result ≡ Err Read → ReadFailed (S.left source.old) (S.left source.new) hits.now (K.held out.old) (K.held out.new) }
    ensures part { result ≡ Err Write → WriteFailed (S.left source.old) (S.left source.new) hits.now (K.held out.old) (K.held out.new) }
    ensures taken { (taken : List ℕ) × Consumes (S.left source.old) (S.left source.new) taken }
    ensures ended { OnOk result (IsAtEnd (S.left source.new)) }
    ensures read_cause { result ≡ Err Read → Rose (S.faults source.old) (S.faults source.new) }
    ensures write_cause { result ≡ Err Write → Rose (K.faults out.old) (K.faults out.new) }
    ensures input_later { S.faults source.old ≤ S.faults source.new }
    ensures output_later { K.faults out.old ≤ K.faults out.new }
{
    let heading = match read_placed(source, hits) {
        Ok(heading) => heading,
        Err(error) => return Err(error),
    };
    match write_header(heading.version, heading.bits, out) {
        Ok(_) => damage_lanes(source, heading, hits, out),
        Err(_) => Err(DamageError::Write),
    }
}
