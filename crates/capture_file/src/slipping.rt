//! Captures of which one lane lacks some bits.
ghost use Rattle.std.specs.Prelude.{◌≡◌, ◌⊎◌, ℕ, ◌+◌, ◌*◌, ◌^◌, ◌<◌, ◌≤◌, true, false, List, [], ◌++◌, length, take, min, slice_index, Some, Err, IfOk, IfErr, OnOk};
ghost use Rattle.std.specs.Io.KnownBytes.{Appends, Consumes, Keeps, IsAtEnd};
ghost use Rattle.outside_io.specs.Causes.{HasCause, Rose};
ghost use Rattle.capture_file.specs.Captures.{header_of, layout, CanSay, IsCaptureOf, BeginsCapture, IsFault, IsHeaderPart, IsBlockPart, IsEarlyFault, Stands, StopsIn, block_size, place_of};
ghost use Rattle.capture_file.specs.Slips.{IsSlippedCapture, IsWithinLane, IsPastLane, IsReadPart, StopsReading, StopsKeeping, StopsWriting, SaysFaulty, slipped, without};
ghost use Rattle.capture_file.specs.declared.slipping.SlipError.TheVariants.{Place, Read, Write, NoMemory as WantsMemory};

use crate::chunk::Chunks;
use crate::heading::{Heading, read_heading};
use crate::writing::{copy_packed, write_rows};
use crate::{BLOCK_BITS, CaptureError, CaptureFault};
use outside_io::{NoMemory, Sink, Source, Wrote};
use std::alloc::Global;
use tmds_word::BitRow;

/// Why no capture without the bits was written, or not all of it.
#[derive(Clone, Copy, Debug, PartialEq, Eq)]
pub enum SlipError {
    /// The bytes are no capture.
    Bad(CaptureFault),
    /// The bits pass the end of their lane.
    Place,
    /// The source failed.
    Read,
    /// The sink failed.
    Write,
    /// Want of memory.
    NoMemory,
}

impl From<CaptureError> for SlipError {
    ghost use Rattle.capture_file.specs.Slips.{unread};

    ghost from_gives = { λ e r. r ≡ unread e };

    fn from(error: CaptureError) -> SlipError {
        match error {
            CaptureError::Bad(fault) => SlipError::Bad(fault),
            CaptureError::Read => SlipError::Read,
        }
    }
}

/// The bits of three lanes.
#[derive(Drop)]
struct WholeLanes {
    blue: BitRow,
    green: BitRow,
    red: BitRow,
}

impl WholeLanes {
    /// No bits. The allocator is kept for the rows' growth.
    fn new(alloc: Global) -> WholeLanes
        ensures blue { result.blue ≡ [] }
        ensures green { result.green ≡ [] }
        ensures red { result.red ≡ [] }
    {
        WholeLanes {
            blue: BitRow::new(alloc),
            green: BitRow::new(alloc),
            red: BitRow::new(alloc),
        }
    }

    /// Appends the bits of a block. After a refusal some of them may be appended.
    fn push(&mut self, block: &Chunks) -> Result<(), NoMemory>
        requires blue { length self.old.blue + length block.now.blue < 2 ^ 32 }
        requires green { length self.old.green + length block.now.green < 2 ^ 32 }
        requires red { length self.old.red + length block.now.red < 2 ^ 32 }
        ensures blue { OnOk result (self.new.blue ≡ self.old.blue ++ block.now.blue) }
        ensures green { OnOk result (self.new.green ≡ self.old.green ++ block.now.green) }
        ensures red { OnOk result (self.new.red ≡ self.old.red ++ block.now.red) }
    {
        self.blue
            .push_bits(block.blue.as_bytes(), block.blue.len())?;
        self.green
            .push_bits(block.green.as_bytes(), block.green.len())?;
        self.red.push_bits(block.red.as_bytes(), block.red.len())
    }

    /// Reads block `j` after the blocks before it. Says whether there was one; where all blocks were read nothing
    /// is to follow.
    fn read_block<S: Source>(
        &mut self,
        source: &mut S,
        heading: Heading,
        j: u32,
        chunks: &mut Chunks,
    ) -> Result<bool, SlipError>
        requires blue { length self.old.blue ≡ min (slice_index heading.bits 0) (BLOCK_BITS * j) }
        requires green { length self.old.green ≡ min (slice_index heading.bits 1) (BLOCK_BITS * j) }
        requires red { length self.old.red ≡ min (slice_index heading.bits 2) (BLOCK_BITS * j) }
        ensures below { IfOk result (λ more. more ≡ true → BLOCK_BITS * j < 2 ^ 32) }
        ensures blue { IfOk result (λ more. more ≡ true → length self.new.blue ≡ min (slice_index heading.bits 0) (BLOCK_BITS * (j + 1))) }
        ensures green { IfOk result (λ more. more ≡ true → length self.new.green ≡ min (slice_index heading.bits 1) (BLOCK_BITS * (j + 1))) }
        ensures red { IfOk result (λ more. more ≡ true → length self.new.red ≡ min (slice_index heading.bits 2) (BLOCK_BITS * (j + 1))) }
        ensures ok { (taken : List ℕ) → Stands heading.version heading.bits j taken self.old.blue self.old.green self.old.red
            → IfOk result (λ more. more ≡ true → (part : List ℕ) × Consumes (S.left source.old) (S.left source.new) part × Stands heading.version heading.bits (j + 1) (taken ++ part) self.new.blue self.new.green self.new.red) }
        ensures none { IfOk result (λ more. more ≡ false → (block_size j heading.bits ≡ 0) × Consumes (S.left source.old) (S.left source.new) [] × IsAtEnd (S.left source.new) × (self.new ≡ self.old)) }
        ensures err { (bytes taken : List ℕ) → S.left source.old ≡ Some bytes → Stands heading.version heading.bits j taken self.old.blue self.old.green self.old.red
            → IfErr result (λ e. SaysFaulty (λ fault. IsFault (taken ++ bytes) fault × StopsIn heading.bits j taken (place_of fault)) e) }
        ensures part { result ≡ Err Read → (part : List ℕ) × IsBlockPart heading.bits j part × Consumes (S.left source.old) (S.left source.new) part }
        ensures full { result ≡ Err WantsMemory → (part : List ℕ) × Consumes (S.left source.old) (S.left source.new) part }
        ensures taken { (taken : List ℕ) × Consumes (S.left source.old) (S.left source.new) taken }
        ensures unplaced { result ≡ Err Place → ⊥ }
        ensures unwritten { result ≡ Err Write → ⊥ }
        ensures caused { result ≡ Err Read → Rose (S.faults source.old) (S.faults source.new) }
        ensures later { S.faults source.old ≤ S.faults source.new }
    {
        match chunks.read_next(source, heading, j) {
            Ok(true) => {}
            Ok(false) => return Ok(false),
            Err(error) => return Err(SlipError::from(error)),
        }
        match self.push(chunks) {
            Ok(()) => Ok(true),
            Err(_) => Err(SlipError::NoMemory),
        }
    }

    /// Leaves `count` bits of a lane out, from `place` on.
    fn leave_out(&mut self, alloc: Global, lane: u8, place: u32, count: u32) -> Result<(), NoMemory>
        requires blue { lane ≡ 0 → place + count ≤ length self.old.blue }
        requires green { lane ≡ 1 → place + count ≤ length self.old.green }
        requires red { lane ≡ 2 → place + count ≤ length self.old.red }
        requires lane { lane < 3 }
        ensures blue { OnOk result (self.new.blue ≡ slipped lane place count 0 self.old.blue) }
        ensures green { OnOk result (self.new.green ≡ slipped lane place count 1 self.old.green) }
        ensures red { OnOk result (self.new.red ≡ slipped lane place count 2 self.old.red) }
    {
        match lane {
            0 => cut_out(alloc, &mut self.blue, place, count),
            1 => cut_out(alloc, &mut self.green, place, count),
            _ => cut_out(alloc, &mut self.red, place, count),
        }
    }

    /// Writes the capture in version 2.
    fn write<K: Sink>(&self, out: &mut K) -> Result<(), Wrote>
        ensures whole { OnOk result (Appends (K.held out.old) (K.held out.new) (layout 2 self.now.blue self.now.green self.now.red)) }
        ensures part { IfErr result (λ w. Appends (K.held out.old) (K.held out.new) (take w.gone (layout 2 self.now.blue self.now.green self.now.red))) }
        ensures missing { IfErr result (λ w. w.gone < length (layout 2 self.now.blue self.now.green self.now.red)) }
        ensures cause { HasCause (K.faults out.old) (K.faults out.new) result }
    {
        let bits = [self.blue.len(), self.green.len(), self.red.len()];
        write_rows(&self.blue, &self.green, &self.red, 2, [0; 3], bits, out)
    }
}

/// Leaves `count` bits of a row out, from `place` on. What follows them moves up: first the few bits that fill the
/// byte at `place`, and then the rest in whole bytes.
fn cut_out(alloc: Global, row: &mut BitRow, place: u32, count: u32) -> Result<(), NoMemory>
    requires { place + count ≤ length row.old }
    ensures { OnOk result (row.new ≡ without place count row.old) }
{
    let len = row.len();
    let from = place + count;
    let after = len - from;
    let few = ((8 - place % 8) % 8).min(after);
    let more = after - few;
    let mut bytes = vec![in alloc; 0; more.div_ceil(8) as usize]?;
    copy_packed(row, from + few, more, bytes.as_mut_slice());
    let mut byte = [0; 1];
    let first = &mut byte[..few.div_ceil(8) as usize];
    copy_packed(row, from, few, first);
    row.truncate(place);
    row.push_bits(first, few)?;
    row.push_bits(bytes.as_slice(), more)
}

/// Reads the blocks of a capture whose header is taken, to the end of its bytes.
fn read_rows<S: Source>(
    alloc: Global,
    source: &mut S,
    heading: Heading,
) -> Result<WholeLanes, SlipError>
    requires said { CanSay heading.version heading.bits }
    ensures blue { IfOk result (λ rows. length rows.blue ≡ slice_index heading.bits 0) }
    ensures green { IfOk result (λ rows. length rows.green ≡ slice_index heading.bits 1) }
    ensures red { IfOk result (λ rows. length rows.red ≡ slice_index heading.bits 2) }
    ensures ok { IfOk result (λ rows. (part : List ℕ) × Consumes (S.left source.old) (S.left source.new) part × IsCaptureOf rows.blue rows.green rows.red (header_of heading.version heading.bits ++ part)) }
    ensures ended { OnOk result (IsAtEnd (S.left source.new)) }
    ensures err { (bytes : List ℕ) → S.left source.old ≡ Some bytes → IfErr result (λ e. SaysFaulty (λ fault. IsFault (header_of heading.version heading.bits ++ bytes) fault) e) }
    ensures part { (lane place count : ℕ) → result ≡ Err Read → place + count ≤ slice_index heading.bits lane
        → (part : List ℕ) × Consumes (S.left source.old) (S.left source.new) part × BeginsCapture (header_of heading.version heading.bits ++ part)
        × IsReadPart (header_of heading.version heading.bits ++ part) lane place count }
    ensures full { result ≡ Err WantsMemory → (part : List ℕ) × Consumes (S.left source.old) (S.left source.new) part }
    ensures unplaced { result ≡ Err Place → ⊥ }
    ensures taken { (taken : List ℕ) × Consumes (S.left source.old) (S.left source.new) taken }
    ensures unwritten { result ≡ Err Write → ⊥ }
    ensures caused { result ≡ Err Read → Rose (S.faults source.old) (S.faults source.new) }
    ensures later { S.faults source.old ≤ S.faults source.new }
{
    let mut chunks = Chunks::new();
    let mut rows = WholeLanes::new(alloc);
    let mut j = 0;
    loop {
        match rows.read_block(source, heading, j, &mut chunks) {
            Ok(true) => j += 1,
            Ok(false) => return Ok(rows),
            Err(error) => return Err(error),
        }
    }
}

/// Reads the header, and judges by it whether the bits lie within their lane.
fn read_fitting<S: Source>(
    source: &mut S,
    lane: u8,
    place: u32,
    count: u32,
) -> Result<Heading, SlipError>
    requires lane { lane < 3 }
    requires few { count ≤ 9 }
    ensures ok { IfOk result (λ h. Consumes (S.left source.old) (S.left source.new) (header_of h.version h.bits)) }
    ensures said { IfOk result (λ h. CanSay h.version h.bits) }
    ensures fits { IfOk result (λ h. place + count ≤ slice_index h.bits lane) }
    ensures err { (bytes : List ℕ) → S.left source.old ≡ Some bytes → IfErr result (λ e. SaysFaulty (λ fault. IsEarlyFault bytes fault) e) }
    ensures place { result ≡ Err Place → IsPastLane (S.left source.old) (S.left source.new) lane place count }
    ensures part { result ≡ Err Read → (part : List ℕ) × IsHeaderPart part × Consumes (S.left source.old) (S.left source.new) part }
    ensures taken { (taken : List ℕ) × Consumes (S.left source.old) (S.left source.new) taken }
    ensures unwritten { result ≡ Err Write → ⊥ }
    ensures remembered { result ≡ Err WantsMemory → ⊥ }
    ensures caused { result ≡ Err Read → Rose (S.faults source.old) (S.faults source.new) }
    ensures later { S.faults source.old ≤ S.faults source.new }
{
    match read_heading(source) {
        Ok(heading) => {
            let bits = heading.bits[lane as usize];
            if bits < count || bits - count < place {
                Err(SlipError::Place)
            } else {
                Ok(heading)
            }
        }
        Err(error) => Err(SlipError::from(error)),
    }
}

/// Reads a capture of either version whole, and writes the capture in version 2 of its lanes, of which one is
/// without the `drop` bits from `place` on. It keeps the bits of the lanes meanwhile.
///
/// # Errors
///
/// `Place` where the header is whole and the bits pass the end of their lane: it is reported before more is read, and
/// before memory is taken. `Bad` where the bytes are no capture, with the least place that shows it. `Read` where the
/// source fails after bytes with which some capture begins, and `NoMemory` for want of memory. After each of them nothing
/// is written. `Write` where the sink fails: all was read, and a part of the capture is written.
pub fn slip<S: Source, K: Sink>(
    alloc: Global,
    source: &mut S,
    lane: u8,
    place: u32,
    drop: u32,
    out: &mut K,
) -> Result<(), SlipError>
    requires lane { lane < 3 }
    requires some { 1 ≤ drop }
    requires few { drop ≤ 9 }

    // Where the bytes of the source are known.
    ensures done { (bytes : List ℕ) → S.left source.old ≡ Some bytes → OnOk result ((whole : List ℕ) × IsSlippedCapture bytes lane place drop whole × Appends (K.held out.old) (K.held out.new) whole) }
    ensures bad { (bytes : List ℕ) → S.left source.old ≡ Some bytes → IfErr result (λ e. SaysFaulty (λ fault. IsFault bytes fault × IsWithinLane bytes lane place drop) e) }
    ensures part { (bytes : List ℕ) → S.left source.old ≡ Some bytes → result ≡ Err Write → StopsWriting bytes lane place drop (K.held out.old) (K.held out.new) × IsAtEnd (S.left source.new) }

    ensures place { result ≡ Err Place → IsPastLane (S.left source.old) (S.left source.new) lane place drop }
    ensures read { result ≡ Err Read → StopsReading (S.left source.old) (S.left source.new) lane place drop }
    ensures memory { result ≡ Err WantsMemory → StopsKeeping (S.left source.old) (S.left source.new) lane place drop }
    ensures taken { (taken : List ℕ) × Consumes (S.left source.old) (S.left source.new) taken }
    ensures unwritten { IfErr result (λ e. (e ≡ Write → ⊥) → Keeps (K.held out.old) (K.held out.new)) }
    ensures ended { OnOk result (IsAtEnd (S.left source.new)) }
    ensures read_cause { result ≡ Err Read → Rose (S.faults source.old) (S.faults source.new) }
    ensures write_cause { result ≡ Err Write → Rose (K.faults out.old) (K.faults out.new) }
    ensures input_later { S.faults source.old ≤ S.faults source.new }
    ensures output_later { K.faults out.old ≤ K.faults out.new }
{
    let heading = match read_fitting(source, lane, place, drop) {
        Ok(heading) => heading,
        Err(error) => return Err(error),
    };
    let mut rows = match read_rows(alloc, source, heading) {
        Ok(rows) => rows,
        Err(error) => return Err(error),
    };
    if rows.leave_out(alloc, lane, place, drop).is_err() {
        return Err(SlipError::NoMemory);
    }
    match rows.write(out) {
        Ok(()) => Ok(()),
        Err(_) => Err(SlipError::Write),
    }
}
