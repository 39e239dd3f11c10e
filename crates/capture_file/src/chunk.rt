//! The bits of a block: some of each lane.
ghost use Rattle.std.specs.Prelude.{◌≡◌, ℕ, ◌+◌, ◌-◌, ◌*◌, ◌/◌, ◌^◌, ◌<◌, ◌≤◌, Bool, List, [], ◌++◌, length, take, slice_index, Some, IfErr, OnOk, IsTrue, ◌↔◌};
ghost use Rattle.std.specs.Io.KnownBytes.{Consumes};
ghost use Rattle.tmds_word.specs.Bits.{bytes_bits};
ghost use Rattle.capture_file.specs.Layout.{packed};
ghost use Rattle.capture_file.specs.Faults.{IsCaused};
ghost use Rattle.capture_file.specs.Captures.{AreBytes, Awaits, IsFault, IsBlockPart, HasRead, SaysOf, SaysRead, IsWithin, place_of, bits_in, block_size};

use crate::{BLOCK_BITS, BLOCK_BYTES, CaptureError, CaptureFault};
use outside_io::{Source, read_full};
use std::marker::Model;

/// How many blocks lanes of so many bits have.
pub(crate) fn blocks_for(bits: u32) -> u32
    ensures { result ≡ ((bits + 7) / 8 + (BLOCK_BYTES - 1)) / BLOCK_BYTES }
{
    bits.div_ceil(8).div_ceil(BLOCK_BYTES as u32)
}

/// How many bits block `j` has of a lane of so many.
pub(crate) fn chunk_len(bits: u32, j: u32) -> u32
    requires { BLOCK_BITS * j < 2 ^ 32 }
    ensures { result ≡ bits_in j bits }
{
    bits.saturating_sub(BLOCK_BITS * j).min(BLOCK_BITS)
}

/// The bits of one lane in one block, packed eight to a byte. It is seen as these bits.
#[derive(Drop)]
pub(crate) struct Chunk {
    pub(crate) bytes: [u8; BLOCK_BYTES],
    pub(crate) count: u32,
}

impl Model for Chunk {
    ghost use Rattle.std.specs.Prelude.{◌≡◌, ◌+◌, ◌/◌, ◌≤◌, List, Bool, length, take};
    ghost use Rattle.tmds_word.specs.Bits.{bytes_bits};
    ghost use Rattle.capture_file.specs.Layout.{packed};
    ghost use Rattle.capture_file.specs.declared.TheConstants.{BLOCK_BITS, BLOCK_BYTES};

    ghost Value = { List Bool };

    ghost view = { λ c. take c.count (bytes_bits c.bytes) };

    ghost invariant = { λ c. record {
      few : c.count ≤ BLOCK_BITS;
      size : length c.bytes ≡ BLOCK_BYTES;
      spared : take ((c.count + 7) / 8) c.bytes ≡ packed (take c.count (bytes_bits c.bytes));
    } };
}

impl Chunk {
    /// No bits.
    pub(crate) fn new() -> Chunk
        ensures { result ≡ [] }
    {
        Chunk {
            bytes: [0; BLOCK_BYTES],
            count: 0,
        }
    }

    /// The bits, packed.
    pub(crate) fn as_bytes(&self) -> &[u8]
        ensures bytes { result.now ≡ packed self.now }
        ensures few { length result.now ≤ BLOCK_BYTES }
    {
        &self.bytes[..self.count.div_ceil(8) as usize]
    }

    /// Reads `count` bits, whose bytes begin at a place.
    pub(crate) fn read<S: Source>(
        &mut self,
        source: &mut S,
        count: u32,
        place: u64,
    ) -> Result<(), CaptureError>
        requires few { count ≤ BLOCK_BITS }
        requires place { place < 2 ^ 63 }
        ensures count { OnOk result (length self.new ≡ count) }
        ensures ok { OnOk result (Consumes (S.left source.old) (S.left source.new) (packed self.new)) }
        ensures err { (bytes front : List ℕ) → S.left source.old ≡ Some bytes → (0 < count → Awaits front count) → place ≡ length front → IfErr result (λ e. SaysOf (λ fault. IsFault (front ++ bytes) fault) e) }
        ensures within { IfErr result (λ e. SaysOf (λ fault. IsWithin place ((count + 7) / 8) (place_of fault)) e) }
        ensures part { IfErr result (λ e. SaysRead ((part : List ℕ) × (length part < (count + 7) / 8) × AreBytes part × Consumes (S.left source.old) (S.left source.new) part) e) }
        ensures taken { (taken : List ℕ) × Consumes (S.left source.old) (S.left source.new) taken }
        ensures caused { IfErr result (λ e. IsCaused (S.faults source.old) (S.faults source.new) e) }
        ensures later { S.faults source.old ≤ S.faults source.new }
    {
        self.count = 0;
        read_front(source, &mut self.bytes, count, place)?;
        self.count = count;
        Ok(())
    }
}

/// Reads the bytes of `count` bits, which begin at a place, into the front of `bytes`.
fn read_front<S: Source>(
    source: &mut S,
    bytes: &mut [u8; BLOCK_BYTES],
    count: u32,
    place: u64,
) -> Result<(), CaptureError>
    requires few { count ≤ BLOCK_BITS }
    requires place { place < 2 ^ 63 }
    ensures size { length bytes.new ≡ BLOCK_BYTES }
    ensures spared { OnOk result (take ((count + 7) / 8) bytes.new ≡ packed (take count (bytes_bits bytes.new))) }
    ensures ok { OnOk result (Consumes (S.left source.old) (S.left source.new) (take ((count + 7) / 8) bytes.new)) }
    ensures err { (bytes front : List ℕ) → S.left source.old ≡ Some bytes → (0 < count → Awaits front count) → place ≡ length front → IfErr result (λ e. SaysOf (λ fault. IsFault (front ++ bytes) fault) e) }
    ensures within { IfErr result (λ e. SaysOf (λ fault. IsWithin place ((count + 7) / 8) (place_of fault)) e) }
    ensures part { IfErr result (λ e. SaysRead ((part : List ℕ) × (length part < (count + 7) / 8) × AreBytes part × Consumes (S.left source.old) (S.left source.new) part) e) }
    ensures taken { (taken : List ℕ) × Consumes (S.left source.old) (S.left source.new) taken }
    ensures caused { IfErr result (λ e. IsCaused (S.faults source.old) (S.faults source.new) e) }
    ensures later { S.faults source.old ≤ S.faults source.new }
{
    let size = count.div_ceil(8) as usize;
    read_part(source, &mut bytes[..size], count, place)
}

/// Reads the bytes of `count` bits, which begin at a place.
fn read_part<S: Source>(
    source: &mut S,
    part: &mut [u8],
    count: u32,
    place: u64,
) -> Result<(), CaptureError>
    requires few { count ≤ BLOCK_BITS }
    requires size { length part.old ≡ (count + 7) / 8 }
    requires place { place < 2 ^ 63 }
    ensures size { length part.new ≡ length part.old }
    ensures spared { OnOk result (part.new ≡ packed (take count (bytes_bits part.new))) }
    ensures ok { OnOk result (Consumes (S.left source.old) (S.left source.new) part.new) }
    ensures err { (bytes front : List ℕ) → S.left source.old ≡ Some bytes → (0 < count → Awaits front count) → place ≡ length front → IfErr result (λ e. SaysOf (λ fault. IsFault (front ++ bytes) fault) e) }
    ensures within { IfErr result (λ e. SaysOf (λ fault. IsWithin place ((count + 7) / 8) (place_of fault)) e) }
    ensures part { IfErr result (λ e. SaysRead ((part : List ℕ) × (length part < (count + 7) / 8) × AreBytes part × Consumes (S.left source.old) (S.left source.new) part) e) }
    ensures taken { (taken : List ℕ) × Consumes (S.left source.old) (S.left source.new) taken }
    ensures caused { IfErr result (λ e. IsCaused (S.faults source.old) (S.faults source.new) e) }
    ensures later { S.faults source.old ≤ S.faults source.new }
{
    if count == 0 {
        return Ok(());
    }
    let Ok(read) = read_full(source, part) else {
        return Err(CaptureError::Read);
    };
    let size = part.len();
    if read < size {
        return Err(CaptureError::Bad(CaptureFault::Short(place + read as u64)));
    }
    if is_padded(part, count) {
        Ok(())
    } else {
        Err(CaptureError::Bad(CaptureFault::Padding(place + (size as u64 - 1))))
    }
}

/// Whether the bytes of `count` bits have only zeros past them.
fn is_padded(part: &[u8], count: u32) -> bool
    requires some { 0 < count }
    requires size { length part.now ≡ (count + 7) / 8 }
    ensures spared { IsTrue result ↔ (part.now ≡ packed (take count (bytes_bits part.now))) }
    ensures bytes { AreBytes part.now }
{
    let spare = count % 8;
    spare == 0 || part[part.len() - 1] >> spare == 0
}

/// The bits of one block, of each lane those that it has there.
#[derive(Drop)]
pub(crate) struct Chunks {
    pub(crate) blue: Chunk,
    pub(crate) green: Chunk,
    pub(crate) red: Chunk,
}

impl Chunks {
    /// No bits.
    pub(crate) fn new() -> Chunks {
        Chunks {
            blue: Chunk::new(),
            green: Chunk::new(),
            red: Chunk::new(),
        }
    }

    /// Reads block `j` of lanes of so many bits, which begins at a place.
    pub(crate) fn read<S: Source>(
        &mut self,
        source: &mut S,
        bits: [u32; 3],
        j: u32,
        place: u64,
    ) -> Result<(), CaptureError>
        requires below { BLOCK_BITS * j < 2 ^ 32 }
        requires place { place < 2 ^ 62 }
        ensures blue { OnOk result (length self.new.blue ≡ bits_in j (slice_index bits 0)) }
        ensures green { OnOk result (length self.new.green ≡ bits_in j (slice_index bits 1)) }
        ensures red { OnOk result (length self.new.red ≡ bits_in j (slice_index bits 2)) }
        ensures ok { OnOk result (Consumes (S.left source.old) (S.left source.new) ((packed self.new.blue ++ packed self.new.green) ++ packed self.new.red)) }
        ensures err { (bytes taken : List ℕ) (blue green red : List Bool) → S.left source.old ≡ Some bytes → HasRead bits j place taken blue green red → IfErr result (λ e. SaysOf (λ fault. IsFault (taken ++ bytes) fault) e) }
        ensures within { IfErr result (λ e. SaysOf (λ fault. IsWithin place (block_size j bits) (place_of fault)) e) }
        ensures part { IfErr result (λ e. SaysRead ((part : List ℕ) × IsBlockPart bits j part × Consumes (S.left source.old) (S.left source.new) part) e) }
        ensures taken { (taken : List ℕ) × Consumes (S.left source.old) (S.left source.new) taken }
        ensures caused { IfErr result (λ e. IsCaused (S.faults source.old) (S.faults source.new) e) }
        ensures later { S.faults source.old ≤ S.faults source.new }
    {
        let counts = [
            chunk_len(bits[0], j),
            chunk_len(bits[1], j),
            chunk_len(bits[2], j),
        ];
        let green_place = place + u64::from(counts[0].div_ceil(8));
        let red_place = green_place + u64::from(counts[1].div_ceil(8));
        self.blue.read(source, counts[0], place)?;
        self.green.read(source, counts[1], green_place)?;
        self.red.read(source, counts[2], red_place)
    }
}
