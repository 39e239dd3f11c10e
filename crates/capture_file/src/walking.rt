//! A capture's blocks, read one after another to the end of its bytes.
ghost use Rattle.std.specs.Prelude.{◌≡◌, ◌⊎◌, ℕ, ◌+◌, ◌*◌, ◌^◌, ◌<◌, ◌≤◌, ◌↔◌, true, false, Bool, List, [], ◌++◌, length, slice_index, Some, IfOk, IfErr, OnOk, IsTrue};
ghost use Rattle.std.specs.Io.KnownBytes.{Consumes, IsAtEnd};
ghost use Rattle.capture_file.specs.Layout.{packed};
ghost use Rattle.capture_file.specs.Faults.{IsCaused};
ghost use Rattle.capture_file.specs.Captures.{IsFault, IsBlockPart, Stands, StopsIn, SaysOf, SaysRead, place_of, bits_in, block_size};
ghost use Rattle.capture_file.specs.declared.fault.CaptureFault.TheVariants.{Trailing};

use crate::chunk::{Chunks, blocks_for};
use crate::heading::{Heading, block_place};
use crate::{BLOCK_BITS, CaptureError, CaptureFault};
use outside_io::{Source, read_full};

impl Chunks {
    /// Reads block `j` of a capture, and says whether there was one. Where all blocks were read it reads on, and nothing is to
    /// follow.
    pub(crate) fn read_next<S: Source>(
        &mut self,
        source: &mut S,
        heading: Heading,
        j: u32,
    ) -> Result<bool, CaptureError>
        ensures below { IfOk result (λ more. more ≡ true → BLOCK_BITS * j < 2 ^ 32) }
        ensures blue { IfOk result (λ more. more ≡ true → length self.new.blue ≡ bits_in j (slice_index heading.bits 0)) }
        ensures green { IfOk result (λ more. more ≡ true → length self.new.green ≡ bits_in j (slice_index heading.bits 1)) }
        ensures red { IfOk result (λ more. more ≡ true → length self.new.red ≡ bits_in j (slice_index heading.bits 2)) }
        ensures some { IfOk result (λ more. more ≡ true → 0 < block_size j heading.bits) }
        ensures ok { IfOk result (λ more. more ≡ true → Consumes (S.left source.old) (S.left source.new) ((packed self.new.blue ++ packed self.new.green) ++ packed self.new.red)) }
        ensures none { IfOk result (λ more. more ≡ false → (block_size j heading.bits ≡ 0) × Consumes (S.left source.old) (S.left source.new) [] × IsAtEnd (S.left source.new)) }
        ensures err { (bytes taken : List ℕ) (blue green red : List Bool) → S.left source.old ≡ Some bytes → Stands heading.version heading.bits j taken blue green red
            → IfErr result (λ e. SaysOf (λ fault. IsFault (taken ++ bytes) fault × StopsIn heading.bits j taken (place_of fault)) e) }
        ensures part { IfErr result (λ e. SaysRead ((part : List ℕ) × IsBlockPart heading.bits j part × Consumes (S.left source.old) (S.left source.new) part) e) }
        ensures taken { (taken : List ℕ) × Consumes (S.left source.old) (S.left source.new) taken }
        ensures caused { IfErr result (λ e. IsCaused (S.faults source.old) (S.faults source.new) e) }
        ensures later { S.faults source.old ≤ S.faults source.new }
    {
        let place = block_place(heading.version, heading.bits, j);
        if is_past(heading.bits, j) {
            read_end(source, place)?;
            return Ok(false);
        }
        self.read(source, heading.bits, j, place)?;
        Ok(true)
    }
}

/// Whether lanes of so many bits have no block `j`.
fn is_past(bits: [u32; 3], j: u32) -> bool
    ensures past { IsTrue result ↔ (block_size j bits ≡ 0) }
    ensures below { result ≡ false → BLOCK_BITS * j < 2 ^ 32 }
{
    let most = bits[0].max(bits[1].max(bits[2]));
    j >= blocks_for(most)
}

/// Reads on at a place where nothing is to follow.
fn read_end<S: Source>(source: &mut S, place: u64) -> Result<(), CaptureError>
    ensures ended { OnOk result (IsAtEnd (S.left source.new)) }
    ensures ok { OnOk result (Consumes (S.left source.old) (S.left source.new) []) }
    ensures err { (bytes : List ℕ) → S.left source.old ≡ Some bytes → IfErr result (λ e. SaysOf (λ fault. (fault ≡ Trailing place) × (0 < length bytes)) e) }
    ensures none { (bytes : List ℕ) → S.left source.old ≡ Some bytes → OnOk result (bytes ≡ []) }
    ensures within { IfErr result (λ e. SaysOf (λ fault. place_of fault ≡ place) e) }
    ensures part { IfErr result (λ e. SaysRead (Consumes (S.left source.old) (S.left source.new) []) e) }
    ensures taken { (taken : List ℕ) × Consumes (S.left source.old) (S.left source.new) taken }
    ensures caused { IfErr result (λ e. IsCaused (S.faults source.old) (S.faults source.new) e) }
    ensures later { S.faults source.old ≤ S.faults source.new }
{
    let mut more = [0; 1];
    match read_full(source, &mut more) {
        Ok(0) => Ok(()),
        Ok(_) => Err(CaptureError::Bad(CaptureFault::Trailing(place))),
        Err(_) => Err(CaptureError::Read),
    }
}
