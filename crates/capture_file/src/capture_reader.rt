//! A capture that is read block by block.
ghost use Rattle.std.specs.Prelude.{◌≡◌, ◌⊎◌, ℕ, ◌+◌, ◌*◌, ◌/◌, ◌^◌, ◌<◌, ◌≤◌, ⊤, true, false, Bool, List, [], ◌++◌, length, take, slice_index, Some, IfOk, IfErr, OnOk, OnErr, IfSome, IfNone, MatchOption};
ghost use Rattle.std.specs.Borrow.{sem};
ghost use Rattle.std.specs.Io.KnownBytes.{Consumes, IsAtEnd};
ghost use Rattle.tmds_word.specs.Bits.{bytes_bits};
ghost use Rattle.capture_file.specs.Layout.{packed};
ghost use Rattle.capture_file.specs.Faults.{IsCaused};
ghost use Rattle.capture_file.specs.Captures.{IsFault, IsHeaderPart, IsBlockPart, IsEarlyFault, IsCaptureOf, Stands, StopsIn, SaysOf, SaysRead, place_of, CanSay, bits_in, block_size};

use crate::chunk::{Chunks, chunk_len};
use crate::heading::{Heading, read_heading};
use crate::{BLOCK_BITS, CaptureError};
use outside_io::Source;
use tmds_word::LaneBits;

/// Reads a capture of either version, and lends its blocks. It takes no memory: its block is within it.
#[derive(Drop)]
pub struct CaptureReader<'a, S: Source> {
    source: &'a mut S,
    version: u8,
    bits: [u32; 3],
    block: u32,
    is_open: bool,
    lanes: Chunks,
}

impl<'a, S: Source> CaptureReader<'a, S> {
    ghost use Rattle.capture_file.specs.contracts.capture_reader.CaptureReader.{the_row};
    ghost use mathlib.Core.Option.{none};
    ghost use mir.Syntax.{named};
    ghost use denote.Follow.{follows_so};

    /// A reader that has read nothing, and is not open yet.
    pub fn new(source: &'a mut S) -> CaptureReader<'a, S>
        ensures same { result.source.ghost_name ≡ source.entry.ghost_name }
        ensures source { result.source.now ≡ source.old }
        ensures open { result.is_open ≡ false }
    {
        CaptureReader {
            source,
            version: 1,
            bits: [0; 3],
            block: 0,
            is_open: false,
            lanes: Chunks::new(),
        }
    }

    /// Reads the header of a capture, and nothing after it. With an answer that is no error the reader is open.
    ///
    /// # Errors
    ///
    /// `Bad` where the bytes have no whole header, with the least place that shows it; `Read` where the
    /// source fails after bytes with which some capture begins.
    pub fn open(&mut self) -> Result<(), CaptureError>
        ensures same { self.new.source.ghost_name ≡ self.old.source.ghost_name }
        ensures opened { OnOk result (self.new.is_open ≡ true) }
        ensures spent { OnErr result (self.new.is_open ≡ false) }
        ensures said { OnOk result (CanSay self.new.version self.new.bits) }
        ensures ok { OnOk result ((head : List ℕ) × Consumes (S.left self.old.source.now) (S.left self.new.source.now) head × Stands self.new.version self.new.bits self.new.block head [] [] []) }
        ensures err { (bytes : List ℕ) → S.left self.old.source.now ≡ Some bytes → IfErr result (λ e. SaysOf (λ fault. IsEarlyFault bytes fault) e) }
        ensures part { IfErr result (λ e. SaysRead ((part : List ℕ) × IsHeaderPart part × Consumes (S.left self.old.source.now) (S.left self.new.source.now) part) e) }
        ensures taken { (taken : List ℕ) × Consumes (S.left self.old.source.now) (S.left self.new.source.now) taken }
        ensures caused { IfErr result (λ e. IsCaused (S.faults self.old.source.now) (S.faults self.new.source.now) e) }
        ensures later { S.faults self.old.source.now ≤ S.faults self.new.source.now }
    {
        self.is_open = false;
        let heading = read_heading(self.source)?;
        let bits = heading.bits;
        self.version = heading.version;
        self.bits = bits;
        self.block = 0;
        self.is_open = true;
        Ok(())
    }

    /// How many bits a lane has: blue is 0, green is 1 and red is 2.
    pub fn bits(&self, lane: u8) -> u32
        requires { lane < 3 }
        ensures { result ≡ slice_index self.now.bits lane }
    {
        self.bits[lane as usize]
    }

    /// Whether there may be more: no call of `next` has given an error or none.
    pub fn is_open(&self) -> bool
        ensures { result ≡ self.now.is_open }
    {
        self.is_open
    }

    /// Reads the next block, and says whether there was one.
    fn advance(&mut self) -> Result<bool, CaptureError>
        requires { self.old.is_open ≡ true }
        ensures same { self.new.source.ghost_name ≡ self.old.source.ghost_name }
        ensures version { self.new.version ≡ self.old.version }
        ensures bits { self.new.bits ≡ self.old.bits }
        ensures open { IfOk result (λ more. self.new.is_open ≡ more) }
        ensures spent { OnErr result (self.new.is_open ≡ false) }
        ensures block { IfOk result (λ more. more ≡ true → (self.new.block ≡ self.old.block + 1) × (BLOCK_BITS * self.old.block < 2 ^ 32)) }
        ensures blue { IfOk result (λ more. more ≡ true → length self.new.lanes.blue ≡ bits_in self.old.block (slice_index self.old.bits 0)) }
        ensures green { IfOk result (λ more. more ≡ true → length self.new.lanes.green ≡ bits_in self.old.block (slice_index self.old.bits 1)) }
        ensures red { IfOk result (λ more. more ≡ true → length self.new.lanes.red ≡ bits_in self.old.block (slice_index self.old.bits 2)) }
        ensures some { IfOk result (λ more. more ≡ true → 0 < block_size self.old.block self.old.bits) }
        ensures ok { IfOk result (λ more. more ≡ true → Consumes (S.left self.old.source.now) (S.left self.new.source.now) ((packed self.new.lanes.blue ++ packed self.new.lanes.green) ++ packed self.new.lanes.red)) }
        ensures none { IfOk result (λ more. more ≡ false → (block_size self.old.block self.old.bits ≡ 0) × Consumes (S.left self.old.source.now) (S.left self.new.source.now) [] × IsAtEnd (S.left self.new.source.now)) }
        ensures err { (bytes taken : List ℕ) (blue green red : List Bool) → S.left self.old.source.now ≡ Some bytes → Stands self.old.version self.old.bits self.old.block taken blue green red
            → IfErr result (λ e. SaysOf (λ fault. IsFault (taken ++ bytes) fault × StopsIn self.old.bits self.old.block taken (place_of fault)) e) }
        ensures part { IfErr result (λ e. SaysRead ((part : List ℕ) × IsBlockPart self.old.bits self.old.block part × Consumes (S.left self.old.source.now) (S.left self.new.source.now) part) e) }
        ensures taken { (taken : List ℕ) × Consumes (S.left self.old.source.now) (S.left self.new.source.now) taken }
        ensures caused { IfErr result (λ e. IsCaused (S.faults self.old.source.now) (S.faults self.new.source.now) e) }
        ensures later { S.faults self.old.source.now ≤ S.faults self.new.source.now }
    {
        self.is_open = false;
        let heading = Heading {
            version: self.version,
            bits: self.bits,
        };
        if self.lanes.read_next(self.source, heading, self.block)? {
            self.block += 1;
            self.is_open = true;
        }
        Ok(self.is_open)
    }

    /// Lends the bits of the next block, and takes exactly its bytes from the source. Where all blocks were given it reads
    /// on, and answers none where the input ends there: the bytes taken are a capture then, and the bits of all
    /// blocks are its lanes. A lane that has ended has none in a block.
    ///
    /// # Errors
    ///
    /// `Bad` where the bytes are no capture, with the least place that shows it; `Read` where the source
    /// fails after bytes with which some capture begins. The blocks that were given are the whole blocks
    /// before that place, or of the bytes that were read.
    pub fn next(&mut self) -> Result<Option<LaneBits<'_>>, CaptureError>
        requires { self.old.is_open ≡ true }
        ensures bits { IfOk result (λ o. IfSome o (λ block.
            (slice_index block.bits 0 ≡ bits_in self.old.block (slice_index self.old.bits 0))
            × (slice_index block.bits 1 ≡ bits_in self.old.block (slice_index self.old.bits 1))
            × (slice_index block.bits 2 ≡ bits_in self.old.block (slice_index self.old.bits 2)))) }
        ensures sizes { IfOk result (λ o. IfSome o (λ block.
            (length block.blue.now ≡ (slice_index block.bits 0 + 7) / 8)
            × (length block.green.now ≡ (slice_index block.bits 1 + 7) / 8)
            × (length block.red.now ≡ (slice_index block.bits 2 + 7) / 8))) }
        ensures some { IfOk result (λ o. IfSome o (λ block. 0 < block_size self.old.block self.old.bits)) }
        ensures stands { (taken : List ℕ) (blue green red : List Bool) → Stands self.old.version self.old.bits self.old.block taken blue green red
            → IfOk result (λ o. IfSome o (λ block. Stands self.old.version self.old.bits (self.old.block + 1) (taken ++ ((block.blue.now ++ block.green.now) ++ block.red.now))
            (blue ++ take (slice_index block.bits 0) (bytes_bits block.blue.now)) (green ++ take (slice_index block.bits 1) (bytes_bits block.green.now)) (red ++ take (slice_index block.bits 2) (bytes_bits block.red.now)))) }
        ensures whole { (taken : List ℕ) (blue green red : List Bool) → Stands self.old.version self.old.bits self.old.block taken blue green red
            → IfOk result (λ o. IfNone o (IsCaptureOf blue green red taken)) }
        ensures err { (bytes taken : List ℕ) (blue green red : List Bool) → S.left self.old.source.now ≡ Some bytes → Stands self.old.version self.old.bits self.old.block taken blue green red
            → IfErr result (λ e. SaysOf (λ fault. IsFault (taken ++ bytes) fault × StopsIn self.old.bits self.old.block taken (place_of fault)) e) }
        ensures* after { sem 𝓛 (follows_so (the_row (record { mir = named 1; lft = [] }) S.row) (the_row (record { mir = named 1; lft = [] }) S.row) self.entry.ghost_name none (λ _ _. ⊤) (λ v.
            (v.source.ghost_name ≡ self.old.source.ghost_name) × (v.version ≡ self.old.version) × (v.bits ≡ self.old.bits)
            × (S.faults self.old.source.now ≤ S.faults v.source.now)
            × IfOk result (λ o. MatchOption o
            ((v.is_open ≡ false) × Consumes (S.left self.old.source.now) (S.left v.source.now) [] × IsAtEnd (S.left v.source.now))
            (λ block. (v.is_open ≡ true) × (v.block ≡ self.old.block + 1) × Consumes (S.left self.old.source.now) (S.left v.source.now) ((block.blue.now ++ block.green.now) ++ block.red.now)))
            × IfErr result (λ e. (v.is_open ≡ false) × IsCaused (S.faults self.old.source.now) (S.faults v.source.now) e
            × SaysRead ((part : List ℕ) × IsBlockPart self.old.bits self.old.block part × Consumes (S.left self.old.source.now) (S.left v.source.now) part) e
            × ((taken : List ℕ) × Consumes (S.left self.old.source.now) (S.left v.source.now) taken)))) }
    {
        let block = self.block;
        match self.advance() {
            Ok(true) => Ok(Some(self.lent(block))),
            Ok(false) => Ok(None),
            Err(error) => Err(error),
        }
    }

    /// The block that was read, whose number is `j`.
    fn lent(&self, j: u32) -> LaneBits<'_>
        requires { BLOCK_BITS * j < 2 ^ 32 }
        ensures blue { result.blue.now ≡ packed self.now.lanes.blue }
        ensures green { result.green.now ≡ packed self.now.lanes.green }
        ensures red { result.red.now ≡ packed self.now.lanes.red }
        ensures bits { (slice_index result.bits 0 ≡ bits_in j (slice_index self.now.bits 0)) × (slice_index result.bits 1 ≡ bits_in j (slice_index self.now.bits 1)) × (slice_index result.bits 2 ≡ bits_in j (slice_index self.now.bits 2)) }
    {
        LaneBits {
            blue: self.lanes.blue.as_bytes(),
            green: self.lanes.green.as_bytes(),
            red: self.lanes.red.as_bytes(),
            bits: [
                chunk_len(self.bits[0], j),
                chunk_len(self.bits[1], j),
                chunk_len(self.bits[2], j),
            ],
        }
    }
}
