//! The header of a capture, in both versions.
ghost use Rattle.std.specs.Prelude.{◌≡◌, ◌⊎◌, ℕ, ◌+◌, ◌*◌, ◌/◌, ◌^◌, ◌<◌, ◌≤◌, List, [], ◌∷◌, ◌++◌, length, take, min, get_or, slice_index, codes, Some, IfOk, IfErr, OnOk};
ghost use Rattle.std.specs.Io.KnownBytes.{Consumes};
ghost use Rattle.capture_file.specs.Layout.{high_first};
ghost use Rattle.capture_file.specs.Faults.{IsCaused};
ghost use Rattle.capture_file.specs.Captures.{header_of, CanSay, BeginsCapture, IsHeaderPart, IsEarlyFault, SaysOf, SaysRead, AreBytes, place_at};

use crate::{BLOCK_BYTES, CaptureError, CaptureFault};
use outside_io::{Source, read_full};

/// The version of a capture, and how many bits each lane has.
#[derive(Clone, Copy)]
pub(crate) struct Heading {
    pub(crate) version: u8,
    pub(crate) bits: [u32; 3],
}

/// Where block `j` begins, in a capture of a version with so many bits a lane.
pub(crate) fn block_place(version: u8, bits: [u32; 3], j: u32) -> u64
    ensures place { result ≡ place_at version bits j }
    ensures small { result < 2 ^ 40 }
{
    let header: u64 = if version == 2 { 16 } else { 8 };
    header + bytes_below(bits[0], j) + bytes_below(bits[1], j) + bytes_below(bits[2], j)
}

/// How many bytes the blocks before block `j` have of a lane of so many bits.
fn bytes_below(bits: u32, j: u32) -> u64
    ensures size { result ≡ min ((bits + 7) / 8) (BLOCK_BYTES * j) }
    ensures small { result ≤ 2 ^ 29 }
{
    u64::from(bits.div_ceil(8)).min(BLOCK_BYTES as u64 * u64::from(j))
}

/// Reads a header. A fault that the bytes which arrived show is answered, also where the next read fails.
pub(crate) fn read_heading<S: Source>(source: &mut S) -> Result<Heading, CaptureError>
    ensures ok { IfOk result (λ h. Consumes (S.left source.old) (S.left source.new) (header_of h.version h.bits)) }
    ensures said { IfOk result (λ h. CanSay h.version h.bits) }
    ensures err { (bytes : List ℕ) → S.left source.old ≡ Some bytes → IfErr result (λ e. SaysOf (λ fault. IsEarlyFault bytes fault) e) }
    ensures part { IfErr result (λ e. SaysRead ((part : List ℕ) × IsHeaderPart part × Consumes (S.left source.old) (S.left source.new) part) e) }
    ensures taken { (taken : List ℕ) × Consumes (S.left source.old) (S.left source.new) taken }
    ensures caused { IfErr result (λ e. IsCaused (S.faults source.old) (S.faults source.new) e) }
    ensures later { S.faults source.old ≤ S.faults source.new }
{
    let head = read_first(source)?;
    let bits = u32::from_be_bytes([head[4], head[5], head[6], head[7]]);
    if head[3] == b'1' {
        return Ok(Heading {
            version: 1,
            bits: [bits; 3],
        });
    }
    let [green, red] = read_second(source, bits)?;
    Ok(Heading {
        version: 2,
        bits: [bits, green, red],
    })
}

/// Reads the first eight bytes of a header, which are all of it in version 1.
fn read_first<S: Source>(source: &mut S) -> Result<[u8; 8], CaptureError>
    ensures ok { IfOk result (λ head. Consumes (S.left source.old) (S.left source.new) head) }
    ensures size { IfOk result (λ head. length head ≡ 8) }
    ensures bytes { IfOk result (λ head. AreBytes head) }
    ensures mark { IfOk result (λ head. take 3 head ≡ codes "TMC") }
    ensures version { IfOk result (λ head. (get_or head 3 0 ≡ 49) ⊎ (get_or head 3 0 ≡ 50)) }
    ensures err { (bytes : List ℕ) → S.left source.old ≡ Some bytes → IfErr result (λ e. SaysOf (λ fault. IsEarlyFault bytes fault) e) }
    ensures part { IfErr result (λ e. SaysRead ((part : List ℕ) × IsHeaderPart part × Consumes (S.left source.old) (S.left source.new) part) e) }
    ensures taken { (taken : List ℕ) × Consumes (S.left source.old) (S.left source.new) taken }
    ensures caused { IfErr result (λ e. IsCaused (S.faults source.old) (S.faults source.new) e) }
    ensures later { S.faults source.old ≤ S.faults source.new }
{
    let mut head = [0; 8];
    match read_full(source, &mut head) {
        Ok(count) => match judge_first(&head, count) {
            Ok(()) => Ok(head),
            Err(fault) => Err(CaptureError::Bad(fault)),
        },
        Err(got) => match judge_mark(&head, got.arrived) {
            Ok(()) => Err(CaptureError::Read),
            Err(fault) => Err(CaptureError::Bad(fault)),
        },
    }
}

/// Judges the first `count` bytes of eight, which are all where they are fewer than eight.
fn judge_first(head: &[u8; 8], count: usize) -> Result<(), CaptureFault>
    requires { count ≤ 8 }
    ensures bytes { AreBytes head.now }
    ensures whole { OnOk result (count ≡ 8) }
    ensures mark { OnOk result (take 3 head.now ≡ codes "TMC") }
    ensures version { OnOk result ((get_or head.now 3 0 ≡ 49) ⊎ (get_or head.now 3 0 ≡ 50)) }
    ensures err { (rest : List ℕ) → (count < 8 → rest ≡ []) → IfErr result (λ fault. IsEarlyFault (take count head.now ++ rest) fault) }
{
    judge_mark(head, count)?;
    if count < 8 {
        return Err(CaptureFault::Short(count as u64));
    }
    Ok(())
}

/// Judges the first `count` bytes of eight, whatever follows them: the mark and the version, as far as they are there.
fn judge_mark(head: &[u8; 8], count: usize) -> Result<(), CaptureFault>
    requires { count ≤ 8 }
    ensures bytes { AreBytes head.now }
    ensures begins { OnOk result (BeginsCapture (take count head.now)) }
    ensures mark { OnOk result (take (min count 3) head.now ≡ take (min count 3) (codes "TMC")) }
    ensures version { OnOk result (3 < count → (get_or head.now 3 0 ≡ 49) ⊎ (get_or head.now 3 0 ≡ 50)) }
    ensures err { (rest : List ℕ) → IfErr result (λ fault. IsEarlyFault (take count head.now ++ rest) fault) }
{
    let like = matched(head, count);
    if like < count.min(3) {
        return Err(CaptureFault::Magic(like as u64));
    }
    if count > 3 && head[3] != b'1' && head[3] != b'2' {
        return Err(CaptureFault::Version(head[3]));
    }
    Ok(())
}

/// How many of the first `count` bytes are those of the mark, at most three.
fn matched(head: &[u8; 8], count: usize) -> usize
    requires { count ≤ 8 }
    ensures few { result ≤ min count 3 }
    ensures like { take result head.now ≡ take result (codes "TMC") }
    ensures unlike { result < min count 3 → get_or head.now result 0 ≡ get_or (codes "TMC") result 0 → ⊥ }
{
    let mark = [b'T', b'M', b'C'];
    let mut at = 0;
    while at < count && at < 3 && head[at] == mark[at] {
        at += 1;
    }
    at
}

/// Reads the counts of the other two lanes, which version 2 says after the first.
fn read_second<S: Source>(source: &mut S, bits: u32) -> Result<[u32; 2], CaptureError>
    ensures ok { IfOk result (λ more. Consumes (S.left source.old) (S.left source.new) (high_first (slice_index more 0) ++ high_first (slice_index more 1))) }
    ensures small { IfOk result (λ more. (slice_index more 0 < 2 ^ 32) × (slice_index more 1 < 2 ^ 32)) }
    ensures err { (bytes : List ℕ) → S.left source.old ≡ Some bytes → IfErr result (λ e. SaysOf (λ fault. IsEarlyFault (((codes "TMC" ++ 50 ∷ []) ++ high_first bits) ++ bytes) fault) e) }
    ensures part { IfErr result (λ e. SaysRead ((part : List ℕ) × IsHeaderPart (((codes "TMC" ++ 50 ∷ []) ++ high_first bits) ++ part) × Consumes (S.left source.old) (S.left source.new) part) e) }
    ensures taken { (taken : List ℕ) × Consumes (S.left source.old) (S.left source.new) taken }
    ensures caused { IfErr result (λ e. IsCaused (S.faults source.old) (S.faults source.new) e) }
    ensures later { S.faults source.old ≤ S.faults source.new }
{
    let mut more = [0; 8];
    let Ok(count) = read_full(source, &mut more) else {
        know_bytes(&more);
        return Err(CaptureError::Read);
    };
    match judge_second(&more, count) {
        Ok(counts) => Ok(counts),
        Err(fault) => Err(CaptureError::Bad(fault)),
    }
}

/// Says that each of eight bytes is below 256, as every byte is. It does nothing.
fn know_bytes(bytes: &[u8; 8])
    ensures { AreBytes bytes.now }
{
    let _ = bytes[0];
}

/// Judges the first `count` bytes of eight, which are all where they are fewer than eight, and says the two
/// counts that they are.
fn judge_second(more: &[u8; 8], count: usize) -> Result<[u32; 2], CaptureFault>
    requires { count ≤ 8 }
    ensures ok { IfOk result (λ counts. take count more.now ≡ high_first (slice_index counts 0) ++ high_first (slice_index counts 1)) }
    ensures small { IfOk result (λ counts. (slice_index counts 0 < 2 ^ 32) × (slice_index counts 1 < 2 ^ 32)) }
    ensures err { (bits : ℕ) (rest : List ℕ) → bits < 2 ^ 32 → (count < 8 → rest ≡ []) → IfErr result (λ fault. IsEarlyFault (((codes "TMC" ++ 50 ∷ []) ++ high_first bits) ++ (take count more.now ++ rest)) fault) }
{
    if count < 8 {
        return Err(CaptureFault::Short(8 + count as u64));
    }
    Ok([
        u32::from_be_bytes([more[0], more[1], more[2], more[3]]),
        u32::from_be_bytes([more[4], more[5], more[6], more[7]]),
    ])
}
