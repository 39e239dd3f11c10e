//! Laws of the code, each the contract of a function with nothing to do.

ghost use Rattle.std.specs.Prelude.{◌≡◌, ◌≢◌, ◌<◌, ◌≤◌, ℕ, Bool, List, length};
ghost use Rattle.bch_block.specs.Bits.{bits_of_bytes, flipped, differences};
ghost use Rattle.bch_block.specs.Block.{IsBlock};
ghost use Rattle.bch_block.specs.Repair.{IsVerdict, Repairs};
ghost use Rattle.bch_block.specs.declared.Verdict.{Verdict};
ghost use Rattle.bch_block.specs.declared.Verdict.TheVariants.{Mended, Lost};

/// Two unlike blocks of one length, up to 64 bits, differ in four places at least.
pub fn blocks_differ_in_four_places()
    ensures { (x y : List Bool) → length x ≤ 64 → length y ≡ length x → IsBlock x → IsBlock y →
        x ≢ y → 4 ≤ differences x y }
{}

/// One wrong bit of a block is found: the verdict names its place, and no other verdict holds.
pub fn one_wrong_bit_is_mended()
    ensures mended { (x : List Bool) (i : ℕ) → length x ≤ 64 → IsBlock x → i < length x →
        IsVerdict (flipped x i) (Mended i) }
    ensures only { (x : List Bool) (i : ℕ) (v : Verdict) → length x ≤ 64 → IsBlock x → i < length x →
        IsVerdict (flipped x i) v → v ≡ Mended i }
{}

/// A bit that is turned over twice is as it was. So one wrong bit of a block is restored: where bytes with one wrong bit
/// are repaired under their verdict, they are the block's again.
pub fn flipping_twice_restores()
    ensures twice { (x : List Bool) (i : ℕ) → flipped (flipped x i) i ≡ x }
    ensures restored { (x : List Bool) (i : ℕ) (old new : List ℕ) (v : Verdict) → length x ≤ 64 → IsBlock x → i < length x →
        bits_of_bytes old ≡ flipped x i → IsVerdict (bits_of_bytes old) v → Repairs old new v → bits_of_bytes new ≡ x }
{}

/// Two wrong bits of a block are noticed: the verdict is that it is lost, and no other verdict holds.
pub fn two_wrong_bits_are_lost()
    ensures lost { (x : List Bool) (i j : ℕ) → length x ≤ 64 → IsBlock x → i < length x → j < length x →
        i ≢ j → IsVerdict (flipped (flipped x i) j) Lost }
    ensures only { (x : List Bool) (i j : ℕ) (v : Verdict) → length x ≤ 64 → IsBlock x → i < length x → j < length x →
        i ≢ j → IsVerdict (flipped (flipped x i) j) v → v ≡ Lost }
{}

/// A list of up to 64 bits has one verdict.
pub fn one_verdict()
    ensures { (x : List Bool) (v w : Verdict) → length x ≤ 64 → IsVerdict x v → IsVerdict x w → v ≡ w }
{}

/// Under a verdict, bytes become the same bits by every repair.
pub fn one_repair()
    ensures { (old new other : List ℕ) (v : Verdict) → Repairs old new v → Repairs old other v → bits_of_bytes new ≡ bits_of_bytes other }
{}
