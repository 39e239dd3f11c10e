//! Rows, one after the other in one allocation, so that the memory of many goes back to the system at once.
ghost use Rattle.std.specs.Prelude.{◌≡◌, ℕ, ◌<◌, ◌++◌, ◌∷◌, [], List, length, get_or, OnOk, OnErr};
ghost use Rattle.source_end.specs.Rows.{rows_between, AreEnds};

use outside_io::NoMemory;
use std::alloc::Global;
use std::marker::Model;

/// Rows, as they were given.
#[derive(Drop)]
pub(crate) struct ByteRows {
    bytes: Vec<u8>,
    /// Where each row ends.
    ends: Vec<usize>,
}

impl Model for ByteRows {
    ghost use Rattle.std.specs.Prelude.{List, ℕ, length};
    ghost use Rattle.source_end.specs.Rows.{rows_between, AreEnds};

    ghost Value = { List (List ℕ) };

    ghost view = { λ r. rows_between 0 r.bytes.items r.ends.items };

    ghost invariant = { λ r. AreEnds 0 r.ends.items (length r.bytes.items) };
}

impl ByteRows {
    /// No rows yet; keeps the allocator for its growth.
    pub(crate) fn new(alloc: Global) -> ByteRows
        ensures { result ≡ [] }
    {
        ByteRows {
            bytes: Vec::new(alloc),
            ends: Vec::new(alloc),
        }
    }

    /// How many rows there are.
    pub(crate) fn len(&self) -> usize
        ensures { result ≡ length self.now }
    {
        self.ends.len()
    }

    /// Appends a row. After a refusal the rows are as before.
    pub(crate) fn push(&mut self, row: &[u8]) -> Result<(), NoMemory>
        ensures ok { OnOk result (self.new ≡ self.old ++ row.now ∷ []) }
        ensures err { OnErr result (self.new ≡ self.old) }
    {
        self.ends.reserve(1)?;
        self.bytes.extend_from_slice(row)?;
        match self.ends.push(self.bytes.len()) {
            Ok(()) => Ok(()),
            Err(_) => unreachable!(),
        }
    }

    /// The bytes of a row.
    pub(crate) fn get(&self, i: usize) -> &[u8]
        requires { i < length self.now }
        ensures { (other : List ℕ) → result.now ≡ get_or self.now i other }
    {
        row_at(self.bytes.as_slice(), self.ends.as_slice(), i)
    }
}

/// Row `i` of bytes, of rows with these ends.
fn row_at<'a>(bytes: &'a [u8], ends: &[usize], i: usize) -> &'a [u8]
    requires row { i < length ends.now }
    requires ends { AreEnds 0 ends.now (length bytes.now) }
    ensures { (other : List ℕ) → result.now ≡ get_or (rows_between 0 bytes.entry.now ends.now) i other }
{
    let start = begin(ends, i);
    &bytes[start..ends[i]]
}

/// Where row `i` begins, of rows with these ends.
fn begin(ends: &[usize], i: usize) -> usize
    requires { i < length ends.now }
    ensures { result ≡ get_or (0 ∷ ends.now) i 0 }
{
    match i {
        0 => 0,
        _ => ends[i - 1],
    }
}
