// The code that goes with the vocabulary of scans: clearing the front of a buffer, and writing over it.
#![tactic(auto)]

ghost use Rattle.std.specs.Prelude.{◌≡◌, take};
ghost use Rattle.scan.specs.Front.{cleared};
ghost use Rattle.scan.specs.Placed.{placed};

// Zeroes the first n words, or all if there are fewer.
pub fn clear_front(words: &mut [u32], n: usize)
    ensures { words.new ≡ cleared n words.old }
{
    let front = n.min(words.len());
    words[..front].fill(0);
}

// Writes the first n numbers of a row over the front of a buffer, at most as many as the row has and the buffer holds.
pub fn write_row<T: Copy>(row: [T; 32], out: &mut [T], n: usize)
    ensures { out.new ≡ placed out.old 0 (take n row) }
{
    let front = n.min(row.len()).min(out.len());
    out[..front].copy_from_slice(&row[..front]);
}
