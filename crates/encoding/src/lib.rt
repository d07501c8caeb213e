// The words of a graph (§11.6), written row by row: in each section of the words, the entries of one node after the other are appended to a lent buffer.
#![tactic(auto)]

ghost use Rattle.std.specs.Prelude.{◌≡◌, [], ◌∷◌, ◌+◌, ◌<◌};
ghost use Rattle.scan.specs.Scan.{count};
ghost use Rattle.encoding.specs.Rows.{word_of, filled_at, row_words, Appended};
ghost use Rattle.encoding.specs.Kept.{arc_cell, arc_cells};
ghost use Rattle.encoding.specs.Lengths.{lengths_numbers};

use refusal::Numbers;

// The sections of the words after V and K, in their order: the keys of arcs, the keys of counts, the targets of arcs, the counts.
// `Numbers` is for words that may be 0, so that a cell holds 1 more than the word: the targets of arcs, and the new counts of a list of changes.
#[derive(Clone, Copy)]
pub enum Section {
    ArcKeys,
    CountKeys,
    Numbers,
    Counts,
}

// The entries of a node: its arcs, its counts, or the changes of its counts. `first` is the key of the first column. A cell is 0 if the column has no
// entry; else it is 1 plus the target of the arc, or the count, or 1 plus the new count. No key of a schedule is above 8,191, so `first` is a u16.
#[derive(Clone, Copy)]
pub struct Row {
    pub first: u16,
    pub cells: [u32; 32],
}

// The lengths in words of a schedule that a call wrote and of the list that it wrote beside it.
#[derive(Clone, Copy)]
pub struct Lengths {
    pub sheet: usize,
    pub list: usize,
}

impl Numbers for Lengths {
    ghost numbers = { lengths_numbers };

    fn numbers(self) -> [u64; 3] {
        [self.sheet as u64, self.list as u64, 0]
    }
}

// The word of an entry.
fn word(section: Section, key: u32, cell: u32) -> u32
    requires { 0 < cell }
    ensures { result ≡ word_of section key cell }
{
    match section {
        Section::ArcKeys => key,
        Section::CountKeys => key,
        Section::Numbers => cell - 1,
        Section::Counts => cell,
    }
}

// Writes a word at an index, and answers the next index. A word for which the buffer has no room is dropped.
pub fn put(word: u32, out: &mut [u32], at: usize) -> usize
    ensures { Appended out.old at (word ∷ []) result out.new }
{
    if at < out.len() {
        out[at] = word;
        return at + 1;
    }
    at
}

// Writes the words of a row's entries one after the other from an index on, and answers the index after them. Words without room are dropped.
pub fn append(row: Row, section: Section, out: &mut [u32], at: usize) -> usize
    ensures { Appended out.old at (row_words row section) result out.new }
{
    let cells = row.cells;
    let first = row.first as u32;
    let mut next = at;
    for c in 0..32 {
        let cell = cells[c];
        let key = first + c as u32;
        if 0 < cell {
            next = put(word(section, key, cell), out, next);
        }
    }
    next
}

// How many entries a row has.
pub fn filled(cells: [u32; 32]) -> usize
    ensures { result ≡ count (filled_at cells) 32 }
{
    let mut entries = 0;
    for cell in cells {
        if 0 < cell {
            entries += 1;
        }
    }
    entries
}

// The cell of an arc that leads to a node: 1 more, since 0 is no arc.
fn arc_to(node: u8) -> u32
    ensures { result ≡ node + 1 }
{
    node as u32 + 1
}

// The cell of the arc at entry code - 1. A table gives the number of the node that it leads to.
fn arc_cell(sheet: &[u32], numbers: [u8; 128], code: usize) -> u32
    requires { 0 < code }
    ensures { result ≡ arc_cell sheet.now numbers code }
{
    let target = graph::value(sheet, code - 1) as usize;
    if 128 <= target {
        return arc_to(0);
    }
    arc_to(numbers[target])
}

// The cells of node n's arcs, 0 for a transition without an arc. A table gives the numbers of the nodes that the arcs lead to.
pub fn arc_cells(net: &[u32], sheet: &[u32], numbers: [u8; 128], n: u32) -> [u32; 32]
    ensures { result ≡ arc_cells net.now sheet.now numbers n }
{
    let codes = graph::arc_entries(net, sheet, n);
    let mut cells = [0u32; 32];
    for t in 0..32 {
        let entry = codes[t];
        if 0 < entry {
            cells[t] = arc_cell(sheet, numbers, entry);
        }
    }
    cells
}
