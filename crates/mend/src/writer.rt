// The words of the mended schedule and of the list of changes: first the keys, then the values, each row by row.
ghost use Rattle.std.specs.Prelude.{◌≡◌, ℕ, ◌+◌, ◌≤◌, ◌<◌, length, get_or};
ghost use Rattle.scan.specs.Scan.{tabulate};
ghost use Rattle.scan.specs.Placed.{placed};
ghost use Rattle.refusal.specs.Limits.{most_places, most_count};
ghost use Rattle.sequential.specs.Words.{entry_count};
ghost use Rattle.encoding.specs.Rows.{Appended};
ghost use Rattle.mended.specs.Mend.{mended_words};
ghost use Rattle.mended.specs.Changes.{changes as change_words};
ghost use Rattle.mend.specs.Places.{Fitting};
ghost use Rattle.mend.specs.Rows.{Mendable, KnownRow};
ghost use Rattle.mend.specs.Writing.{copied, part_row, part_of, half_of, entries_of, changed_number, changed_cell};

use super::rows;
use encoding::{Row, Section};

// Which counts of the nodes are written: all above 0, or only those that change.
#[derive(Clone, Copy)]
pub(crate) enum Part {
    Counts,
    Changes,
}

// Copies n words of the schedule from index `from` to index `at` of the buffer, and answers the index after them.
fn copy(sheet: &[u32], from: usize, n: usize, out: &mut [u32], at: usize) -> usize
    requires { from + n ≤ length sheet.now }
    ensures { Appended out.old at (tabulate (copied sheet.now from) n) result out.new }
{
    let mut next = at;
    for i in 0..n {
        next = encoding::put(sheet[from + i], out, next);
    }
    next
}

// The cell of a count that changes is 1 more than it, since a count may change to 0; the cell of one that stays is 0.
fn changed_cell(new: u32, given: u32) -> u32
    requires { new ≤ most_count }
    ensures { result ≡ changed_number new given }
{
    if new == given {
        return 0;
    }
    new + 1
}

fn changed_cells(row: [u32; 32], given: [u32; 32]) -> [u32; 32]
    requires { (p : ℕ) → p < most_places → get_or row p 0 ≤ most_count }
    ensures { result ≡ tabulate (changed_cell row given) most_places }
{
    let mut cells = [0u32; 32];
    for p in 0..32 {
        cells[p] = changed_cell(row[p], given[p]);
    }
    cells
}

// The row of node n in a part, given its counts. Keys of counts follow the keys of all arcs; keys of changes begin at 0.
fn part_row(net: &[u32], sheet: &[u32], part: Part, n: u32, counts: [u32; 32]) -> Row
    requires fitting { Fitting net.now sheet.now }
    requires known_row { KnownRow net.now sheet.now n n counts }
    ensures { result ≡ part_row net.now sheet.now part n }
{
    match part {
        Part::Counts => {
            let first = graph::counts_start(net, sheet[0], n);
            Row {
                first: first as u16,
                cells: counts,
            }
        }
        Part::Changes => {
            let first = graph::counts_start(net, 0, n);
            let given = graph::marking(net, sheet, n);
            let cells = changed_cells(counts, given);
            Row {
                first: first as u16,
                cells,
            }
        }
    }
}

// How many entries a part has.
#[inline(never)]
pub(crate) fn counted(net: &[u32], sheet: &[u32], parent: [u16; 128], part: Part) -> usize
    requires { Mendable net.now sheet.now parent }
    ensures { result ≡ length (part_of net.now sheet.now part Section.CountKeys) }
{
    let nodes = sheet[0] as usize;
    let mut counts = net::start_row(net);
    let mut known = 0;
    let mut entries = 0;
    for n in 0..nodes {
        let here = rows::row_of(net, sheet, parent, n, known, counts);
        let row = part_row(net, sheet, part, n as u32, here);
        let cells = row.cells;
        entries += encoding::filled(cells);
        counts = here;
        known = n;
    }
    entries
}

// Writes a part's keys or its values.
fn write_part(
    net: &[u32],
    sheet: &[u32],
    parent: [u16; 128],
    part: Part,
    section: Section,
    out: &mut [u32],
    at: usize,
) -> usize
    requires { Mendable net.now sheet.now parent }
    ensures { Appended out.old at (part_of net.now sheet.now part section) result out.new }
{
    let nodes = sheet[0] as usize;
    let mut counts = net::start_row(net);
    let mut known = 0;
    let mut next = at;
    for n in 0..nodes {
        let here = rows::row_of(net, sheet, parent, n, known, counts);
        let row = part_row(net, sheet, part, n as u32, here);
        next = encoding::append(row, section, out, next);
        counts = here;
        known = n;
    }
    next
}

// Writes the keys of the mended schedule, or its values: those of the arcs, copied from an index on, then those of the counts.
fn write_half(
    net: &[u32],
    sheet: &[u32],
    parent: [u16; 128],
    from: usize,
    section: Section,
    out: &mut [u32],
    at: usize,
) -> usize
    requires mendable { Mendable net.now sheet.now parent }
    requires sheet_in_bounds { from + entry_count sheet.now ≤ length sheet.now }
    ensures { Appended out.old at (half_of net.now sheet.now from section) result out.new }
{
    let arcs = graph::arc_count(net, sheet);
    let next = copy(sheet, from, arcs, out, at);
    write_part(net, sheet, parent, Part::Counts, section, out, next)
}

// Writes the mended schedule: the arcs as they are given, and the counts that they force.
#[inline(never)]
pub(crate) fn write_sheet(
    net: &[u32],
    sheet: &[u32],
    parent: [u16; 128],
    entries: usize,
    out: &mut [u32],
)
    requires mendable { Mendable net.now sheet.now parent }
    requires entries_value { entries ≡ entries_of net.now sheet.now }
    ensures { out.new ≡ placed out.old 0 (mended_words net.now sheet.now) }
{
    let given = sheet[1] as usize;
    let next = encoding::put(sheet[0], out, 0);
    let next = encoding::put(entries as u32, out, next);
    let next = write_half(net, sheet, parent, 2, Section::CountKeys, out, next);
    write_half(net, sheet, parent, 2 + given, Section::Counts, out, next);
}

// Writes the list of changes.
#[inline(never)]
pub(crate) fn write_list(
    net: &[u32],
    sheet: &[u32],
    parent: [u16; 128],
    changes: usize,
    list: &mut [u32],
)
    requires mendable { Mendable net.now sheet.now parent }
    requires changes_value { changes ≡ length (part_of net.now sheet.now Part.Changes Section.CountKeys) }
    ensures { list.new ≡ placed list.old 0 (change_words net.now sheet.now) }
{
    let next = encoding::put(changes as u32, list, 0);
    let next = write_part(
        net,
        sheet,
        parent,
        Part::Changes,
        Section::CountKeys,
        list,
        next,
    );
    write_part(
        net,
        sheet,
        parent,
        Part::Changes,
        Section::Numbers,
        list,
        next,
    );
}
