// The words of the trimmed schedule (§10.36), and the list of old numbers (§10.37). Kept nodes keep their order, and so do their entries. So one pass over the
// entries writes them all: each key at the next index, and its value as many words behind it as there are keys.
ghost use Rattle.std.specs.Prelude.{◌≡◌, ◌<◌, Ok};
ghost use Rattle.sequential.specs.Petri.{petri_net};
ghost use Rattle.sequential.specs.Words.{entry_count, graph};
ghost use Rattle.scan.specs.Placed.{placed};
ghost use Rattle.graph.specs.Readable.{words_reply};
ghost use Rattle.trimmed.specs.Trim.{trimmed_words, kept_list};
ghost use Rattle.trimmed.specs.Entries.{entry_node, new_key, new_value};
ghost use Rattle.trimmed.specs.Call.{TrimWritten};
ghost use Rattle.trim.specs.Tables.{new_cell, NewCells, NewNodes, KeptEntry, Counted};

use super::numbers::Numbers;
use encoding::Lengths;
use trimmed::TrimAnswer;

// The cell of the node to which entry i belongs (§3.5, §3.6): 1 plus the node's new number, or 0 if the node is dropped.
fn cell_of(net: &[u32], sheet: &[u32], cells: &[u8; 128], i: usize) -> u8
    requires new_cells { NewCells net.now sheet.now cells.now }
    requires i_bound { i < entry_count sheet.now }
    ensures { result ≡ new_cell (graph (petri_net net.now) sheet.now) (entry_node (petri_net net.now) sheet.now i) }
{
    let key = sheet[2 + i];
    let transitions = net::transitions(net);
    let arcs = sheet[0] * transitions;
    if key < arcs {
        return cells[(key / transitions) as usize];
    }
    cells[((key - arcs) / net::places(net)) as usize]
}

// How many entries are kept: K of the trimmed schedule.
fn entry_count(net: &[u32], sheet: &[u32], cells: &[u8; 128]) -> usize
    requires { NewCells net.now sheet.now cells.now }
    ensures { Counted net.now sheet.now result }
{
    let all = sheet[1] as usize;
    let mut entries = 0;
    for i in 0..all {
        if 0 < cell_of(net, sheet, cells, i) {
            entries += 1;
        }
    }
    entries
}

// The new key of a kept entry.
fn new_key(net: &[u32], sheet: &[u32], cells: &[u8; 128], found: usize, i: usize) -> u32
    requires new_nodes { NewNodes net.now sheet.now cells.now found }
    requires kept_entry { KeptEntry net.now sheet.now i }
    ensures { result ≡ new_key (petri_net net.now) sheet.now i }
{
    let number = cell_of(net, sheet, cells, i) as u32 - 1;
    let key = sheet[2 + i];
    let transitions = net::transitions(net);
    let arcs = sheet[0] * transitions;
    if key < arcs {
        return number * transitions + key % transitions;
    }
    let places = net::places(net);
    found as u32 * transitions + number * places + (key - arcs) % places
}

// The new value of a kept entry: of an arc the new number of its target, which is kept as well; a count stays.
fn new_value(net: &[u32], sheet: &[u32], cells: &[u8; 128], i: usize) -> u32
    requires new_cells { NewCells net.now sheet.now cells.now }
    requires kept_entry { KeptEntry net.now sheet.now i }
    ensures { result ≡ new_value (petri_net net.now) sheet.now i }
{
    let value = sheet[2 + sheet[1] as usize + i];
    if sheet[2 + i] < sheet[0] * net::transitions(net) {
        return cells[value as usize] as u32 - 1;
    }
    value
}

// Writes the trimmed schedule.
fn write_sheet(
    net: &[u32],
    sheet: &[u32],
    cells: &[u8; 128],
    found: usize,
    entries: usize,
    out: &mut [u32],
)
    requires new_nodes { NewNodes net.now sheet.now cells.now found }
    requires counted { Counted net.now sheet.now entries }
    ensures { out.new ≡ placed out.old 0 (trimmed_words net.now sheet.now) }
{
    encoding::put(found as u32, out, 0);
    encoding::put(entries as u32, out, 1);
    let all = sheet[1] as usize;
    let mut done = 0;
    for i in 0..all {
        if 0 < cell_of(net, sheet, cells, i) {
            let key = new_key(net, sheet, cells, found, i);
            let value = new_value(net, sheet, cells, i);
            encoding::put(key, out, 2 + done);
            encoding::put(value, out, 2 + entries + done);
            done += 1;
        }
    }
}

// Writes the list of old numbers, in the order of the new ones.
fn write_list(net: &[u32], sheet: &[u32], cells: &[u8; 128], list: &mut [u32])
    requires { NewCells net.now sheet.now cells.now }
    ensures { list.new ≡ placed list.old 0 (kept_list net.now sheet.now) }
{
    let nodes = sheet[0] as usize;
    let mut next = 0;
    for n in 0..nodes {
        if 0 < cells[n] {
            next = encoding::put(n as u32, list, next);
        }
    }
}

// Writes both if the buffers hold them, and else refuses by 22 (§9.6).
pub(crate) fn write(
    net: &[u32],
    sheet: &[u32],
    new: Numbers,
    out: &mut [u32],
    list: &mut [u32],
) -> TrimAnswer
    requires sheet_value { words_reply net.now sheet.now ≡ Ok tt }
    requires new_nodes { NewNodes net.now sheet.now new.cells new.found }
    ensures { TrimWritten net.now sheet.now out.old list.old result out.new list.new }
{
    let cells = new.cells;
    let entries = entry_count(net, sheet, &cells);
    let lengths = Lengths {
        sheet: 2 + 2 * entries,
        list: new.found,
    };
    lending::output_fault(out.len(), lengths.sheet)?;
    lending::output_fault(list.len(), lengths.list)?;
    write_sheet(net, sheet, &cells, new.found, entries, out);
    write_list(net, sheet, &cells, list);
    Ok(lengths)
}
