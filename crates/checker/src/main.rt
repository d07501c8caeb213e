// The checker: reads net.bin and sheet.bin of the folder in which it runs (§12.1), prints the answer to them, and ends with status 0 if it could write that (§12.8).
#![tactic(auto)]

ghost use Rattle.std.specs.Prelude.{◌≡◌, List, ℕ, take};
ghost use Rattle.io.specs.Counts.{IsPrefixLen};
ghost use Rattle.files.specs.Printed.{printed, Buffers, Reads};

use std::io::Read;
use std::rt::Files;
use std::{fs, io};

// Room for one word more of each file than the longest that can be accepted: §12.3.
const NET_WORDS: usize = 4228;

const NET_BYTES: usize = 16912;

const SHEET_WORDS: usize = 8195;

const SHEET_BYTES: usize = 32780;

// The longest minimal form, and the longest text.
const FORM_WORDS: usize = 8194;

const TEXT_BYTES: usize = 91315;

// Reads until buf is full, the input ends or a read fails, and answers how many bytes it put at the start of buf.
fn read_full(from: &mut impl Read, buf: &mut [u8]) -> usize
    ensures { IsPrefixLen result buf.new }
{
    let mut done = 0;
    // No `for`: each read says how far it came.
    while done < buf.len() {
        match from.read(&mut buf[done..]) {
            Ok(n) if n > 0 => done += n,
            _ => break,
        }
    }
    done
}

// Reads a file to the start of buf, as many bytes as buf holds, and answers how many; 0 for a file that cannot be opened or read (§12.2).
fn read_file(rt: &impl Files, path: &str, buf: &mut [u8]) -> usize
    ensures { IsPrefixLen result buf.new }
{
    match fs::open(rt, path) {
        Ok(mut file) => read_full(&mut file, buf),
        Err(_) => 0,
    }
}

// Puts all that is printed for two files at the start of out. The files are the first n bytes of netbin and the first s bytes of sheetbin: no slices, since
// that both buffers hold all that has to be read of a file is part of `Buffers`.
fn report(
    netbin: &[u8],
    n: usize,
    sheetbin: &[u8],
    s: usize,
    net: &mut [u32],
    sheet: &mut [u32],
    form: &mut [u32],
    out: &mut [u8],
) -> usize
    requires buffers { Buffers netbin.now sheetbin.now net.old sheet.old form.old out.old }
    requires prefix_len { IsPrefixLen n netbin.now × IsPrefixLen s sheetbin.now }
    ensures prints { (netFile sheetFile : List ℕ) → Reads netFile netbin.now n → Reads sheetFile sheetbin.now s → take result out.new ≡ printed netFile sheetFile }
    ensures text_len { IsPrefixLen result out.new }
{
    files::print_files(&netbin[..n], &sheetbin[..s], net, sheet, form, out)
}

fn main(rt: HostRuntime) -> io::Result<()> {
    let mut netbin = [0u8; NET_BYTES];
    let mut sheetbin = [0u8; SHEET_BYTES];
    let n = read_file(&rt, "net.bin", &mut netbin);
    let s = read_file(&rt, "sheet.bin", &mut sheetbin);
    let mut net = [0u32; NET_WORDS];
    let mut sheet = [0u32; SHEET_WORDS];
    let mut form = [0u32; FORM_WORDS];
    let mut out = [0u8; TEXT_BYTES];
    let k = report(
        &netbin, n, &sheetbin, s, &mut net, &mut sheet, &mut form, &mut out,
    );
    rt.write_all(&out[..k])
}
