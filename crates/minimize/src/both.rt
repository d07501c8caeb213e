// The minimal forms of two schedules of one net, each in a buffer of its own. Both are measured before either is written: §9.6.
ghost use Rattle.std.specs.Prelude.{◌≡◌, Ok};
ghost use Rattle.graph.specs.Readable.{words_reply};
ghost use Rattle.minimize.specs.Both.{Measured, FormsOf};

use super::numbering::Numbers;
use super::{FormLengths, FormsAnswer, classes, numbering, writer};

// The nodes of a form, and how many entries it has.
#[derive(Clone, Copy)]
pub(crate) struct Measure {
    pub new: Numbers,
    pub entries: usize,
}

fn measured(net: &[u32], sheet: &[u32]) -> Measure
    requires { words_reply net.now sheet.now ≡ Ok tt }
    ensures { Measured net.now sheet.now result }
{
    let classes = classes::classes(net, sheet);
    let new = numbering::numbering(net, sheet, classes);
    let entries = writer::entry_count(net, sheet, new);
    Measure { new, entries }
}

// Writes both forms; the words have passed the checks that make them readable.
pub(crate) fn written(
    net: &[u32],
    first: &[u32],
    second: &[u32],
    one: &mut [u32],
    two: &mut [u32],
) -> FormsAnswer
    requires first_value { words_reply net.now first.now ≡ Ok tt }
    requires second_value { words_reply net.now second.now ≡ Ok tt }
    ensures { FormsOf net.now first.now second.now one.old two.old result one.new two.new }
{
    let former = measured(net, first);
    let latter = measured(net, second);
    let lengths = FormLengths {
        first: 2 + 2 * former.entries,
        second: 2 + 2 * latter.entries,
    };
    lending::output_fault(one.len(), lengths.first)?;
    lending::output_fault(two.len(), lengths.second)?;
    writer::write_form(net, first, former.new, former.entries, one);
    writer::write_form(net, second, latter.new, latter.entries, two);
    Ok(lengths)
}
