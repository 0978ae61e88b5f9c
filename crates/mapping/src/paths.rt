// A gate's line from its parts: its label, its cut, and the paths that stand in the links.
ghost use Rattle.std.specs.Prelude.{◌≡◌, get_or};
ghost use mathlib.Core.List.{[], flat_map};
ghost use Rattle.flow.specs.Paths.{paths_in};
ghost use Rattle.sheet.specs.paper.Sheet.{line_of};
ghost use Rattle.sheet.specs.paper.Encoding.{path_bytes, line_field};
ghost use Rattle.sheet.specs.Writing.{Room, Written};
ghost use Rattle.mapping.specs.Lines.{PathAsked, PathsAsked, ProvenAsked};

use flow::read_path;
use sheet::{Form, begin_line, end_line, put_path};
use storage::{Label, Numbers};

// The i-th path. Its ids are read into the third column of the links, which the paths leave free, and written from there.
fn write_path(
    form: Form,
    numbers: Numbers,
    i: usize,
    links: &mut [u16],
    sheet: &mut [u8],
    at: usize,
) -> usize
    requires { PathAsked form.width numbers.inputs numbers.nodes i links.old sheet.old at }
    ensures written { Written sheet.old at (path_bytes form.width (get_or (paths_in numbers.inputs
        numbers.nodes links.old) i [])) sheet.new result }
    ensures links_unchanged { paths_in numbers.inputs numbers.nodes links.new
        ≡ paths_in numbers.inputs numbers.nodes links.old }
{
    let count = read_path(numbers, links, i);
    let ids_at = 2 * numbers.nodes;
    put_path(form, sheet, at, &links[ids_at..ids_at + count])
}

fn write_paths(
    form: Form,
    numbers: Numbers,
    many: usize,
    links: &mut [u16],
    sheet: &mut [u8],
    at: usize,
) -> usize
    requires { PathsAsked form.width numbers.inputs numbers.nodes many links.old sheet.old at }
    ensures { Written sheet.old at (flat_map (path_bytes form.width) (paths_in numbers.inputs
        numbers.nodes links.old)) sheet.new result }
{
    let mut to = at;
    for i in 0..many {
        to = write_path(form, numbers, i, links, sheet, to);
    }
    to
}

// A line with K + 1 paths.
pub fn write_proven(
    form: Form,
    numbers: Numbers,
    label: Label,
    leaves: &[u16],
    links: &mut [u16],
    sheet: &mut [u8],
    at: usize,
) -> usize
    requires { ProvenAsked form numbers.inputs numbers.nodes numbers.k.leaves label.depth
        leaves.now links.old sheet.old at }
    ensures { Written sheet.old at (line_field form (line_of label.depth
        leaves.now (paths_in numbers.inputs numbers.nodes links.old))) sheet.new result }
{
    let many = numbers.k.leaves as usize + 1;
    let paths_at = begin_line(form, sheet, at, label, leaves, many);
    let end = write_paths(form, numbers, many, links, sheet, paths_at);
    end_line(sheet, at, end)
}

// A line without paths.
pub fn write_bare(form: Form, label: Label, leaves: &[u16], sheet: &mut [u8], at: usize) -> usize
    requires { Room sheet.old at (line_field form (line_of label.depth leaves.now [])) }
    ensures { Written sheet.old at (line_field form (line_of label.depth leaves.now [])) sheet.new result }
{
    let end = begin_line(form, sheet, at, label, leaves, 0);
    end_line(sheet, at, end)
}
