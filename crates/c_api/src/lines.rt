// Saved lines, for C.
ghost use Rattle.std.specs.Prelude.{◌≡◌, length};
ghost use Rattle.saved_lines.specs.Lines.{nearest_line, lines_in_order, lines_within, within_written};
ghost use Rattle.saved_lines.specs.Rows.{nearest_lines, row_written};
ghost use Rattle.c_api.specs.Answers.{count_out};

use crate::answers::{IndexedOut, count_out};
use saved_lines::nearest::nearest_line;
use saved_lines::reach::lines_within;
use saved_lines::row::nearest_lines;

// The position of the saved offset nearest to the query. Refuses 12, 9 (in the list with its index), 13, 15.
#[unsafe(no_mangle)]
pub extern "C" fn zurkeb_nearest_line(offsets: &[u32], query: u32) -> IndexedOut
    ensures { result ≡ count_out (nearest_line offsets.now query) }
{
    count_out(nearest_line(offsets, query))
}

// The positions of all lines within the distance of the query into out, the nearest first, and how many. Refuses 12, 9 (in the list with its index), 13,
// 15, 14; a refused call leaves out as it was.
#[unsafe(no_mangle)]
pub extern "C" fn zurkeb_lines_within(
    offsets: &[u32],
    query: u32,
    distance: u32,
    out: &mut [u32],
) -> IndexedOut
    ensures answer { result ≡ count_out (lines_within offsets.now query distance (length out.old)) }
    ensures written { out.new ≡ within_written (lines_within offsets.now query distance (length out.old))
        (lines_in_order offsets.now query distance) out.old }
{
    let found = lines_within(offsets, query, distance, out);
    count_out(found)
}

// The positions of the lines nearest to the queries, which ascend, into out, and the number of lines looked at. Refuses 11; 12, 9 (with
// its index), 13, 15 of the list; 9 (with its index), 16 of the queries; a refused call leaves out as it was.
#[unsafe(no_mangle)]
pub extern "C" fn zurkeb_nearest_lines(
    offsets: &[u32],
    queries: &[u32],
    out: &mut [u32],
) -> IndexedOut
    ensures answer { result ≡ count_out (nearest_lines offsets.now queries.now (length out.old)) }
    ensures written { out.new ≡ row_written (nearest_lines offsets.now queries.now (length out.old))
        offsets.now queries.now out.old }
{
    let answer = nearest_lines(offsets, queries, out);
    count_out(answer)
}
