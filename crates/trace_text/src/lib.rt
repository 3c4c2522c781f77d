// The lines of a listing, each written over a lent slice from a place on: all of it, answering the place behind it, or, where there is no
// room for all, nothing. No public function asks anything of its caller. The slice and the place stay two parameters: a caller keeps the place
// from one call to the next, and the definitions speak of both.
#![tactic(auto)]

ghost use Rattle.std.specs.Prelude.{◌≡◌, ◌+◌, ◌≤◌, [], ◌∷◌, ◌++◌, length};
ghost use Rattle.encoding.specs.Text.{written, place_behind, decimal};
ghost use Rattle.trace_text.specs.Text.{figure, header, row, refused, line};

use encoding::{bits_of, decimal_digits, hex_digits, put_bytes};

// No line is longer: a row has two numbers of at most ten digits, three figures of eight, four spaces and a line feed.
pub const LONGEST_LINE: usize = 49;

// The first line of a listing.
pub fn put_header(out: &mut [u8], at: usize) -> Option<usize>
    ensures out_after { out.new ≡ written out.old at header }
    ensures value { result ≡ place_behind out.old at header }
{
    put_bytes(out, at, b"block channel plain compensated uncapped\n")
}

// A line that is made piece by piece at the front of a table, so that nothing is written where it finds no room. Its end stands beside the
// table, and its pieces are no `write!`: of the library's forms without heap both were tried, and in place of the 177 instructions that a row
// takes an `ArrayVec` took 507, and `write!` into an `ArrayString` 1,026.
#[derive(Drop)]
struct Line {
    table: [u8; LONGEST_LINE],
    end: usize,
    ghost within: { end ≤ 49 },
}

impl Line {
    ghost use Rattle.trace_text.specs.Line.{said};

    fn new() -> Self
        ensures text { said result ≡ [] }
        ensures end { result.end ≡ 0 }
    {
        Line {
            table: [0; LONGEST_LINE],
            end: 0,
        }
    }

    fn put_text(&mut self, text: &[u8])
        requires { self.old.end + length text.now ≤ 49 }
        ensures text { said self.new ≡ said self.old ++ text.now }
        ensures end { self.new.end ≡ self.old.end + length text.now }
    {
        let end = self.end + text.len();
        self.table[self.end..end].copy_from_slice(text);
        self.end = end;
    }

    fn put_number(&mut self, n: u32)
        requires { self.old.end + 10 ≤ 49 }
        ensures text { said self.new ≡ said self.old ++ decimal n }
        ensures end { self.new.end ≤ self.old.end + 10 }
    {
        self.put_text(decimal_digits(&mut [0; 10], n));
    }

    // A space and a figure.
    fn put_figure(&mut self, value: f32)
        requires { self.old.end + 9 ≤ 49 }
        ensures text { said self.new ≡ said self.old ++ (32 ∷ figure value) }
        ensures end { self.new.end ≡ self.old.end + 9 }
    {
        self.put_text(b" ");
        self.put_text(&hex_digits(bits_of(value)));
    }

    // Writes it over a slice.
    fn put(&self, out: &mut [u8], at: usize) -> Option<usize>
        ensures out_after { out.new ≡ written out.old at (said self.now) }
        ensures value { result ≡ place_behind out.old at (said self.now) }
    {
        put_bytes(out, at, &self.table[..self.end])
    }
}

// What a row shows of a channel.
#[derive(Clone, Copy, Debug, PartialEq)]
pub struct ChannelFigures {
    pub plain: f32,
    pub compensated: f32,
    pub uncapped: f32,
}

// The line of a channel after a block.
pub fn put_row(
    out: &mut [u8],
    at: usize,
    block: u32,
    channel: u32,
    figures: ChannelFigures,
) -> Option<usize>
    ensures out_after { out.new ≡ written out.old at (line (row block channel figures.plain figures.compensated figures.uncapped)) }
    ensures value { result ≡ place_behind out.old at (line (row block channel figures.plain figures.compensated figures.uncapped)) }
{
    let mut line = Line::new();
    line.put_number(block);
    line.put_text(b" ");
    line.put_number(channel);
    line.put_figure(figures.plain);
    line.put_figure(figures.compensated);
    line.put_figure(figures.uncapped);
    line.put_text(b"\n");
    line.put(out, at)
}

// The line of a record that is refused.
pub fn put_refused(out: &mut [u8], at: usize, number: u32, record_number: u32) -> Option<usize>
    ensures out_after { out.new ≡ written out.old at (line (refused number record_number)) }
    ensures value { result ≡ place_behind out.old at (line (refused number record_number)) }
{
    let mut line = Line::new();
    line.put_text(b"refused ");
    line.put_number(number);
    line.put_text(b" at ");
    line.put_number(record_number);
    line.put_text(b"\n");
    line.put(out, at)
}
