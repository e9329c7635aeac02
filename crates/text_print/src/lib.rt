// The answer text (document 01): numbers, keyed lines and the rows of a grid, put into the caller's bytes from a place on.
// The two public functions take a place and answer the one after what they put: it is their signature, which may not change.
#![tactic(auto)]

ghost use Rattle.std.specs.Prelude.{◌≡◌, ℕ, List, [], ◌∷◌, ◌+◌, ◌*◌, ◌/◌, ◌≤◌, ◌<◌, length};
ghost use Rattle.scheme.specs.Text.{first_two, analysis_text};
ghost use Rattle.scheme.specs.Text.Pieces.{ascii, mark};
ghost use Rattle.scheme.specs.Text.Printed.{decimal, integer, cells, keyed, grid_lines};
ghost use Rattle.scheme.specs.Promises.{slices};
ghost use Rattle.text_print.specs.Written.{Written};
ghost use Rattle.text_print.specs.Puts.{HasRoom, Puts};

// A number that a line says, with its text. The digits are written here: printing into lent bytes with room for them cannot fail, and no crate
// but std is trusted.
trait Number: Copy {
    ghost text: { Self → List ℕ };

    fn put(self, writer: &mut Writer)
        requires { HasRoom writer.old (text self) }
        ensures { Puts writer.old (text self) writer.new };
}

impl Number for u32 {
    ghost text = { decimal };

    fn put(self, writer: &mut Writer) {
        writer.put_decimal(self);
    }
}

impl Number for u8 {
    ghost text = { decimal };

    fn put(self, writer: &mut Writer) {
        writer.put_decimal(u32::from(self));
    }
}

impl Number for i32 {
    ghost text = { integer };

    fn put(self, writer: &mut Writer) {
        if self < 0 {
            writer.put_byte(b'-');
        }
        writer.put_decimal(self.unsigned_abs());
    }
}

// What follows a value that has so many after it. text_lines has the same line: what reading and printing share is the definition, and no crate.
// The edit comma_last stands in this one.
fn mark_of(more: usize) -> u8
    ensures { result ≡ mark more }
{
    if more == 0 { b'\n' } else { b',' }
}

// The caller's bytes, and the place in them where the next text goes.
#[derive(Drop)]
struct Writer<'a> {
    out: &'a mut [u8],
    at: usize,
}

impl Writer<'_> {
    fn put(&mut self, text: &[u8])
        requires { HasRoom self.old text.now }
        ensures { Puts self.old text.now self.new }
    {
        let end = self.at + text.len();
        self.out[self.at..end].copy_from_slice(text);
        self.at = end;
    }

    fn put_byte(&mut self, byte: u8)
        requires { HasRoom self.old (byte ∷ []) }
        ensures { Puts self.old (byte ∷ []) self.new }
    {
        self.out[self.at] = byte;
        self.at += 1;
    }

    // n in decimal, the last digit last.
    #[tactic(auto, using(scheme::proofs::Decimals::decimal_one))]
    fn put_digits(&mut self, n: u32)
        requires { HasRoom self.old (decimal n) }
        ensures { Puts self.old (decimal n) self.new }
    {
        if n < 10 {
            self.put_byte(b'0' + n as u8);
        } else {
            self.put_digits(n / 10);
            self.put_byte(b'0' + (n % 10) as u8);
        }
    }

    // The same. A number of one digit, as most supports and verdicts are, is put in place, with no call.
    #[tactic(auto, using(scheme::proofs::Decimals::decimal_one))]
    fn put_decimal(&mut self, n: u32)
        requires { HasRoom self.old (decimal n) }
        ensures { Puts self.old (decimal n) self.new }
    {
        if n < 10 {
            self.put_byte(b'0' + n as u8);
        } else {
            self.put_digits(n);
        }
    }

    // The values of a row, each with what follows it.
    fn put_cells<N: Number>(&mut self, row: &[N])
        requires { HasRoom self.old (cells N.text row.now) }
        ensures { Puts self.old (cells N.text row.now) self.new }
    {
        for (k, n) in row.iter().enumerate() {
            n.put(self);
            self.put_byte(mark_of(row.len() - 1 - k));
        }
    }

    // A line: its key and a row. With no values, the line feed follows the key.
    fn put_line<N: Number>(&mut self, key: &[u8], row: &[N])
        requires { HasRoom self.old (keyed key.now N.text row.now) }
        ensures { Puts self.old (keyed key.now N.text row.now) self.new }
    {
        self.put(key);
        if row.is_empty() {
            self.put_byte(b'\n');
        } else {
            self.put_cells(row);
        }
    }

    // The rows of a grid nx wide, each as a line.
    fn put_lines<N: Number>(&mut self, key: &[u8], nx: usize, grid: &[N])
        requires width { 0 < nx }
        requires room { HasRoom self.old (grid_lines key.now N.text nx (length grid.now / nx) grid.now) }
        ensures { Puts self.old (grid_lines key.now N.text nx (length grid.now / nx) grid.now) self.new }
    {
        for row in grid.chunks_exact(nx) {
            self.put_line(key, row);
        }
    }

    fn put_first_two(&mut self, number: u32, place: u32)
        requires { HasRoom self.old (first_two number place) }
        ensures { Puts self.old (first_two number place) self.new }
    {
        self.put_line(b"refusal=", &[number]);
        self.put_line(b"place=", &[place]);
    }
}

// The first two lines, which a refusal prints alone.
pub fn first_two(out: &mut [u8], at: usize, number: u32, place: u32) -> usize
    requires { at + length (first_two number place) ≤ length out.old }
    ensures { Written out.old at (first_two number place) out.new result }
{
    let mut answer = Writer { out, at };
    answer.put_first_two(number, place);
    answer.at
}

// The whole answer to a request that was analysed. Its rows end with the values, so `ny` stands in the contract alone.
pub fn analysis_text(
    out: &mut [u8],
    at: usize,
    nx: usize,
    ny: usize,
    grid: &[i32],
    support: &[u8],
    verdict: &[u8],
) -> usize
    requires { (0 < nx) × (ny * nx ≡ length grid.now) × (ny * nx ≡ length support.now) × (at + length (analysis_text nx ny (slices grid.now support.now verdict.now)) ≤ length out.old) }
    ensures { Written out.old at (analysis_text nx ny (slices grid.now support.now verdict.now)) out.new result }
{
    let mut answer = Writer { out, at };
    answer.put_first_two(0, 0);
    answer.put_lines(b"row=", nx, grid);
    answer.put_lines(b"sup=", nx, support);
    answer.put_line(b"ver=", verdict);
    answer.at
}
