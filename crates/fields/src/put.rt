// The field writer: fields go into a byte string, most significant bit first. A byte is stored once, when its eight bits are
// there, and what is not yet a byte stays with the pen.
ghost use Rattle.std.specs.Prelude.{◌^◌, ◌<◌};

use crate::widths;
use entry;
use entry::Entry;

// A pen: `at` bytes are finished, and `nb` bits, below eight, of value `acc` are not yet a byte.
#[derive(Clone, Copy)]
pub struct Pen {
    pub at: usize,
    pub acc: usize,
    pub nb: usize,
}

// A pen on the room that it writes.
#[derive(Drop)]
pub struct Sheet<'a> {
    pub out: &'a mut [u8],
    pub pen: Pen,
    pub ghost small: { pen.nb < 8 },
    pub ghost below: { pen.acc < 2 ^ pen.nb },
}

impl<'a> Sheet<'a> {
    ghost use Rattle.std.specs.Prelude.{[], ◌∷◌, ℕ, ◌+◌, ◌*◌, ◌≤◌, ◌<◌, ◌≡◌};
    ghost use Rattle.fields.specs.Bits.{field};
    ghost use Rattle.fields.specs.Layout.{header_fields, order_fields, entry_fields, entries_fields, row_fields, rows_fields};
    ghost use Rattle.fields.specs.Inner.{pen_bits, Ready, Put, Closed};
    ghost use Rattle.rows.specs.Inner.{RowLies};

    // A pen at the front of a room: nothing is written.
    pub fn new(out: &'a mut [u8]) -> Sheet<'a>
        ensures same_reference { result.out.ghost_name ≡ out.entry.ghost_name }
        ensures fresh { pen_bits result.pen ≡ 0 }
        ensures room { result.out.now ≡ out.old }
    {
        Sheet {
            out,
            pen: Pen {
                at: 0,
                acc: 0,
                nb: 0,
            },
        }
    }

    // Puts one field, byte by byte: the number stays whole, and the bits that are no byte yet are cut off it at the end.
    pub fn put(&mut self, value: usize, width: usize)
        requires { Ready self.old (field value width ∷ []) × (width ≤ 16) }
        ensures { Put self.old (field value width ∷ []) self.new }
    {
        let whole = (self.pen.acc << width) + value;
        let mut at = self.pen.at;
        let mut nb = self.pen.nb + width;
        // A byte goes for as long as eight bits are there: no range of numbers says this more plainly.
        while 8 <= nb {
            nb -= 8;
            self.out[at] = ((whole >> nb) % 256) as u8;
            at += 1;
        }
        self.pen = Pen {
            at,
            acc: whole & ((1 << nb) - 1),
            nb,
        };
    }

    // Puts one entry, its rank and its joins, as one number: three bytes are then whole, and as many bits wait as before.
    #[tactic(auto, unfolding(crate::specs::Bits::bit_len, crate::specs::Inner::Legal))]
    pub fn put_entry(&mut self, e: Entry)
        requires { Ready self.old (entry_fields e) }
        ensures { Put self.old (entry_fields e) self.new }
    {
        let Pen { at, acc, nb } = self.pen;
        let rank = entry::rank_of(e);
        let joins = entry::joins_of(e);
        let both = (rank << widths::JOINS_BITS) + joins;
        let whole = (acc << widths::ENTRY_BITS) + both;
        let [_, first, second, third] = ((whole >> nb) as u32).to_be_bytes();
        self.out[at] = first;
        self.out[at + 1] = second;
        self.out[at + 2] = third;
        self.pen = Pen {
            at: at + 3,
            acc: both & ((1 << nb) - 1),
            nb,
        };
    }

    // Puts the entries of a row.
    pub fn put_entries(&mut self, row: &[Entry])
        requires { Ready self.old (entries_fields row.now) }
        ensures { Put self.old (entries_fields row.now) self.new }
    {
        for e in row {
            self.put_entry(*e);
        }
    }

    // Puts the order: a field for each frame number.
    pub fn put_order(&mut self, order: &[u32])
        requires { Ready self.old (order_fields order.now) }
        ensures { Put self.old (order_fields order.now) self.new }
    {
        for frame in order {
            self.put(*frame as usize, widths::FRAME_BITS);
        }
    }

    // Puts the header: version, n - 1, k, spare.
    pub fn put_header(&mut self, n: usize, k: usize)
        requires { Ready self.old (header_fields n k) × (1 ≤ n) }
        ensures { Put self.old (header_fields n k) self.new }
    {
        self.put(widths::VERSION_VALUE, widths::VERSION_BITS);
        self.put(n - 1, widths::FRAMES_BITS);
        self.put(k, widths::STOP_BITS);
        self.put(0, widths::SPARE_BITS);
    }

    // Puts the row of frame v: its count, its entries.
    pub fn put_row(&mut self, w: usize, labels: &[Entry], counts: &[u32], v: usize)
        requires { Ready self.old (row_fields w labels.now counts.now v)
            × RowLies w labels.now counts.now v }
        ensures { Put self.old (row_fields w labels.now counts.now v) self.new }
    {
        let count = counts[v] as usize;
        let from = v * w;
        self.put(count, widths::COUNT_BITS);
        self.put_entries(&labels[from..from + count]);
    }

    // Puts the rows of all n frames.
    pub fn put_rows(&mut self, n: usize, w: usize, labels: &[Entry], counts: &[u32])
        requires { Ready self.old (rows_fields w labels.now counts.now 0 n)
            × ((v : ℕ) → v < n → RowLies w labels.now counts.now v) }
        ensures { Put self.old (rows_fields w labels.now counts.now 0 n) self.new }
    {
        for v in 0..n {
            self.put_row(w, labels, counts, v);
        }
    }

    // Fills the last byte up with zero bits.
    pub fn close(&mut self)
        requires { Ready self.old [] }
        ensures { Closed self.old self.new }
    {
        if 0 < self.pen.nb {
            self.out[self.pen.at] = (self.pen.acc << (8 - self.pen.nb)) as u8;
        }
    }
}
