// What is printed from, and its records.
ghost use Rattle.std.specs.Prelude.{◌≡◌, ◌+◌, ◌*◌, ◌^◌, ◌≤◌, ◌<◌, length};
ghost use Rattle.text_words.specs.Table.{Fitting};
ghost use Rattle.tree_records.specs.Lies.{at};
ghost use Rattle.print_names.specs.Texts.{wide_at};

use text_words::Words;

// What is printed from: trees as records, the text that has their names, and its words.
// Kept: that the record at a place is inside `ws`, what is stored there (`Prints`, `Printing`,
// `Listed`, `Celled`), and that labels are inside (`Reach`) are clauses of the printer's functions.
// A struct of a source and a place with a ghost field was tried: the printer took 17% more
// instructions (callgrind, the module that `rt try` compiles, 1,826 lines), since each call stores
// and reads two words more.
#[derive(Clone, Copy)]
pub struct Source<'a> {
    pub text: &'a [u8],
    pub words: &'a Words,
    pub ws: &'a [u32],
    pub ghost short: { length text.now ≤ 65535 },
    pub ghost fitting: { Fitting text.now words.now },
}

// Returns a number of the record at a place.
pub fn get(ws: &[u32], place: usize, k: usize) -> usize
    requires { (8 * place + 8 ≤ length ws.now) × (k < 8) }
    ensures { (result ≡ at ws.now place k) × (result < 2 ^ 32) }
{
    ws[8 * place + k] as usize
}

// Returns the number of 64 bits in two fields, the lower half first.
pub fn get_wide(ws: &[u32], place: usize, k: usize) -> usize
    requires { (8 * place + 8 ≤ length ws.now) × (k < 7) }
    ensures { result ≡ wide_at ws.now place k }
{
    get(ws, place, k) + 4294967296 * get(ws, place, k + 1)
}

impl Source<'_> {
    // The same, of the workspace that is printed from.
    pub fn field(&self, place: usize, k: usize) -> usize
        requires { (8 * place + 8 ≤ length self.now.ws.now) × (k < 8) }
        ensures { (result ≡ at self.now.ws.now place k) × (result < 2 ^ 32) }
    {
        get(self.ws, place, k)
    }

    pub fn wide(&self, place: usize, k: usize) -> usize
        requires { (8 * place + 8 ≤ length self.now.ws.now) × (k < 7) }
        ensures { result ≡ wide_at self.now.ws.now place k }
    {
        get_wide(self.ws, place, k)
    }
}
