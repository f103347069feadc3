ghost use Rattle.std.specs.Prelude.{◌≡◌, true, ◌≤◌, length};
ghost use Rattle.definition.specs.Text as Text;
ghost use Rattle.text_words.specs.Table.{Fitting};
// Runs a reader of bytes on a line: a letter, which says the reader, and the text that it is given.
// The answer is the values and the next place, or `!` and the number of the refusal.
// compare/leaves.py says how lines and answers were made.
use super::{put, space, write};
use definition::{Param, Refusal};
use std::io::Stdout;
use text_cursor::Reader;
use text_output::Sink;
use text_symbols::Parts;
use text_words::Words;

fn refused(to: Stdout, f: Refusal) {
    write(to, b"!");
    put(to, call_values::number(f));
}

fn show_number(to: Stdout, r: Result<usize, Refusal>, at: usize) {
    match r {
        Ok(n) => {
            put(to, n);
            space(to);
            put(to, at);
        }
        Err(f) => refused(to, f),
    }
}

fn show_param(to: Stdout, r: Result<Param, Refusal>, at: usize) {
    match r {
        Ok(p) => {
            put(to, p.depth);
            space(to);
            put(to, p.index);
            space(to);
            put(to, at);
        }
        Err(f) => refused(to, f),
    }
}

fn show_ill_formed(to: Stdout, r: Option<usize>) {
    match r {
        Some(i) => put(to, i),
        None => {
            write(to, b"well-formed");
        }
    }
}

fn show_symbol(to: Stdout, r: Option<Parts>) {
    match r {
        Some(Parts { start, end }) => {
            put(to, start);
            space(to);
            put(to, end);
        }
        None => {
            write(to, b"no symbol");
        }
    }
}

fn show_place(to: Stdout, at: usize, count: usize) {
    put(to, at);
    space(to);
    put(to, count);
    space(to);
}

// Identifiers one after another: the place after each, and how many words are then known.
fn identifiers(to: Stdout, text: &[u8], at: usize, w: Words)
    requires { (length text.now ≤ 65535) × Fitting text.now w × (Text.well_formed text.now ≡ true) }
{
    if text.len() <= at {
        return;
    }
    let mut reader = Reader { text, at };
    let mut known = w;
    match text_identifiers::identifier(&mut reader, &mut known) {
        Ok(()) => {
            show_place(to, reader.at, known.len());
            identifiers(to, text, reader.at, known);
        }
        Err(f) => refused(to, f),
    }
}

// The same, with the words as a count.
fn counted(to: Stdout, text: &[u8], at: usize, count: usize)
    requires { (length text.now ≤ 65535) × (Text.well_formed text.now ≡ true) }
{
    if text.len() <= at {
        return;
    }
    let mut reader = Reader { text, at };
    let mut known = count;
    match text_identifiers::identifier_count(&mut reader, &mut known) {
        Ok(()) => {
            show_place(to, reader.at, known);
            counted(to, text, reader.at, known);
        }
        Err(f) => refused(to, f),
    }
}

// The first n bytes, where there are so many.
fn show_first(to: Stdout, bytes: &[u8], n: usize) {
    if let Some(first) = bytes.get(..n) {
        write(to, first);
    }
}

// A name spelled again from its offset: its length, and its bytes in brackets.
fn show_name(to: Stdout, out: &mut [u8], text: &[u8], at: usize, w: Words)
    requires { (length text.now ≤ 65535) × Fitting text.now w }
{
    put(to, text_spelling::name_length(text, at, &w));
    let room = out.len();
    let mut sink = Sink { out, at: 0, room };
    text_spelling::put_name(&mut sink, text, at, &w);
    let end = sink.at;
    write(to, b"[");
    show_first(to, out, end);
    write(to, b"]");
}

// Room for a name.
fn name_room() -> [u8; 4096]
    ensures { 4096 ≡ length result }
{
    [0; 4096]
}

// The name of each identifier, spelled with the words that are known after it.
fn spelled(to: Stdout, text: &[u8], at: usize, w: Words)
    requires { (length text.now ≤ 65535) × Fitting text.now w × (Text.well_formed text.now ≡ true) }
{
    if text.len() <= at {
        return;
    }
    let mut reader = Reader { text, at };
    let mut known = w;
    match text_identifiers::identifier(&mut reader, &mut known) {
        Ok(()) => {
            let mut out = name_room();
            show_name(to, &mut out, text, at, known);
            spelled(to, text, reader.at, known);
        }
        Err(f) => refused(to, f),
    }
}

// The readers of identifiers take a text that is well-formed. 4: it is not.
fn run_words(to: Stdout, c: u8, text: &[u8]) {
    if 65535 < text.len() {
        return;
    }
    match text_utf8::ill_formed(text) {
        Some(_) => refused(to, Refusal::Encoding),
        None => match c {
            b'w' => identifiers(to, text, 0, Words::new()),
            b'p' => spelled(to, text, 0, Words::new()),
            _ => counted(to, text, 0, 0),
        },
    }
}

// One line: the letter c, and the text.
fn run(to: Stdout, c: u8, text: &[u8]) {
    let mut reader = Reader { text, at: 0 };
    match c {
        b'n' => {
            let n = reader.natural();
            show_number(to, n, reader.at);
        }
        b'i' => {
            let i = reader.index();
            show_number(to, i, reader.at);
        }
        b'j' => {
            let i = reader.index_plus_one();
            show_number(to, i, reader.at);
        }
        b'g' => {
            let p = reader.generic_param_index();
            show_param(to, p, reader.at);
        }
        b'u' => show_ill_formed(to, text_utf8::ill_formed(text)),
        b's' => show_symbol(to, text_symbols::split(text)),
        b'w' | b'p' | b'c' => run_words(to, c, text),
        _ => {
            write(to, b"?");
        }
    }
}

pub fn answer(to: Stdout, line: &[u8]) {
    if let Some((c, text)) = line.split_first() {
        run(to, *c, text);
    }
}
