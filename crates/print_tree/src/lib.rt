// The printer of trees that are stored as records in a workspace. One set of functions both
// measures and writes. The text of a record is a row of pieces, one after another: fixed texts,
// names, children, lists, and pieces that depend on numbers in the record. `print` looks up the row
// by the form of the record and appends its pieces. specs/RowTexts.antt of `print_labels` says what
// each code represents.
#![tactic(auto)]

ghost use Rattle.std.specs.Prelude.{◌≡◌, true, false, ◌+◌, ◌*◌, ◌≤◌, ◌<◌, ◌^◌, length};
ghost use Rattle.text_output.specs.Appends.{Appended};
ghost use Rattle.text_output.specs.Sink.{Room, Wrote};
ghost use Rattle.tree_records.specs.Lies.{at as field_of};
ghost use Rattle.print_names.specs.Texts.{number_of};
ghost use Rattle.print_names.specs.Naming.{Puts, Some, naming_of};
ghost use Rattle.print_labels.specs.RowTexts.{Reach, Prints, params_way, behind_way, signed_way, Printing, Listed, Celled, leaf_text, list_field, list_shown, list_count, init_name, Plain};
ghost use Rattle.print_tree.specs.Prints.{sep_text, Placed, Shows, Suffixed, Rendered};

use machine::kinds::Kind;
use operator_names::Text;
use print_forms::row_of;
use print_labels::{ABSENT, Labels, own_label, put_label};
use print_names::fields::{
    ALLOCATING, ARGUMENT_COUNT, ARGUMENTS, ASYNC, CONTEXT, COUNT, DEPTH, ELEMENT, ELEMENTS, INDEX,
    INNER, KIND, NAME, NEXT, NUMBER, PARAM_COUNT, PARAMS, QUALIFIER, REQUIREMENT_COUNT,
    REQUIREMENTS, RESULT, SIGNATURE, THROWS, TYPE, VARIABLE,
};
use print_names::{
    Source, put_effects, put_named, put_numbered, put_param_names, put_sep, put_suspend_resume,
    put_text,
};
use print_numerals::generic_param_name;
use text_output::Sink;

// The codes of pieces: the name in a field, 8 and the field; the child in a field, 16 and the
// field; those that depend on numbers only; lists; the type and the parameters of a function; a
// fixed text, 64 and its number. A code of 128 and another code is that piece of the record in
// field 4.
const NAMES: usize = 8;

const CHILDREN: usize = 16;

const EFFECTS: usize = 24;

const PARAM_NAMES: usize = 25;

const PARAM_NAME: usize = 26;

const INIT_NAME: usize = 27;

const TUPLE: usize = 32;

const MEMBERS: usize = 33;

const REQUIRED: usize = 34;

const QUALIFIED: usize = 35;

const ARGUED: usize = 36;

const SIGNED: usize = 40;

const TEXTS: usize = 64;

const VIA: usize = 128;

// A row is a number whose digits in this base are codes.
const CODES: usize = 256;

// The cells of a list: how many, the field that has the place of the first, the text between
// them, and whether labels are shown.
// Kept: `shown` is a fact of every list, and no flag that says whether the others hold.
#[derive(Clone, Copy)]
struct ListForm {
    field: usize,
    count: usize,
    sep: Text,
    shown: bool,
}

// PIECES THAT DEPEND ON NUMBERS

// Appends the name of an initializer: another one if it allocates an object of a class.
fn put_init_name(out: &mut Sink, from: &Source, place: usize)
    requires inside { 8 * place + 8 ≤ length from.now.ws.now }
    requires context { field_of from.now.ws.now place 4 < place }
    ensures { Appended out.old out.new (init_name from.now.ws.now place) }
{
    let allocating = from.field(place, ALLOCATING);
    if allocating != 1 {
        put_text(out, Text::Init);
        return;
    }
    let context = from.field(place, CONTEXT);
    let kind = from.field(context, KIND);
    if kind != Kind::Class as usize {
        put_text(out, Text::Init);
        return;
    }
    put_text(out, Text::AllocatingInit);
}

// Appends the effects of a function type.
fn put_effects_of(out: &mut Sink, from: &Source, place: usize)
    requires inside { 8 * place + 8 ≤ length from.now.ws.now }
    ensures { Appended out.old out.new (leaf_text from.now.ws.now place 24) }
{
    let throws = from.field(place, THROWS);
    let asynchronous = from.field(place, ASYNC);
    put_effects(out, throws == 1, asynchronous == 1);
}

// Appends a piece that depends on numbers only.
fn put_leaf(out: &mut Sink, from: &Source, place: usize, code: usize)
    requires inside { 8 * place + 8 ≤ length from.now.ws.now }
    requires context { code ≡ 27 → field_of from.now.ws.now place 4 < place }
    ensures { Appended out.old out.new (leaf_text from.now.ws.now place code) }
{
    match code {
        EFFECTS => put_effects_of(out, from, place),
        PARAM_NAMES => put_param_names(out, from.wide(place, PARAM_COUNT)),
        PARAM_NAME => generic_param_name(out, from.wide(place, DEPTH), from.wide(place, INDEX)),
        INIT_NAME => put_init_name(out, from, place),
        _ => put_suspend_resume(out, from.wide(place, NUMBER)),
    }
}

// Returns the list of a piece that is a list.
fn list_form(from: &Source, place: usize, code: usize) -> ListForm
    requires inside { 8 * place + 8 ≤ length from.now.ws.now }
    requires le_code { (32 ≤ code) × (code < 38) }
    ensures { (result ≡ record { field = list_field code; count = list_count from.now.ws.now place code; sep = sep_text code; shown = list_shown code }) × (result.count < 2 ^ 32) }
{
    match code {
        TUPLE => ListForm {
            field: ELEMENTS,
            count: from.field(place, COUNT),
            sep: Text::Comma,
            shown: true,
        },
        MEMBERS => ListForm {
            field: ELEMENTS,
            count: from.field(place, COUNT),
            sep: Text::Ampersand,
            shown: false,
        },
        REQUIRED => ListForm {
            field: REQUIREMENTS,
            count: from.field(place, REQUIREMENT_COUNT),
            sep: Text::Comma,
            shown: false,
        },
        QUALIFIED => ListForm {
            field: QUALIFIER,
            count: 1,
            sep: Text::Comma,
            shown: false,
        },
        ARGUED => ListForm {
            field: ARGUMENTS,
            count: from.field(place, ARGUMENT_COUNT),
            sep: Text::Comma,
            shown: false,
        },
        _ => ListForm {
            field: ARGUMENTS,
            count: from.field(place, ARGUMENT_COUNT),
            sep: Text::SpacedColon,
            shown: false,
        },
    }
}

// THE PRINTER

// Returns the place of the record that a piece belongs to: the record itself, or, from a code on,
// the one in field 4.
fn place_of(from: &Source, place: usize, code: usize) -> usize
    requires { 8 * place + 8 ≤ length from.now.ws.now }
    ensures { Placed from.now.ws.now place code result }
{
    if code < VIA {
        return place;
    }
    from.field(place, VARIABLE)
}

// Appends the text of a tree.
#[cycle(printing)]
pub fn print(out: &mut Sink, from: &Source, place: usize)
    requires inside { 8 * place + 8 ≤ length from.now.ws.now }
    requires some { Some (Prints (naming_of from.now) from.now.ws.now place) }
    ensures { Puts (Prints (naming_of from.now) from.now.ws.now place) out.old out.new }
{
    let mut row = row_of(from, place);
    // Kept: the digits of a number, taken one by one; an iterator over them would be a type for one
    // loop.
    while row != 0 {
        if out.is_past() {
            return;
        }
        let code = row % CODES;
        let owner = place_of(from, place, code);
        print_plain(out, from, owner, code % VIA);
        row /= CODES;
    }
}

// Appends a piece of a record.
#[cycle(printing)]
fn print_plain(out: &mut Sink, from: &Source, place: usize, code: usize)
    requires inside { 8 * place + 8 ≤ length from.now.ws.now }
    requires some { Some (Plain (naming_of from.now) from.now.ws.now place code) }
    ensures { Puts (Plain (naming_of from.now) from.now.ws.now place code) out.old out.new }
{
    if TEXTS <= code {
        put_numbered(out, code - TEXTS);
        return;
    }
    if code < CHILDREN {
        let name = from.field(place, code - NAMES);
        put_named(out, from, name);
        return;
    }
    if code < EFFECTS {
        let child = from.field(place, code - CHILDREN);
        let kind = from.field(child, KIND);
        // An identifier or a module is only its name.
        if kind <= Kind::Module as usize {
            let name = from.field(child, NAME);
            put_named(out, from, name);
            return;
        }
        print(out, from, child);
        return;
    }
    if code < TUPLE {
        put_leaf(out, from, place, code);
        return;
    }
    if code < SIGNED {
        let list = list_form(from, place, code);
        let labels = Labels::none(place);
        print_cells(out, from, place, list, labels);
        return;
    }
    if code == SIGNED {
        let labels = Labels::of(from.ws, place);
        let child = from.field(place, TYPE);
        print_signed(out, from, child, labels);
        return;
    }
    let labels = Labels::none(place);
    let child = from.field(place, PARAMS);
    print_params(out, from, child, labels);
}

// Appends the elements of a list of a record.
#[cycle(printing)]
fn print_cells(out: &mut Sink, from: &Source, place: usize, list: ListForm, labels: Labels)
    requires inside { 8 * place + 8 ≤ length from.now.ws.now }
    requires field_bound { (list.field < 8) × (list.count < 2 ^ 32) }
    requires reach { Reach from.now.ws.now labels }
    requires some { Some (Listed (naming_of from.now) from.now.ws.now place list.field list.count 0 (number_of list.sep) list.shown labels) }
    ensures { Puts (Listed (naming_of from.now) from.now.ws.now place list.field list.count 0 (number_of list.sep) list.shown labels) out.old out.new }
{
    let mut host = place;
    let mut field = list.field;
    let mut left = labels;
    for i in 0..list.count {
        if out.is_past() {
            return;
        }
        let cell = from.field(host, field);
        print_cell(out, from, cell, i, list.sep, list.shown, left);
        left = left.next(from.ws);
        host = cell;
        field = NEXT;
    }
}

// Appends the element in a cell, preceded by the separator and its label.
#[cycle(printing)]
fn print_cell(
    out: &mut Sink,
    from: &Source,
    place: usize,
    i: usize,
    sep: Text,
    shown: bool,
    labels: Labels,
)
    requires inside { 8 * place + 8 ≤ length from.now.ws.now }
    requires reach { Reach from.now.ws.now labels }
    requires some { Some (Celled (naming_of from.now) from.now.ws.now place i (number_of sep) shown labels) }
    ensures { Puts (Celled (naming_of from.now) from.now.ws.now place i (number_of sep) shown labels) out.old out.new }
{
    put_sep(out, i, sep);
    let own = own_label(from.ws, place, shown);
    put_label(out, from, own, labels);
    let element = from.field(place, ELEMENT);
    print(out, from, element);
}

// Appends the parameters of a function in parentheses, with its labels.
#[cycle(printing)]
fn print_params(out: &mut Sink, from: &Source, place: usize, labels: Labels)
    requires inside { 8 * place + 8 ≤ length from.now.ws.now }
    requires reach { Reach from.now.ws.now labels }
    requires some { Some (Printing params_way (naming_of from.now) from.now.ws.now place labels) }
    ensures { Puts (Printing params_way (naming_of from.now) from.now.ws.now place labels) out.old out.new }
{
    let kind = from.field(place, KIND);
    if kind == Kind::EmptyList as usize {
        put_text(out, Text::EmptyTuple);
        return;
    }
    put_text(out, Text::OpenParenthesis);
    if kind == Kind::Tuple as usize {
        let list = list_form(from, place, TUPLE);
        print_cells(out, from, place, list, labels);
        put_text(out, Text::CloseParenthesis);
        return;
    }
    put_label(out, from, ABSENT, labels);
    print(out, from, place);
    put_text(out, Text::CloseParenthesis);
}

// Appends the type of a function or initializer after its name. A signature is first, if there is
// one.
#[cycle(printing)]
fn print_signed(out: &mut Sink, from: &Source, place: usize, labels: Labels)
    requires inside { 8 * place + 8 ≤ length from.now.ws.now }
    requires reach { Reach from.now.ws.now labels }
    requires some { Some (Printing signed_way (naming_of from.now) from.now.ws.now place labels) }
    ensures { Puts (Printing signed_way (naming_of from.now) from.now.ws.now place labels) out.old out.new }
{
    let kind = from.field(place, KIND);
    if kind == Kind::GenericType as usize {
        let signature = from.field(place, SIGNATURE);
        let inner = from.field(place, INNER);
        print(out, from, signature);
        print_behind(out, from, inner, labels);
        return;
    }
    print_behind(out, from, place, labels);
}

// Appends the type of a function or initializer after its name and signature.
#[cycle(printing)]
fn print_behind(out: &mut Sink, from: &Source, place: usize, labels: Labels)
    requires inside { 8 * place + 8 ≤ length from.now.ws.now }
    requires reach { Reach from.now.ws.now labels }
    requires some { Some (Printing behind_way (naming_of from.now) from.now.ws.now place labels) }
    ensures { Puts (Printing behind_way (naming_of from.now) from.now.ws.now place labels) out.old out.new }
{
    let kind = from.field(place, KIND);
    if kind == Kind::FunctionType as usize {
        let params = from.field(place, PARAMS);
        let returned = from.field(place, RESULT);
        print_params(out, from, params, labels);
        put_effects_of(out, from, place);
        put_text(out, Text::Arrow);
        print(out, from, returned);
        return;
    }
    put_text(out, Text::SpacedColon);
    print(out, from, place);
}

// RENDERING

// Appends the text of a tree, followed by the suffix, if there is one.
fn print_whole(out: &mut Sink, from: &Source, place: usize, suffix: &[u8])
    requires inside { 8 * place + 8 ≤ length from.now.ws.now }
    requires some { Some (Prints (naming_of from.now) from.now.ws.now place) }
    ensures { Puts (Suffixed (naming_of from.now) from.now.ws.now place suffix.now) out.old out.new }
{
    print(out, from, place);
    if suffix.len() == 0 {
        return;
    }
    put_text(out, Text::UnmangledSuffix);
    out.put(suffix);
    put_text(out, Text::Quote);
}

// Prints into a slice, where there is room for so many bytes, and returns the length of the text.
fn printed(out: &mut [u8], room: usize, from: &Source, place: usize, suffix: &[u8]) -> usize
    requires inside { 8 * place + 8 ≤ length from.now.ws.now }
    requires fits { Room room out.old 0 }
    requires some { Some (Prints (naming_of from.now) from.now.ws.now place) }
    ensures { Shows (Suffixed (naming_of from.now) from.now.ws.now place suffix.now) room out.old out.new result }
{
    let mut sink = Sink { out, at: 0, room };
    print_whole(&mut sink, from, place, suffix);
    sink.at
}

// Copies a text to the front of a slice that has room for it, and returns its length.
fn copied(out: &mut [u8], text: &[u8]) -> usize
    requires { (length text.now ≤ length out.old) × (length out.old < 2 ^ 63) }
    ensures { Wrote (length out.old) out.old out.new 0 text.now result }
{
    let room = out.len();
    let mut sink = Sink { out, at: 0, room };
    sink.put(text);
    sink.at
}

// The longest text that is printed into an array first.
const SMALL: usize = 512;

// Writes the text of a tree to the front of out, followed by the suffix, and returns
// its length. If out has no room for both, it returns one more than the length of out, and out is
// unchanged. A text of up to 512 bytes is printed once, into an array, and copied from there. A
// longer one is measured first.
pub fn render(out: &mut [u8], from: &Source, place: usize, suffix: &[u8]) -> usize
    requires inside { 8 * place + 8 ≤ length from.now.ws.now }
    requires some { Some (Prints (naming_of from.now) from.now.ws.now place) }
    ensures { Rendered (naming_of from.now) from.now.ws.now place suffix.now out.old out.new result }
{
    let room = out.len();
    let mut small = [0; SMALL];
    let m = printed(&mut small, SMALL, from, place, suffix);
    if m <= SMALL {
        if room < m {
            return room + 1;
        }
        return copied(out, &small[0..m]);
    }
    let n = printed(&mut out[..0], room, from, place, suffix);
    if room < n {
        return n;
    }
    printed(out, room, from, place, suffix)
}
