// The labels that the printer shows before arguments.
#![tactic(auto)]

ghost use Rattle.std.specs.Prelude.{◌≡◌, ◌+◌, ◌*◌, ◌≤◌, length};
ghost use Rattle.tree_records.specs.Holds.{Named};
ghost use Rattle.print_names.specs.Naming.{Puts, Some, naming_of};
ghost use Rattle.print_labels.specs.RowTexts.{Reach, SomeLabels, none_at, labels_at, NextLabels, NamedLabel, Labelling, own_label};

use operator_names::Text;
use print_names::fields::{LABEL, LABEL_COUNT, LABELS, NEXT};
use print_names::source::get;
use print_names::{Source, put_named, put_text};
use text_output::Sink;
use tree_records::Record;

// The number that stands for no label.
pub const ABSENT: usize = Record::NO_LABEL as usize;

// The labels of a function that are still to be used: how many cells, and the field of the record
// at host that has the place of the first.
#[derive(Clone, Copy)]
pub struct Labels {
    host: usize,
    field: usize,
    left: usize,
}

impl Labels {
    // The labels of the function or initializer at a place.
    pub fn of(ws: &[u32], place: usize) -> Labels
        requires { 8 * place + 8 ≤ length ws.now }
        ensures { result ≡ labels_at ws.now place }
    {
        Labels {
            host: place,
            field: LABELS,
            left: get(ws, place, LABEL_COUNT).saturating_sub(1),
        }
    }

    // No labels, of the record at any place.
    // Kept: it looks like other functions that fill a struct in, and shares nothing with them.
    pub fn none(place: usize) -> Labels
        ensures { result ≡ none_at place }
    {
        Labels {
            host: place,
            field: LABELS,
            left: 0,
        }
    }

    // Returns the labels after the first.
    pub fn next(self, ws: &[u32]) -> Labels
        requires { SomeLabels ws.now self }
        ensures { NextLabels ws.now self result }
    {
        if self.left == 0 {
            return self;
        }
        Labels {
            host: get(ws, self.host, self.field),
            field: NEXT,
            left: self.left - 1,
        }
    }
}

// The label in the cell at a place, if labels are shown.
pub fn own_label(ws: &[u32], place: usize, shown: bool) -> usize
    requires { 8 * place + 8 ≤ length ws.now }
    ensures { result ≡ own_label ws.now place shown }
{
    if shown { get(ws, place, LABEL) } else { ABSENT }
}

// Appends a label and `: `.
fn put_named_label(out: &mut Sink, from: &Source, k: usize)
    requires some { Some (Named (naming_of from.now) k) }
    ensures { Puts (NamedLabel (naming_of from.now) k) out.old out.new }
{
    put_named(out, from, k);
    put_text(out, Text::Colon);
}

// Appends the label of a parameter and `: `. This is the first of the labels, `_` where it is the
// marker, or otherwise the parameter's own label, if there is one.
pub fn put_label(out: &mut Sink, from: &Source, own: usize, l: Labels)
    requires reach { Reach from.now.ws.now l }
    requires some { Some (Labelling (naming_of from.now) from.now.ws.now own l) }
    ensures { Puts (Labelling (naming_of from.now) from.now.ws.now own l) out.old out.new }
{
    if l.left == 0 {
        if own != ABSENT {
            put_named_label(out, from, own);
        }
        return;
    }
    let cell = from.field(l.host, l.field);
    let label = from.field(cell, LABEL);
    if label == ABSENT {
        put_text(out, Text::Underscore);
        put_text(out, Text::Colon);
        return;
    }
    put_named_label(out, from, label);
}
