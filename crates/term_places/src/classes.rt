// Labels of places: places with one label hold equal terms, and settled places with different labels hold different ones.
ghost use Rattle.std.specs.Prelude.{◌≡◌, ◌≤◌, length};
ghost use Rattle.term_places.specs.Places.{PLACES};
ghost use Rattle.term_places.specs.Classes.{relabel as relabelling, relabelled, EachItsOwn, Cleared, TellsSettled, BothSettled};

// Each place gets a label of its own.
pub fn number(labels: &mut [u16])
    requires { length labels.old ≤ PLACES }
    ensures { EachItsOwn labels.new }
{
    for p in 0..labels.len() {
        // Kept: `as`, for the number is known to fit, and `try_from` would bring an error that can't come.
        labels[p] = p as u16;
    }
}

// A label, unless it is `old`; that gives way to `new`.
fn relabel(label: u16, old: u16, new: u16) -> u16
    ensures { result ≡ relabelling old new label }
{
    if label == old {
        return new;
    }
    label
}

// The same of each label.
pub fn join(labels: &mut [u16], old: u16, new: u16)
    ensures { labels.new ≡ relabelled old new labels.old }
{
    for label in labels.iter_mut() {
        *label = relabel(*label, old, new);
    }
}

// What stands where no rank is known, and where a place is not settled.
// Kept: an `Option<u16>` would double each table of 8,192 ranks, and the tables lie on the stack, for the memory is fixed.
pub const NONE: u16 = 65535;

// The most places that there are: those of a question's words and of its values', twice `bounds::SYMBOLS`.
pub const PLACES: usize = 8192;

// Room for a number at each place of a question's words and of its values'. The contract has its length alone, which lending it needs.
pub fn blank() -> [u16; PLACES]
    ensures { PLACES ≡ length result }
{
    [0; PLACES]
}

pub fn clear(table: &mut [u16])
    ensures { Cleared table.old table.new }
{
    table.fill(NONE);
}

// Is the place settled? An empty table settles none.
fn is_settled(settled: &[u16], p: usize) -> bool
    ensures { TellsSettled settled.now p result }
{
    p < settled.len() && settled[p] < NONE
}

// Are both?
pub fn both_settled(settled: &[u16], p: usize, q: usize) -> bool
    ensures { BothSettled settled.now p q result }
{
    is_settled(settled, p) && is_settled(settled, q)
}
