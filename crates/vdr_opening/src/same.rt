// Whether records are the same.
ghost use Rattle.std.specs.Prelude.{◌≡◌, ◌↔◌, IsTrue};

use vdr_entry::Record;

fn is_same(a: &Record, b: &Record) -> bool
    ensures { IsTrue result ↔ (a.now ≡ b.now) }
{
    a.kind == b.kind
        && a.group == b.group
        && a.bits == b.bits
        && a.place == b.place
        && a.number == b.number
        && a.tick == b.tick
        && a.utc == b.utc
        && a.payload.as_slice() == b.payload.as_slice()
}

/// Whether these are the same records, field by field and in the same order.
pub(crate) fn same_records(a: &[Record], b: &[Record]) -> bool
    ensures { IsTrue result ↔ (a.now ≡ b.now) }
{
    if a.len() != b.len() {
        return false;
    }
    for i in 0..a.len() {
        if !is_same(&a[i], &b[i]) {
            return false;
        }
    }
    true
}
