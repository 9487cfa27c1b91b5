//! Tables of names.

ghost use Rattle.std.specs.Prelude.{◌≡◌};
ghost use Rattle.std.specs.Str.{bytes_eq};
ghost use Rattle.isa_asm.specs.Tables.{named, table_seen};

/// What stands beside a name in a table. Takes time that the table's length bounds.
pub fn find<T: Copy>(name: &[u8], table: &[(&str, T)]) -> Option<T>
    ensures { result ≡ named name.now (table_seen table.now) }
{
    for (text, value) in table {
        if is_same(text.as_bytes(), name) {
            return Some(*value);
        }
    }
    None
}

/// Whether two texts are the same.
fn is_same(one: &[u8], other: &[u8]) -> bool
    ensures { result ≡ bytes_eq one.now other.now }
{
    one == other
}
