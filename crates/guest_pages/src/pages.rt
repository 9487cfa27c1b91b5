mod finding;
mod loads;
mod mapping;
mod stores;

ghost use Rattle.std.specs.Prelude.{◌≡◌, []};

use crate::page::Table;
use std::marker::Model;

/// The guest's memory: pages of 4,096 bytes with rights, at byte addresses below 2^38.
#[derive(Drop)]
pub struct Pages {
    tables: Option<Vec<Table>>,
    stored: u64,
}

impl Model for Pages {
    ghost use Rattle.std.specs.Prelude.{List, ◌≡◌, ◌≤◌, length};
    ghost use Rattle.guest_pages.specs.Ranges.{Range, ranges_of};

    ghost Value = { List Range };

    ghost use Rattle.guest_pages.specs.Tables.{held, rows_of, IsSound};

    ghost view = { λ pages. held (rows_of pages.tables) };

    ghost invariant = { λ pages. IsSound (rows_of pages.tables) pages.stored };
}

impl Pages {
    /// No page is mapped. It takes no memory, and constant time.
    pub fn new() -> Pages
        ensures { result ≡ [] }
    {
        Pages {
            tables: None,
            stored: 0,
        }
    }
}
