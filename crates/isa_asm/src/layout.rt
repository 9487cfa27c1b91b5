//! Where statements stand.

ghost use Rattle.std.specs.Prelude.{◌≡◌, length, unwrap_or, false, []};
ghost use Rattle.isa_asm.specs.Places.{after_meaning, here, in_section, moved, width_size};
ghost use Rattle.isa_asm.specs.Seen.{meaning_seen};
ghost use Rattle.isa_asm.specs.Statement.{quoted_bytes};

use crate::directives::quoted_length;
use crate::meaning::Meaning;
use isa_decode::Width;

/// How many bytes stand before a statement, and where it stands. Sums stand still at 4,294,967,295.
#[derive(Clone, Copy, Debug, PartialEq, Eq)]
pub struct Layout {
    pub text_size: u32,
    pub data_size: u32,
    pub in_data: bool,
}

/// Where a statement stands in its section.
#[derive(Clone, Copy, Debug, PartialEq, Eq)]
pub struct Spot {
    /// How many statements stand before it.
    pub index: usize,
    pub in_data: bool,
    pub place: u32,
}

pub const START: Layout = Layout {
    text_size: 0,
    data_size: 0,
    in_data: false,
};

impl Layout {
    /// Where the statement stands.
    pub fn here(self, index: usize) -> Spot
        ensures { result ≡ here index self }
    {
        Spot {
            index,
            in_data: self.in_data,
            place: if self.in_data {
                self.data_size
            } else {
                self.text_size
            },
        }
    }

    fn moved(self, size: u32) -> Layout
        ensures { result ≡ moved self size }
    {
        if self.in_data {
            Layout {
                text_size: self.text_size,
                data_size: self.data_size.saturating_add(size),
                in_data: self.in_data,
            }
        } else {
            Layout {
                text_size: self.text_size.saturating_add(size),
                data_size: self.data_size,
                in_data: self.in_data,
            }
        }
    }

    fn moved_far(self, size: usize) -> Layout
        ensures { result ≡ moved self size }
    {
        if size > 0xFFFF_FFFF {
            self.moved(0xFFFF_FFFF)
        } else {
            self.moved(size as u32)
        }
    }

    fn in_section(self, in_data: bool) -> Layout
        ensures { result ≡ in_section self in_data }
    {
        Layout {
            text_size: self.text_size,
            data_size: self.data_size,
            in_data,
        }
    }

    /// The layout behind a statement.
    pub fn after(self, meaning: &Meaning<'_>) -> Layout
        ensures { result ≡ after_meaning self (meaning_seen meaning.now) }
    {
        match *meaning {
            Meaning::Nothing => self,
            Meaning::Named(_) => self,
            Meaning::Section(in_data) => self.in_section(in_data),
            Meaning::One(_) => self.moved(4),
            Meaning::Two(_, _) => self.moved(8),
            Meaning::Jump(_, _) => self.moved(4),
            Meaning::Conditional(_, _, _, _) => self.moved(4),
            Meaning::Address(_, _) => self.moved(8),
            Meaning::Number(width, _) => self.moved(width_size(width)),
            Meaning::Pointer(_) => self.moved(8),
            Meaning::Zeros(size) => self.moved(size),
            Meaning::Quoted(quoted) => self.moved_far(quoted_size(quoted)),
        }
    }
}

fn width_size(width: Width) -> u32
    ensures { result ≡ width_size width }
{
    match width {
        Width::One => 1,
        Width::Two => 2,
        Width::Four => 4,
        Width::Eight => 8,
    }
}

/// How many bytes a quoted text stands for.
fn quoted_size(quoted: &[u8]) -> usize
    ensures { result ≡ length (unwrap_or (quoted_bytes false quoted.now) []) }
{
    match quoted_length(quoted) {
        Some(size) => size,
        None => 0,
    }
}
