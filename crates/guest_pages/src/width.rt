ghost use Rattle.std.specs.Prelude.{◌≡◌};
ghost use Rattle.guest_pages.specs.Sizes.{size_of};

/// How many bytes an access touches.
#[derive(Clone, Copy, Debug, PartialEq, Eq)]
pub enum Width {
    One,
    Two,
    Four,
    Eight,
}

impl Width {
    /// That number.
    #[inline]
    pub fn size(self) -> usize
        ensures { result ≡ size_of self }
    {
        match self {
            Width::One => 1,
            Width::Two => 2,
            Width::Four => 4,
            Width::Eight => 8,
        }
    }
}
