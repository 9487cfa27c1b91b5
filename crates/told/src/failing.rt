ghost use Rattle.std.specs.Prelude.{◌≡◌, ◌+◌, ◌^◌, ◌-◌, min};

/// The numbers of the calls that are to fail. The first call has the number 0.
#[derive(Drop)]
pub struct Failing {
    numbers: Vec<u64>,
    calls: u64,
}

impl Failing {
    pub fn new(numbers: Vec<u64>) -> Failing
        ensures numbers { result.numbers ≡ numbers }
        ensures calls { result.calls ≡ 0 }
    {
        Failing { numbers, calls: 0 }
    }

    /// Whether the call that is made now is to fail.
    pub fn next(&mut self) -> bool
        ensures numbers { self.new.numbers ≡ self.old.numbers }
        ensures calls { self.new.calls ≡ min (self.old.calls + 1) (2 ^ 64 - 1) }
    {
        let call = self.calls;
        self.calls = call.saturating_add(1);
        self.numbers.contains(&call)
    }
}
