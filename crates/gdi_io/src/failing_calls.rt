ghost use Rattle.std.specs.Prelude.{◌≡◌, ◌+◌, min};
ghost use Rattle.gdi_io.specs.Faults.{last_count};
ghost use Rattle.gdi_io.specs.Listed.{is_listed};

use gdi_kinds::NumList;

/// Which calls are to fail. Calls are numbered from 0; from the last number of 64 bits on, each has that number.
#[derive(Drop)]
pub(crate) struct FailingCalls {
    pub(crate) numbers: NumList,
    pub(crate) next: u64,
}

impl FailingCalls {
    pub(crate) fn new(numbers: NumList) -> FailingCalls
        ensures next { result.next ≡ 0 }
        ensures numbers { result.numbers ≡ numbers }
    {
        FailingCalls { numbers, next: 0 }
    }

    /// Counts a call, and says whether it is to fail.
    pub(crate) fn count_call(&mut self) -> bool
        ensures listed { result ≡ is_listed self.old.numbers self.old.next }
        ensures next { self.new.next ≡ min (self.old.next + 1) last_count }
        ensures numbers { self.new.numbers ≡ self.old.numbers }
    {
        let listed = self.numbers.as_slice().contains(&self.next);
        self.next = self.next.saturating_add(1);
        listed
    }
}
