// Counts of faults, and lists of calls that are to fail.
ghost use Rattle.std.specs.Prelude.{◌≡◌, ◌≤◌, true, false};
ghost use Rattle.live_devices.specs.Tallies.{is_listed, list_after, tally_after};

/// How often calls have failed, as far as the count goes, and whether the last one did.
#[derive(Clone, Copy, Debug)]
pub struct Tally {
    pub faults: u64,
    pub failed: bool,
}

impl Tally {
    /// No call has failed.
    pub fn new() -> Self
        ensures count { result.faults ≡ 0 }
        ensures failed { result.failed ≡ false }
    {
        Tally {
            faults: 0,
            failed: false,
        }
    }

    /// Notes that a call didn't fail.
    pub fn pass(&mut self)
        ensures { self.new ≡ tally_after false self.old }
    {
        self.failed = false;
    }

    /// Notes that a call failed. The count stands still at its greatest value.
    pub fn fail(&mut self)
        ensures after { self.new ≡ tally_after true self.old }
        ensures later { self.old.faults ≤ self.new.faults }
    {
        self.failed = true;
        self.faults = self.faults.saturating_add(1);
    }
}

/// The numbers of the calls that are to fail, counted from 1, and how many calls there were.
#[derive(Clone, Copy, Debug)]
pub struct Listed<'a> {
    pub fails: &'a [u64],
    pub calls: u64,
}

impl<'a> Listed<'a> {
    /// The calls with these numbers are to fail.
    pub fn new(fails: &'a [u64]) -> Self
        ensures fails { result.fails.now ≡ fails.now }
        ensures calls { result.calls ≡ 0 }
    {
        Listed { fails, calls: 0 }
    }

    /// Counts a call, and answers whether it is to fail.
    pub fn take_call(&mut self) -> bool
        ensures listed { result ≡ is_listed self.old }
        ensures after { self.new ≡ list_after self.old }
    {
        self.calls = self.calls.saturating_add(1);
        self.fails.contains(&self.calls)
    }
}
