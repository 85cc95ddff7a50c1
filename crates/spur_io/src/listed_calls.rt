// The calls that a test wants to fail.
ghost use Rattle.std.specs.Prelude.{◌≡◌, ◌↔◌, [], ◌∷◌, ◌++◌, ◌-◌, map, IsTrue, Contains, OnOk, OnErr};
ghost use Rattle.spur_io.specs.Listed.{after_call};

use std::alloc::{AllocError, Global};

// One call later each number is one lower.
fn bring_nearer(numbers: &mut [u64])
    ensures { numbers.new ≡ map (λ n. n - 1) numbers.old }
{
    'numbers: for number in numbers.iter_mut() {
        *number = number.saturating_sub(1);
    }
}

// The numbers of the listed calls, counted from 1 at the next call.
#[derive(Drop)]
pub struct ListedCalls {
    ahead: Vec<u64>,
}

impl ListedCalls {
    pub fn new(alloc: Global) -> Self
        ensures { result.ahead.items ≡ [] }
    {
        ListedCalls {
            ahead: Vec::new(alloc),
        }
    }

    pub fn list(&mut self, number: u64) -> Result<(), AllocError>
        ensures ok { OnOk result (self.new.ahead.items ≡ self.old.ahead.items ++ number ∷ []) }
        ensures err { OnErr result (self.new.ahead.items ≡ self.old.ahead.items) }
    {
        self.ahead.push(number)?;
        Ok(())
    }

    // Counts one call, and says whether it was listed.
    pub fn count_call(&mut self) -> bool
        ensures listed { IsTrue result ↔ Contains self.old.ahead.items 1 }
        ensures after { self.new.ahead.items ≡ after_call self.old.ahead.items }
    {
        let is_listed = self.ahead.contains(&1);
        bring_nearer(&mut self.ahead);
        self.ahead.retain(|number| *number > 0);
        is_listed
    }
}
