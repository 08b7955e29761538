//! The number of open calls.

ghost use Rattle.std.specs.Prelude.{◌≡◌, ◌≤◌, ◌+◌, nat_eq, true, false, IsNone, IfSome};

/// The number of open calls of functions and methods. Own rule of the profile: at most 64.
#[derive(Clone, Copy)]
pub struct Depth {
    /// The number of open calls.
    pub calls: u64,
    ghost within: { calls ≤ 64 },
}

impl Depth {
    /// Returns the depth with one more open call, or `None` if 64 calls are open.
    pub(crate) fn deeper(self) -> Option<Depth>
        ensures none { IsNone result → nat_eq self.calls 64 ≡ true }
        ensures some { IfSome result (λ d. (nat_eq self.calls 64 ≡ false) × (d.calls ≡ self.calls + 1)) }
    {
        if self.calls == 64 {
            None
        } else {
            Some(Depth {
                calls: self.calls + 1,
            })
        }
    }
}
