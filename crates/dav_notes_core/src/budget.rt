//! How many bytes notes may have in a record, and how many of them are left.
ghost use Rattle.std.specs.Prelude.{◌≡◌, ◌≤◌, ◌-◌, if◌then◌else◌, max, min};
ghost use Rattle.dav_notes_core.specs.Costs.{budget_of};

// What is given, what of it is left, and what of that is set aside.
#[derive(Drop)]
pub(crate) struct Budget {
    pub(crate) given: u64,
    pub(crate) left: u64,
    pub(crate) held: u64,
}

impl Budget {
    /// So many bytes, but for the last of eight bytes.
    pub(crate) fn of(bytes: u64) -> Budget
        ensures given { result.given ≡ budget_of bytes }
        ensures left { result.left ≡ budget_of bytes }
        ensures held { result.held ≡ 0 }
    {
        let given = bytes.min(u64::MAX - 1);
        Budget {
            given,
            left: given,
            held: 0,
        }
    }

    /// As much as was given is left again.
    pub(crate) fn renew(&mut self)
        ensures given { self.new.given ≡ self.old.given }
        ensures left { self.new.left ≡ self.old.given }
        ensures held { self.new.held ≡ 0 }
    {
        self.left = self.given;
        self.held = 0;
    }

    /// Nothing is set aside.
    pub(crate) fn release(&mut self)
        ensures given { self.new.given ≡ self.old.given }
        ensures left { self.new.left ≡ self.old.left }
        ensures held { self.new.held ≡ 0 }
    {
        self.held = 0;
    }

    /// So many bytes fewer are left, or none.
    pub(crate) fn withhold(&mut self, bytes: u64)
        ensures given { self.new.given ≡ self.old.given }
        ensures left { self.new.left ≡ self.old.left - bytes }
        ensures held { self.new.held ≡ min self.old.held (self.old.left - bytes) }
    {
        self.left = self.left.saturating_sub(bytes);
        self.held = self.held.min(self.left);
    }

    /// Sets so many of those that are left aside, or as many as were.
    pub(crate) fn hold(&mut self, bytes: u64)
        ensures given { self.new.given ≡ self.old.given }
        ensures left { self.new.left ≡ self.old.left }
        ensures held { self.new.held ≡ max self.old.held bytes }
    {
        self.held = self.held.max(bytes);
    }

    /// Takes what a note costs away, if it was made, from what was set aside first.
    pub(crate) fn spend(&mut self, cost: u64, made: bool)
        requires left { cost ≤ self.old.left }
        ensures given { self.new.given ≡ self.old.given }
        ensures left { self.new.left ≡ self.old.left - (if made then cost else 0) }
        ensures held { self.new.held ≡ self.old.held - (if made then cost else 0) }
    {
        if made {
            self.left -= cost;
            self.held = self.held.saturating_sub(cost);
        }
    }

    /// Takes what a note costs away, if it was made, from what wasn't set aside.
    pub(crate) fn spend_beside(&mut self, cost: u64, made: bool)
        requires left { cost ≤ self.old.left }
        ensures given { self.new.given ≡ self.old.given }
        ensures left { self.new.left ≡ self.old.left - (if made then cost else 0) }
        ensures held { self.new.held ≡ self.old.held }
    {
        if made {
            self.left -= cost;
        }
    }
}
