// Rows of entries: an index with the first and the last of its subs that hold values, and what these are.
ghost use Rattle.std.specs.Prelude.{◌≡◌};
ghost use Rattle.records.specs.Rows.{role_at};

use roles::types::Role;

// What a row holds: values of one role, or a condition, which is source, number, source, number, comparison.
#[derive(Clone, Copy)]
pub enum Values {
    Each(Role),
    Condition,
}

#[derive(Clone, Copy)]
pub struct Row {
    pub index: u16,
    pub first: u8,
    pub last: u8,
    pub holds: Values,
}

impl Row {
    // The role of what a row holds at a sub.
    pub fn role_at(self, sub: u8) -> Role
        ensures { result ≡ role_at self sub }
    {
        match self.holds {
            Values::Each(role) => role,
            Values::Condition if sub == 5 => Role::Comparison,
            Values::Condition if sub % 2 == 1 => Role::Source,
            Values::Condition => Role::Number,
        }
    }
}
