// What is wrong with the value of a field by rules 9 and 10 of a verdict, and the number that the documents count it by.
#![tactic(auto)]

ghost use Rattle.std.specs.Prelude.{◌≡◌};
ghost use Rattle.fault.specs.Fault.{number};

#[derive(Clone, Copy, PartialEq, Eq, Debug)]
pub enum Fault {
    Value = 5,
    Form = 6,
}

impl Fault {
    pub fn number(self) -> u32
        ensures { result ≡ number self }
    {
        self as u32
    }
}
